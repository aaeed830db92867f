// What a room holds before a call, and what a call touched of it.
ghost use Rattle.std.specs.Prelude.{◌≡◌, ◌<◌, ℕ, ◌+◌, ◌%◌, length};
ghost use Rattle.replay.specs.Pattern.{pattern_to};

use programs::Writer;

// A byte or a word of a room. What the one at i holds before a call depends on the index and is never 0.
pub trait Pattern: Copy + PartialEq {
    ghost at: { ℕ → Self };

    // After how many the pattern begins anew.
    fn period() -> usize
        ensures some { 0 < result }
        ensures anew { (i : ℕ) → at (i + result) ≡ at i };

    fn pattern(i: usize) -> Self
        ensures { result ≡ at i };

    // What the next one holds: `put_touched` goes on by it, and divides no index.
    fn after(self) -> Self
        ensures { (i : ℕ) → self ≡ at i → result ≡ at (i + 1) };
}

impl Pattern for u8 {
    ghost at = { λ i. i % 255 + 1 };

    fn period() -> usize {
        255
    }

    fn pattern(i: usize) -> u8 {
        (i % 255) as u8 + 1
    }

    fn after(self) -> u8 {
        if self < 255 { self + 1 } else { 1 }
    }
}

impl Pattern for u32 {
    ghost at = { λ i. i % 65521 + 1 };

    fn period() -> usize {
        65521
    }

    fn pattern(i: usize) -> u32 {
        (i % 65521) as u32 + 1
    }

    fn after(self) -> u32 {
        if self < 65521 { self + 1 } else { 1 }
    }
}

// The first period, where compiled code divides no index, and then each as the one a period before it: both loops are compiled to many at a time.
pub fn fill<T: Pattern>(room: &mut [T])
    ensures { room.new ≡ pattern_to T.at (length room.old) }
{
    let period = T::period();
    let first = room.len().min(period);
    for i in 0..first {
        room[i] = T::pattern(i);
    }
    for i in first..room.len() {
        room[i] = room[i - period];
    }
}

// A line for each byte or word from `from` that does not hold its pattern any more.
pub fn put_touched<T: Pattern>(output: &mut Writer<'_>, room: &[T], from: usize) {
    let mut held = T::pattern(from);
    for i in from..room.len() {
        if room[i] != held {
            output.line(b"touched", &[i as u64]);
        }
        held = held.after();
    }
}
