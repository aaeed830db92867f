// Line numbers: how many lines lie between two places of a buffer, and the lines of records, filled in behind the calls that lay them.
#![tactic(auto)]

mod count;
mod cursor;

ghost use Rattle.std.specs.Prelude.{◌≡◌, min};
ghost use Rattle.records.specs.Answer.{longest};
ghost use Rattle.lines.specs.Lines.{filled};

pub use count::lines_between;
use cursor::Line;

// How many words a record with a line has: its place is the second, its line the fifth.
pub const LINED_WIDTH: usize = 5;

// A line as a word: the largest word if it does not fit.
fn word_of(line: usize) -> u32
    ensures { result ≡ min line longest }
{
    u32::try_from(line).unwrap_or(u32::MAX)
}

// Fills in the lines of the first n records of `room`, as many as are whole. Most places lie in the line of the one before; else the bytes
// between the two are walked over.
pub fn fill_lines(buf: &[u8], n: usize, room: &mut [u32])
    ensures { room.new ≡ filled buf.now n room.old }
{
    let count = n.min(room.len() / LINED_WIDTH);
    if count == 0 {
        return;
    }
    let mut line = Line::first(buf);
    // By index: of what is written through std's `chunks_exact_mut` nothing can be proved afterwards.
    for k in 0..count {
        let at = LINED_WIDTH * k;
        let place = room[at + 1] as usize;
        if (place < line.from) | (line.to < place) {
            line = line.go_to(buf, place);
        }
        room[at + 4] = word_of(line.number);
    }
}
