// Standard input.
ghost use Rattle.std.specs.Prelude.{◌≡◌, ◌+◌, ◌≤◌, length, IfOk, None};
ghost use Rattle.programs.specs.Buffers.{SameBuffer};
ghost use Rattle.programs.specs.Input.{Within};

use std::io::{Error, Read, Result, Stdin};

// Reads the input to its end and counts it. All of it stands at the front of `room` then; or the room is full, and the count is one
// more than its length: that much of the input was read, and more may come.
pub fn read_input(mut stdin: Stdin, room: &mut [u8]) -> Result<usize>
    ensures { IfOk result (λ n. n ≤ length room.new + 1) }
{
    let mut n = 0;
    // A read gives as many bytes as come, so the loop goes on from there.
    while n < room.len() {
        let more = stdin.read(&mut room[n..])?;
        if more == 0 {
            return Ok(n);
        }
        n += more;
    }
    let mut one = [0u8; 1];
    Ok(n + stdin.read(&mut one)?)
}

// Standard input, part by part: what of a lent buffer is read and not yet taken, and the error of the last read that failed.
#[derive(Clone, Copy)]
pub struct Source {
    pub stdin: Stdin,
    pub at: usize,
    pub end: usize,
    pub failure: Option<Error>,
}

// A source with the buffer that is lent to it, of any length.
#[derive(Drop)]
pub struct Reader<'a> {
    pub source: Source,
    pub buffer: &'a mut [u8],
}

impl Source {
    pub fn new(stdin: Stdin) -> Self
        ensures { result ≡ record { stdin = stdin; at = 0; end = 0; failure = None } }
    {
        Source {
            stdin,
            at: 0,
            end: 0,
            failure: None,
        }
    }
}

impl Reader<'_> {
    // Reads if nothing of the buffer is left to take. Where nothing is left then, the input ends or a read failed.
    pub fn ready(&mut self)
        ensures within { Within self.new }
        ensures buffer { SameBuffer self.old.buffer self.new.buffer }
    {
        if self.source.at < self.source.end && self.source.end <= self.buffer.len() {
            return;
        }
        self.source.at = 0;
        self.source.end = match self.source.stdin.read(self.buffer) {
            Ok(n) => n,
            Err(error) => {
                self.source.failure = Some(error);
                0
            }
        };
    }

    // Takes what is there, as far as it goes into `to`.
    fn take_some(&mut self, to: &mut [u8]) -> usize
        requires { Within self.old }
        ensures there { self.old.source.at + result ≤ self.old.source.end }
        ensures taken { (self.new.source.at ≡ self.old.source.at + result) × (self.new.source.end ≡ self.old.source.end) }
        ensures count { result ≤ length to.new }
        ensures buffer { SameBuffer self.old.buffer self.new.buffer }
    {
        let Source { at, end, .. } = self.source;
        let n = to.len().min(end - at);
        to[..n].copy_from_slice(&self.buffer[at..at + n]);
        self.source.at = at + n;
        n
    }

    // Takes bytes until `to` is full or the input ends, and counts them.
    pub fn take(&mut self, to: &mut [u8]) -> usize
        ensures count { result ≤ length to.new }
        ensures buffer { SameBuffer self.old.buffer self.new.buffer }
    {
        let mut done = 0;
        // So many as were there, and on from there.
        while done < to.len() {
            self.ready();
            let n = self.take_some(&mut to[done..]);
            if n == 0 {
                return done;
            }
            done += n;
        }
        done
    }
}
