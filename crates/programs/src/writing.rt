// Standard output, gathered in a buffer that the program lends, and written a buffer at a time.
ghost use Rattle.std.specs.Prelude.{◌≡◌, ◌≤◌, [], ◌∷◌, length, IsOk, Ok};
ghost use Rattle.decimal.specs.Decimal.{decimal};
ghost use Rattle.programs.specs.Buffers.{SameBuffer};
ghost use Rattle.programs.specs.Output.{Waits, Gathers};

use decimal::put_number;
use std::io::{Result, Stdout};

// Standard output: how many bytes wait to be written, and that every write went well so far, or that one failed with this error.
#[derive(Clone, Copy)]
pub struct Output {
    pub stdout: Stdout,
    pub used: usize,
    pub so_far: Result<()>,
}

// An output with the buffer that is lent to it, of any length: the bytes at its front are those that wait.
#[derive(Drop)]
pub struct Writer<'a> {
    pub output: Output,
    pub buffer: &'a mut [u8],
}

// Writes the bytes, unless a write failed before.
fn write(so_far: Result<()>, stdout: Stdout, bytes: &[u8]) -> Result<()>
    ensures { IsOk result → IsOk so_far }
{
    so_far?;
    stdout.write_all(bytes)
}

impl Output {
    pub fn new(stdout: Stdout) -> Self
        ensures { result ≡ record { stdout = stdout; used = 0; so_far = Ok tt } }
    {
        Output {
            stdout,
            used: 0,
            so_far: Ok(()),
        }
    }

    // One byte more. A full buffer is written first; where the buffer has no bytes at all, the byte is written.
    pub fn byte(&mut self, buffer: &mut [u8], b: u8)
        ensures waits { Waits (b ∷ []) self.old buffer.old self.new buffer.new }
        ensures kept { IsOk self.new.so_far → IsOk self.old.so_far }
    {
        if self.used < buffer.len() {
            buffer[self.used] = b;
            self.used += 1;
        } else {
            self.begin_anew(buffer, b);
        }
    }

    // A byte more where the buffer is full. Apart from `byte`, which runs for each byte and seldom comes to it.
    #[cold]
    fn begin_anew(&mut self, buffer: &mut [u8], b: u8)
        requires { length buffer.old ≤ self.old.used }
        ensures waits { Waits (b ∷ []) self.old buffer.old self.new buffer.new }
        ensures kept { IsOk self.new.so_far → IsOk self.old.so_far }
    {
        self.so_far = write(self.so_far, self.stdout, buffer);
        if buffer.len() == 0 {
            self.so_far = write(self.so_far, self.stdout, &[b]);
            self.used = 0;
        } else {
            buffer[0] = b;
            self.used = 1;
        }
    }

    // Writes what waits. Says whether every write went well: it did not if an earlier one failed.
    pub fn flush(&mut self, buffer: &[u8]) -> Result<()>
        ensures good { IsOk result → IsOk self.old.so_far }
        ensures so_far { result ≡ self.new.so_far }
        ensures empty { self.new.used ≡ 0 }
    {
        let used = self.used.min(buffer.len());
        self.so_far = write(self.so_far, self.stdout, &buffer[..used]);
        self.used = 0;
        self.so_far
    }
}

impl Writer<'_> {
    // One byte more, as of the output in the buffer.
    pub fn byte(&mut self, b: u8)
        ensures { Gathers (b ∷ []) self.old self.new }
    {
        self.output.byte(self.buffer, b);
    }

    // Bytes more: in one copy, where they leave room in the buffer (so not where `used` lies behind its end).
    pub fn text(&mut self, text: &[u8])
        ensures { Gathers text.now self.old self.new }
    {
        let used = self.output.used;
        if text.len() < self.buffer.len().saturating_sub(used) {
            let end = used + text.len();
            self.buffer[used..end].copy_from_slice(text);
            self.output.used = end;
        } else {
            self.bytes(text);
        }
    }

    // Bytes more, one by one. Apart from `text`, which seldom comes to it.
    #[cold]
    fn bytes(&mut self, text: &[u8])
        ensures { Gathers text.now self.old self.new }
    {
        for b in text {
            self.byte(*b);
        }
    }

    // A number in digits: 20 are those of the largest.
    pub fn number(&mut self, n: u64)
        ensures { Gathers (decimal n) self.old self.new }
    {
        let mut digits = [0u8; 20];
        let len = put_number(&mut digits, n);
        self.text(&digits[..len]);
    }

    // Writes what waits, as of the output.
    pub fn flush(&mut self) -> Result<()>
        ensures good { IsOk result → IsOk self.old.output.so_far }
        ensures so_far { result ≡ self.new.output.so_far }
        ensures empty { self.new.output.used ≡ 0 }
        ensures buffer { SameBuffer self.old.buffer self.new.buffer }
    {
        let mut output = self.output;
        let flushed = output.flush(self.buffer);
        self.output = output;
        flushed
    }
}
