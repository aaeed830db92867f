// A line of a buffer, as the filling goes from place to place: most places lie in the line of the place before.
ghost use Rattle.std.specs.Prelude.{◌≡◌, true, ◌+◌, ◌≤◌, ◌<◌, length, take, slice_index};
ghost use Rattle.scans.specs.Marks.{lf};
ghost use Rattle.lines.specs.Lines.{lf_in, line_of};
ghost use Rattle.lines.specs.Cursor.{Clear, LineEnd, IsLine};

use crate::count::lines_between;

// A line by its number, from a place of it on to its end: its LF, or the buffer's end.
#[derive(Clone, Copy)]
pub struct Line {
    pub from: usize,
    pub to: usize,
    pub number: usize,
}

// Whether none of up to 32 bytes is an LF: a fold with no way out, which is compiled to comparisons of as many bytes.
fn lacks_lf(part: &[u8]) -> bool
    ensures { result ≡ true → lf_in part.now ≡ 0 }
{
    part.iter().fold(true, |clear, c| clear & (*c != b'\n'))
}

// Whether n bytes stand from i on, none of them an LF; i is a place that was found.
#[tactic(auto, using(crate::proofs::Moving::clear_part))]
fn is_clear(buf: &[u8], i: usize, n: usize) -> bool
    requires { (i ≤ length buf.now) × (n ≤ 32) }
    ensures { result ≡ true → Clear buf.now i (i + n) }
{
    buf.get(i..i + n).is_some_and(lacks_lf)
}

// n bytes on, if as many stand there and none of them is an LF; else i.
fn skip(buf: &[u8], i: usize, n: usize) -> usize
    requires { (i ≤ length buf.now) × (n ≤ 32) }
    ensures { Clear buf.now i result }
{
    if is_clear(buf, i, n) { i + n } else { i }
}

// How many bytes lie before the first LF.
fn until_lf(part: &[u8]) -> usize
    ensures inside { result ≤ length part.now }
    ensures clear { lf_in (take result part.now) ≡ 0 }
    ensures ends { result < length part.now → slice_index part.now result ≡ lf }
{
    part.iter().position(|c| *c == b'\n').unwrap_or(part.len())
}

// The end of the line that `from` lies in: its LF, or the buffer's end. Long steps first: `until_lf` alone would take four instructions
// for each byte.
fn line_end(buf: &[u8], from: usize) -> usize
    requires { from ≤ length buf.now }
    ensures { LineEnd buf.now from result }
{
    let mut far = from;
    while is_clear(buf, far, 32) {
        far += 32;
    }
    let near = skip(buf, far, 16);
    let i = skip(buf, near, 8);
    i + until_lf(&buf[i..])
}

impl Line {
    pub(crate) fn first(buf: &[u8]) -> Self
        ensures { IsLine buf.now result }
    {
        Self {
            from: 0,
            to: line_end(buf, 0),
            number: 1,
        }
    }

    // The line of `to`: this one, or one behind or before it. Past the buffer it is the last line.
    pub(crate) fn go_to(self, buf: &[u8], to: usize) -> Self
        requires { IsLine buf.now self }
        ensures line { IsLine buf.now result }
        ensures number { result.number ≡ line_of buf.now to }
    {
        if to < self.from {
            return Self {
                from: to,
                to: line_end(buf, to),
                number: self.number - lines_between(buf, to, self.from),
            };
        }
        // From line to line, each as long as it is.
        let mut here = self;
        while here.to < to {
            if here.to == buf.len() {
                return here;
            }
            let from = here.to + 1;
            here = Self {
                from,
                to: line_end(buf, from),
                number: here.number + 1,
            };
        }
        here
    }
}
