// A diagnostic's record, laid at the front of a room; and the two neighbours of a mark.
ghost use Rattle.std.specs.Prelude.{◌≡◌, [], ◌∷◌};
ghost use Rattle.verify_markup.specs.Diag.{when, nonblank_at, nonblank_before};
ghost use Rattle.verify_markup.specs.Words.{FitsWords, FitsIf, words_of, words_if, Writes};

use crate::diagnostic::Diagnostic;
use byte_rules::is_blank;
use records::{Wrote, lay};

// Lays the record, but for its line.
pub(crate) fn lay_one(diagnostic: Diagnostic, room: &mut [u32]) -> Wrote
    requires { FitsWords diagnostic }
    ensures { Writes (words_of diagnostic ∷ []) room.old room.new result }
{
    lay(room, &diagnostic.words())
}

// Lays it if the test holds.
pub(crate) fn lay_if(test: bool, diagnostic: Diagnostic, room: &mut [u32]) -> Wrote
    requires { FitsWords diagnostic }
    ensures { Writes (when test (words_of diagnostic)) room.old room.new result }
{
    if test {
        lay_one(diagnostic, room)
    } else {
        Wrote::NOTHING
    }
}

// Lays it if there is one.
pub(crate) fn lay_option(diagnostic: Option<Diagnostic>, room: &mut [u32]) -> Wrote
    requires { FitsIf diagnostic }
    ensures { Writes (words_if diagnostic) room.old room.new result }
{
    match diagnostic {
        Some(d) => lay_one(d, room),
        None => Wrote::NOTHING,
    }
}

// The byte at i is there and no blank.
#[tactic(auto, using(crate::proofs::DiagLaws::nonblank_in, crate::proofs::DiagLaws::nonblank_past))]
pub(crate) fn nonblank_at(buf: &[u8], i: usize) -> bool
    ensures { result ≡ nonblank_at buf.now i }
{
    buf.get(i).is_some_and(|c| !is_blank(*c))
}

// The byte before i is.
#[tactic(auto, using(crate::proofs::DiagLaws::before_start, crate::proofs::DiagLaws::before_is))]
pub(crate) fn nonblank_before(buf: &[u8], i: usize) -> bool
    ensures { result ≡ nonblank_before buf.now i }
{
    i != 0 && nonblank_at(buf, i - 1)
}
