// The records of a span's parentheticals, in an area that the caller lends.
ghost use Rattle.std.specs.Prelude.{◌≡◌, [], ◌∷◌, length};
ghost use Rattle.byte_rules.specs.Reading.{named};
ghost use Rattle.records.specs.Answer.{filled_answer};
ghost use Rattle.records.specs.Records.{laid, wrote_of};
ghost use Rattle.parentheticals.specs.Records.{kind_of, author_of, date_of, record_of, record_width, parentheticals_answer, parentheticals_left};
ghost use Rattle.parentheticals.specs.Inner.{InWords};

use crate::matching::next_match;
use crate::{Found, Parenthetical};
use basics::Span;
use byte_rules::Reading;
use records::{FillError, Wrote, check_span, fits, lay};

// How many words a parenthetical's record has: kind, then start and end of the whole, the author and the date.
pub const PARENTHETICAL_WIDTH: usize = 7;

// What a notice's record has for the author and the date.
const ZEROS: Span = Span { start: 0, end: 0 };

impl Parenthetical {
    // Kind 1 to 5 in the enum's order, the author and the date; zeros for a notice.
    pub fn parts(self) -> (u32, Span, Span)
        ensures { result ≡ (kind_of self, author_of self, date_of self) }
    {
        match self {
            Parenthetical::ContributedBy { author, date } => (1, author, date),
            Parenthetical::RevisedBy { author, date } => (2, author, date),
            Parenthetical::ProofShortenedBy { author, date } => (3, author, date),
            Parenthetical::ProofModificationDiscouraged => (4, ZEROS, ZEROS),
            Parenthetical::NewUsageDiscouraged => (5, ZEROS, ZEROS),
        }
    }
}

// Writes a parenthetical's record at the front of `room`, if it fits.
fn lay_found(room: &mut [u32], found: Found) -> Wrote
    requires { InWords found }
    ensures wrote { result ≡ wrote_of record_width (record_of found ∷ []) (length room.old) }
    ensures left { room.new ≡ laid record_width (record_of found ∷ []) room.old }
{
    let whole = found.whole;
    let (kind, author, date) = found.item.parts();
    lay(
        room,
        &[
            kind,
            whole.start as u32,
            whole.end as u32,
            author.start as u32,
            author.end as u32,
            date.start as u32,
            date.end as u32,
        ],
    )
}

// The parentheticals of the span from `start` to `end`, in the reading that is named, as records in `out`.
#[tactic(auto, unfolding(records::specs::Records::list_answer, records::specs::Records::list_left))]
pub fn parentheticals(
    reading: Reading,
    buf: &[u8],
    start: usize,
    end: usize,
    out: &mut [u32],
) -> Result<usize, FillError>
    ensures answer { filled_answer result ≡ parentheticals_answer (named reading) buf.now start end (length out.old) }
    ensures left { out.new ≡ parentheticals_left (named reading) buf.now start end out.old }
{
    check_span(buf.len(), start, end)?;
    let mut from = start;
    let mut wrote = Wrote::NOTHING;
    while let Some(found) = next_match(reading, &buf[..end], from) {
        let laid = lay_found(&mut out[wrote.words..], found);
        wrote = wrote.then(laid);
        from = found.whole.end;
    }
    fits(wrote.count, out.len() / PARENTHETICAL_WIDTH)
}
