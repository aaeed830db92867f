// What matches at an opening parenthesis, and the first match from a place on.
ghost use Rattle.std.specs.Prelude.{◌≡◌, ◌==◌, position};
ghost use Rattle.scans.specs.Marks.{lparen};
ghost use Rattle.byte_rules.specs.Reading.{named};
ghost use Rattle.parentheticals.specs.Matching.{author_after, head_at, notice_at, tail_at, credit_of, next_from};
ghost use Rattle.parentheticals.specs.Inner.{Opens};

use crate::fields::{author_len, author_start, date_at, phrase_at};
use crate::{Found, Parenthetical};
use basics::Span;
use byte_rules::Reading;
use look::byte_at;
use scans::plain::lacks_8;

// The words of the two notices, behind the `(`.
pub const PROOF_MODIFICATION: &[u8] = b"Proof modification is discouraged.)";

pub const NEW_USAGE: &[u8] = b"New usage is discouraged.)";

// What a credit says that its author did.
#[derive(Clone, Copy)]
pub enum Credit {
    Contributed,
    Revised,
    ProofShortened,
}

// What closes a credit: its author's end, its date, and its own end.
#[derive(Clone, Copy)]
pub struct Closing {
    pub author_end: usize,
    pub date: Span,
    pub end: usize,
}

impl Credit {
    // The credit of that author, with that date.
    fn by(self, author: Span, date: Span) -> Parenthetical
        ensures { result ≡ credit_of self author date }
    {
        match self {
            Credit::Contributed => Parenthetical::ContributedBy { author, date },
            Credit::Revised => Parenthetical::RevisedBy { author, date },
            Credit::ProofShortened => Parenthetical::ProofShortenedBy { author, date },
        }
    }
}

// Where the author starts behind a phrase.
#[tactic(auto, unfolding(crate::specs::Matching::author_after))]
fn author_after(phrase: &[u8], text: &[u8], at: usize) -> Option<usize>
    ensures { result ≡ author_after phrase.now text.now at }
{
    let behind = phrase_at(phrase, text, at)?;
    author_start(text, behind)
}

// Behind `(`: what a credit says, and its author's start.
#[tactic(auto, unfolding(crate::specs::Matching::head_at))]
fn head_at(text: &[u8], at: usize) -> Option<(Credit, usize)>
    ensures { result ≡ head_at text.now at }
{
    if let Some(start) = author_after(b"Contributed by", text, at) {
        return Some((Credit::Contributed, start));
    }
    if let Some(start) = author_after(b"Revised by", text, at) {
        return Some((Credit::Revised, start));
    }
    let start = author_after(b"Proof shortened by", text, at)?;
    Some((Credit::ProofShortened, start))
}

// Behind `(`: a notice, and its end.
#[tactic(auto, unfolding(crate::specs::Matching::notice_at))]
fn notice_at(text: &[u8], at: usize) -> Option<(Parenthetical, usize)>
    ensures { result ≡ notice_at text.now at }
{
    if let Some(end) = phrase_at(PROOF_MODIFICATION, text, at) {
        return Some((Parenthetical::ProofModificationDiscouraged, end));
    }
    let end = phrase_at(NEW_USAGE, text, at)?;
    Some((Parenthetical::NewUsageDiscouraged, end))
}

// Behind an author that ends at `comma`: `,` and spaces, the date, and `.)`. Not inlined: in the search, the field that was left would be moved to
// its place before each of the twenty tests here.
#[inline(never)]
#[tactic(auto, unfolding(crate::specs::Matching::tail_at))]
fn tail_at(text: &[u8], comma: usize) -> Option<Closing>
    ensures { result ≡ tail_at text.now comma }
{
    let start = phrase_at(b", ", text, comma)?;
    let dated = date_at(text, start)?;
    let end = phrase_at(b".)", text, dated)?;
    Some(Closing {
        author_end: comma,
        date: Span { start, end: dated },
        end,
    })
}

// The first `(`.
fn first_opening(text: &[u8]) -> Option<usize>
    ensures { result ≡ position (λ b. b == lparen) text.now }
{
    text.iter().position(|b| *b == b'(')
}

// The next `(` from `from` on: before it no parenthetical begins. Most bytes are stepped over eight at a time; the first is tested by itself, since a
// `(` often stands right here.
fn next_opening(text: &[u8], from: usize) -> Option<usize>
    ensures { Opens text.now from result }
{
    if *text.get(from)? == b'(' {
        return Some(from);
    }
    let mut i = from;
    while lacks_8(text, i, b'(') {
        i += 8;
    }
    let rest = text.get(i..)?;
    let k = first_opening(rest)?;
    Some(i + k)
}

// The leftmost parenthetical from `from` on, in the reading that is named. At the first byte that does not fit, the field and the candidate are left,
// and the next `(` after the candidate's own is tried.
pub fn next_match(reading: Reading, text: &[u8], from: usize) -> Option<Found>
    ensures { result ≡ next_from (named reading).bars_author text.now from }
{
    let mut at = from;
    // The last author's field, from its start to the place where it was left.
    let mut left: Option<Span> = None;
    'candidates: while let Some(opening) = next_opening(text, at) {
        at = opening + 1;
        if let Some((item, end)) = notice_at(text, at) {
            let whole = Span {
                start: opening,
                end,
            };
            return Some(Found { whole, item });
        }
        let Some((credit, start)) = head_at(text, at) else {
            continue;
        };
        // A field that starts inside the last one comes to the same place, and is left there too.
        if let Some(field) = left {
            if field.start <= start && start <= field.end {
                continue;
            }
        }
        // By characters, of one to four bytes.
        let mut i = start;
        'field: while !byte_at(text, i, b',') {
            let n = author_len(reading, text, i);
            if n == 0 {
                left = Some(Span { start, end: i });
                continue 'candidates;
            }
            i += n;
        }
        // Noted here once: in the other arm it would be compiled to stores before each test of the tail.
        left = Some(Span { start, end: i });
        let Some(closing) = tail_at(text, i) else {
            continue;
        };
        let author = Span {
            start,
            end: closing.author_end,
        };
        let whole = Span {
            start: opening,
            end: closing.end,
        };
        let item = credit.by(author, closing.date);
        return Some(Found { whole, item });
    }
    None
}
