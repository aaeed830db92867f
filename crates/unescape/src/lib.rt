// Unescaping: left to right, a doubled escape byte becomes one, a lone one stays.
#![tactic(auto)]

ghost use Rattle.std.specs.Prelude.{◌≡◌, ◌++◌, ◌≤◌, length, drop};
ghost use Rattle.records.specs.Answer.{filled_answer, span_refusal};
ghost use Rattle.records.specs.Records.{text_answer, text_left};
ghost use Rattle.unescape.specs.Unescape.{is_escape, unescaped, step_at, part};

use byte_rules::{is_label_escape, is_math_escape, is_text_escape};
use look::byte_at;
use records::{FillError, check_span, fits};
use scans::plain::plain_end;

// Whose escapes they are: a Text's, in HTML or outside it; a Label's or a Url's; a MathToken's.
#[derive(Clone, Copy)]
pub enum Escape {
    Text { html: bool },
    Label,
    Math,
}

// By a match: which test it is, is what the kinds differ in.
pub fn is_escape(kind: Escape, c: u8) -> bool
    ensures { result ≡ is_escape kind c }
{
    match kind {
        Escape::Text { html } => is_text_escape(html, c),
        Escape::Label => is_label_escape(c),
        Escape::Math => is_math_escape(c),
    }
}

// How many bytes stand for the one unescaped byte at i: 2 for a doubled escape byte, else 1. Few bytes are followed by the same one, so that is asked first.
#[tactic(auto, using(crate::proofs::Laws::step_single, crate::proofs::Laws::step_last), unfolding(crate::specs::Unescape::step_at))]
pub fn unescape_step(kind: Escape, text: &[u8], i: usize) -> usize
    ensures { result ≡ step_at (is_escape kind) text.now i }
{
    let Some(&c) = text.get(i) else {
        return 1;
    };
    if byte_at(text, i + 1, c) && is_escape(kind, c) {
        2
    } else {
        1
    }
}

// How many bytes the text has unescaped. No escape byte is plain, so plain bytes are counted at once.
#[tactic(auto, using(crate::proofs::Runs::run_ahead, crate::proofs::Runs::run_within, crate::proofs::Laws::step_some, crate::proofs::Laws::step_within))]
fn unescaped_len(kind: Escape, text: &[u8]) -> usize
    ensures { result ≡ length (unescaped (is_escape kind) text.now) }
{
    let mut n = 0;
    // By index: a turn takes a run of plain bytes, and then one byte or two.
    let mut i = 0;
    while i < text.len() {
        let p = plain_end(text, i);
        n += p - i;
        if text.len() <= p {
            return n;
        }
        i = p + unescape_step(kind, text, p);
        n += 1;
    }
    n
}

// Puts a run into its place in a room. A call of the library's copy costs more than a byte, and an empty run, as between two marks, needs none.
fn put_run(run: &[u8], place: &mut [u8])
    requires { length run.now ≡ length place.old }
    ensures { place.new ≡ run.now }
{
    if !run.is_empty() {
        place.copy_from_slice(run);
    }
}

// Writes the text unescaped at the front of `out`, which has room for it, and answers how many bytes that were. Plain bytes are copied as they stand.
#[tactic(auto, using(crate::proofs::Runs::run_ahead, crate::proofs::Runs::run_within, crate::proofs::Laws::step_some, crate::proofs::Laws::step_within))]
fn put_unescaped(kind: Escape, text: &[u8], out: &mut [u8]) -> usize
    requires { length (unescaped (is_escape kind) text.now) ≤ length out.old }
    ensures count { result ≡ length (unescaped (is_escape kind) text.now) }
    ensures left { out.new ≡ unescaped (is_escape kind) text.now ++ drop (length (unescaped (is_escape kind) text.now)) out.old }
{
    let mut at = 0;
    // By index, as in `unescaped_len`.
    let mut from = 0;
    while from < text.len() {
        let p = plain_end(text, from);
        let end = at + (p - from);
        put_run(&text[from..p], &mut out[at..end]);
        if text.len() <= p {
            return end;
        }
        out[end] = text[p];
        from = p + unescape_step(kind, text, p);
        at = end + 1;
    }
    at
}

// The span of `buf`, unescaped, at the front of `out`: all of it or nothing. Doubling is looked for inside the span only.
// A room of the span's length is enough, so only in a smaller one the bytes are counted before they are written.
#[tactic(auto, using(records::proofs::Answers::span_accepted, crate::proofs::Laws::unescaped_length, std::proofs::lemmas::Bool::Decides::nat_tests), unfolding(records::specs::Records::text_answer, records::specs::Records::text_left, records::specs::Records::put))]
pub fn unescape(
    kind: Escape,
    buf: &[u8],
    start: usize,
    end: usize,
    out: &mut [u8],
) -> Result<usize, FillError>
    ensures answer { filled_answer result
        ≡ text_answer (span_refusal (length buf.now) start end) (unescaped (is_escape kind) (part buf.now start end)) (length out.old) }
    ensures left { out.new
        ≡ text_left (span_refusal (length buf.now) start end) (unescaped (is_escape kind) (part buf.now start end)) out.old }
{
    check_span(buf.len(), start, end)?;
    let text = &buf[start..end];
    if out.len() < text.len() {
        fits(unescaped_len(kind, text), out.len())?;
    }
    Ok(put_unescaped(kind, text, out))
}
