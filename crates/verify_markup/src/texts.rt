// The diagnostics of a text's or a label's span: lone escapes, and an HTML mark.
ghost use Rattle.std.specs.Prelude.{◌≡◌, ◌-◌, ◌≤◌, length};
ghost use Rattle.verify_markup.specs.Texts.{is_reported, folded_at, html_len, html_from, lone_at, lone_from, html_in, written};
ghost use Rattle.verify_markup.specs.Words.{Writes};

use crate::diagnostic::Diagnostic;
use crate::laying::{lay_if, lay_option};
use crate::part::Part;
use basics::Span;
use byte_rules::names::upper;
use records::Wrote;
use scans::plain::plain_end;
use unescape::{Escape, is_escape, unescape_step};

// An escape byte that is reported: each but a Text's `[`.
#[tactic(auto, unfolding(crate::specs::Texts::is_reported))]
fn is_reported(kind: Escape, c: u8) -> bool
    ensures { result ≡ is_reported kind c }
{
    match kind {
        Escape::Text { html: _ } => is_escape(kind, c) & (c != b'['),
        Escape::Label | Escape::Math => is_escape(kind, c),
    }
}

#[tactic(auto, unfolding(crate::specs::Texts::lone_at, look::specs::Look::holds_at))]
fn lone_at(kind: Escape, buf: &[u8], i: usize) -> bool
    ensures { result ≡ lone_at buf.now kind i }
{
    buf.get(i).is_some_and(|c| is_reported(kind, *c)) && unescape_step(kind, buf, i) == 1
}

// 2 at each lone escape byte of the span. Doubling is looked up in the whole buffer. No escape byte is plain, so plain bytes are stepped over,
// many at once, which no iterator over the bytes does.
fn lay_lone(kind: Escape, part: Part<'_>, room: &mut [u32]) -> Wrote
    ensures { let p = part.entry in
        Writes (lone_from p.buf.now kind p.span.end (p.span.end - p.span.start) p.span.start) room.old room.new result }
{
    let buf = part.buf;
    let text = part.until_end();
    let mut i = plain_end(text, part.span.start);
    let mut wrote = Wrote::NOTHING;
    while i < part.span.end {
        let lone = lone_at(kind, buf, i);
        let one = lay_if(
            lone,
            Diagnostic::UninterpretedEscape(i),
            &mut room[wrote.words..],
        );
        wrote = wrote.then(one);
        let on = i + unescape_step(kind, buf, i);
        i = plain_end(text, on);
    }
    wrote
}

// The word, in capitals, stands in any case at i, which is a place that a scan gave.
fn folded_at(text: &[u8], i: usize, word: &[u8]) -> bool
    requires { i ≤ length text.now }
    ensures { result ≡ folded_at text.now i word.now }
{
    let rest = &text[i..];
    word.len() <= rest.len() && rest.iter().zip(word).all(|(c, w)| upper(*c) == *w)
}

// How long the HTML mark at i is, in any case, if there is one.
#[tactic(auto, unfolding(crate::specs::Texts::html_len))]
fn html_len(text: &[u8], i: usize) -> Option<usize>
    requires { i ≤ length text.now }
    ensures { result ≡ html_len text.now i }
{
    if folded_at(text, i, b"<HTML>") {
        return Some(6);
    }
    if folded_at(text, i, b"</HTML>") {
        return Some(7);
    }
    None
}

// The first HTML mark from a place on. It begins with a `<`, so plain bytes are stepped over, many at once.
fn first_html(text: &[u8], from: usize) -> Option<Span>
    ensures { result ≡ html_from text.now (length text.now - from) from }
{
    let mut i = plain_end(text, from);
    while i < text.len() {
        if let Some(len) = html_len(text, i) {
            return Some(Span {
                start: i,
                end: i + len,
            });
        }
        i = plain_end(text, i + 1);
    }
    None
}

// 3 for the first HTML mark within the span.
fn lay_html(part: Part<'_>, room: &mut [u32]) -> Wrote
    ensures { let p = part.entry in Writes (html_in p.buf.now p.span.start p.span.end) room.old room.new result }
{
    let mark = first_html(part.until_end(), part.span.start);
    lay_option(mark.map(Diagnostic::UninterpretedHtml), room)
}

// What the span of a text or a label gives.
pub(crate) fn lay_written(kind: Escape, part: Part<'_>, room: &mut [u32]) -> Wrote
    ensures { let p = part.entry in Writes (written p.buf.now kind p.span.start p.span.end) room.old room.new result }
{
    let lone = lay_lone(kind, part, room);
    let html = lay_html(part, &mut room[lone.words..]);
    lone.then(html)
}
