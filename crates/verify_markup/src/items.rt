// The diagnostics of one event.
ghost use Rattle.std.specs.Prelude.{◌≡◌, ◌-◌, ◌≤◌, length};
ghost use Rattle.records.specs.Answer.{longest};
ghost use Rattle.name_table.specs.Spelling.{spelled};
ghost use Rattle.name_table.specs.Search.{is_missing};
ghost use Rattle.comment_parser.specs.Item.{placed_of};
ghost use Rattle.comment_parser.specs.Bounds.{Within};
ghost use Rattle.verify_markup.specs.Items.{no_tag, token_diags, tilde_diags, link_diags, name_diags, label_diags, bib_escapes, tag_diags, item_diags};
ghost use Rattle.verify_markup.specs.Lent.{lent_search, lent_tags, lent_names};
ghost use Rattle.verify_markup.specs.Words.{Writes};

use crate::diagnostic::Diagnostic;
use crate::laying::{lay_if, lay_one, nonblank_at, nonblank_before};
use crate::part::{Link, Part};
use crate::texts::lay_written;
use crate::{Bibliography, Tables};
use comment_parser::CommentItem;
use look::byte_at;
use name_table::{Spelling, Table};
use records::Wrote;
use unescape::Escape;

// The search finds no entry of the name that the text spells.
fn lacks(table: Table<'_, '_>, how: Spelling, text: &[u8]) -> bool
    ensures { result ≡ is_missing (lent_search table.entry (spelled how text.now)) }
{
    table.search(how, text).is_none()
}

// A MathToken, looked up unescaped.
#[tactic(auto, unfolding(name_table::specs::Spelling::spelled, crate::specs::Items::token_diags))]
fn lay_token(part: Part<'_>, symbols: Table<'_, '_>, room: &mut [u32]) -> Wrote
    ensures { let p = part.entry in
        Writes (token_diags p.buf.now (lent_search symbols.entry) p.span.start p.span.end) room.old room.new result }
{
    let unknown = lacks(symbols, Spelling::Escaped(Escape::Math), part.bytes());
    lay_if(unknown, Diagnostic::UndefinedToken(part.span), room)
}

// The byte before a tilde, and the byte after.
fn lay_tilde(link: Link<'_>, room: &mut [u32]) -> Wrote
    ensures { Writes (tilde_diags link.entry.part.buf.now link.entry.tilde) room.old room.new result }
{
    let buf = link.part.buf;
    let diagnostic = Diagnostic::MarkupNeedsWhitespace(link.tilde);
    let before = nonblank_before(buf, link.tilde);
    let first = lay_if(before, diagnostic, room);
    let after = nonblank_at(buf, link.tilde + 1);
    first.then(lay_if(after, diagnostic, &mut room[first.words..]))
}

// A Url, and a Label but for its name.
fn lay_link(link: Link<'_>, room: &mut [u32]) -> Wrote
    ensures { let p = link.entry.part in
        Writes (link_diags p.buf.now link.entry.tilde p.span.start p.span.end) room.old room.new result }
{
    let tilde = lay_tilde(link, room);
    let text = lay_written(Escape::Label, link.part, &mut room[tilde.words..]);
    tilde.then(text)
}

// A label's name, looked up unescaped.
#[tactic(auto, unfolding(name_table::specs::Spelling::spelled, crate::specs::Items::name_diags))]
fn lay_name(link: Link<'_>, labels: Table<'_, '_>, room: &mut [u32]) -> Wrote
    ensures { let p = link.entry.part in
        Writes (name_diags p.buf.now (lent_search labels.entry) link.entry.tilde p.span.start p.span.end) room.old room.new result }
{
    let span = link.part.span;
    if span.start == span.end {
        return lay_one(Diagnostic::EmptyLabel(link.tilde), room);
    }
    let unknown = lacks(labels, Spelling::Escaped(Escape::Label), link.part.bytes());
    lay_if(unknown, Diagnostic::UnknownLabel(span), room)
}

fn lay_label(link: Link<'_>, labels: Table<'_, '_>, room: &mut [u32]) -> Wrote
    ensures { let p = link.entry.part in
        Writes (label_diags p.buf.now (lent_search labels.entry) link.entry.tilde p.span.start p.span.end) room.old room.new result }
{
    let first = lay_link(link, room);
    let name = lay_name(link, labels, &mut room[first.words..]);
    first.then(name)
}

// 7 at each backtick or `~` of a tag.
fn lay_bib_escapes(part: Part<'_>, room: &mut [u32]) -> Wrote
    ensures { let p = part.entry in
        Writes (bib_escapes p.buf.now p.span.start p.span.end (p.span.end - p.span.start) p.span.start) room.old room.new result }
{
    let buf = part.buf;
    let span = part.span;
    let mut wrote = Wrote::NOTHING;
    for i in span.start..span.end {
        let escape = byte_at(buf, i, b'`') | byte_at(buf, i, b'~');
        let one = lay_if(
            escape,
            Diagnostic::BibEscape(i, span),
            &mut room[wrote.words..],
        );
        wrote = wrote.then(one);
    }
    wrote
}

// Tags are looked up, as they stand, and this one is not found.
#[tactic(auto, unfolding(name_table::specs::Spelling::spelled))]
fn no_tag(bibliography: Bibliography<'_, '_>, tag: &[u8]) -> bool
    ensures { result ≡ no_tag (lent_tags bibliography.entry) tag.now }
{
    match bibliography {
        Bibliography::Lent(table) => lacks(table, Spelling::Plain, tag),
        Bibliography::NotLent => true,
        Bibliography::NoTagLookup => false,
    }
}

fn lay_tag(part: Part<'_>, bibliography: Bibliography<'_, '_>, room: &mut [u32]) -> Wrote
    ensures { let p = part.entry in
        Writes (tag_diags p.buf.now (lent_tags bibliography.entry) p.span.start p.span.end) room.old room.new result }
{
    let escapes = lay_bib_escapes(part, room);
    let unknown = no_tag(bibliography, part.bytes());
    let tag = lay_if(
        unknown,
        Diagnostic::UndefinedBibTag(part.span),
        &mut room[escapes.words..],
    );
    escapes.then(tag)
}

// What an event gives; `html` says whether it stands in HTML.
pub(crate) fn lay_item(
    buf: &[u8],
    html: bool,
    item: CommentItem,
    tables: Tables<'_, '_, '_, '_, '_, '_>,
    room: &mut [u32],
) -> Wrote
    requires { (length buf.now ≤ longest) × Within 0 (length buf.now) (placed_of item) }
    ensures { Writes (item_diags buf.now (lent_names tables.entry) html item) room.old room.new result }
{
    match item {
        CommentItem::Text(span) => lay_written(Escape::Text { html }, Part { buf, span }, room),
        CommentItem::StartMathMode(i) => {
            let after = nonblank_at(buf, i + 1);
            lay_if(after, Diagnostic::MarkupNeedsWhitespace(i), room)
        }
        CommentItem::EndMathMode(i) => {
            let before = nonblank_before(buf, i);
            lay_if(before, Diagnostic::MarkupNeedsWhitespace(i), room)
        }
        CommentItem::MathToken(span) => lay_token(Part { buf, span }, tables.symbols, room),
        CommentItem::Label(tilde, span) => {
            let part = Part { buf, span };
            lay_label(Link { tilde, part }, tables.labels, room)
        }
        CommentItem::Url(tilde, span) => {
            let part = Part { buf, span };
            lay_link(Link { tilde, part }, room)
        }
        CommentItem::BibTag(span) => lay_tag(Part { buf, span }, tables.bibliography, room),
        _ => Wrote::NOTHING,
    }
}
