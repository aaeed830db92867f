// The links of a comment: each label that a lent table has, with its entry there.
#![tactic(auto)]

ghost use Rattle.std.specs.Prelude.{◌≡◌, ◌≤◌, length};
ghost use Rattle.std.proofs.Math.Option.{none};
ghost use Rattle.byte_rules.specs.Reading.{named};
ghost use Rattle.records.specs.Answer.{longest, filled_answer};
ghost use Rattle.records.specs.Records.{laid, wrote_of};
ghost use Rattle.name_table.specs.Table.{table_refusal};
ghost use Rattle.comment_parser.specs.Item.{placed_of};
ghost use Rattle.comment_parser.specs.Bounds.{Within};
ghost use Rattle.links.specs.Links.{link_width, label_links, item_links, links_answer, links_left};

use basics::Span;
use byte_rules::Reading;
use comment_parser::{CommentItem, Items};
use name_table::{Spelling, Table};
use records::{FillError, Wrote, fits, lay};
use unescape::Escape;

// How many words a link's record has: start, end, entry.
pub const LINK_WIDTH: usize = 3;

// The link of a label, looked up unescaped, in a table that was checked.
#[tactic(auto, using(crate::proofs::Laws::label_found, crate::proofs::Laws::label_missing), unfolding(records::specs::Records::laid, records::specs::Records::used))]
fn lay_label(buf: &[u8], label: Span, labels: Table<'_, '_>, room: &mut [u32]) -> Wrote
    requires ordered { label.start ≤ label.end }
    requires inside { label.end ≤ length buf.now }
    requires short { length buf.now ≤ longest }
    requires good { none ≡ table_refusal 1 labels.bytes.now labels.ends.now }
    ensures wrote { result
        ≡ wrote_of link_width (label_links buf.now labels.entry.bytes.now labels.entry.ends.now label.start label.end) (length room.old) }
    ensures left { room.new
        ≡ laid link_width (label_links buf.now labels.entry.bytes.now labels.entry.ends.now label.start label.end) room.old }
{
    let how = Spelling::Escaped(Escape::Label);
    let Some(entry) = labels.search(how, &buf[label.start..label.end]) else {
        return Wrote::NOTHING;
    };
    // No name but the first is empty, so that an entry's end, which is a word, is not below its number.
    let end = labels.ends.get(entry).copied().unwrap_or(0);
    prove!(entry <= end as usize);
    lay(room, &[label.start as u32, label.end as u32, entry as u32])
}

// What an event gives: a Label its link, any other none.
#[tactic(auto, using(crate::proofs::Laws::silent_wrote, crate::proofs::Laws::silent_left))]
fn lay_item(buf: &[u8], item: CommentItem, labels: Table<'_, '_>, room: &mut [u32]) -> Wrote
    requires inside { Within 0 (length buf.now) (placed_of item) }
    requires short { length buf.now ≤ longest }
    requires good { none ≡ table_refusal 1 labels.bytes.now labels.ends.now }
    ensures wrote { result ≡ wrote_of link_width (item_links buf.now labels.entry.bytes.now labels.entry.ends.now item) (length room.old) }
    ensures left { room.new ≡ laid link_width (item_links buf.now labels.entry.bytes.now labels.entry.ends.now item) room.old }
{
    match item {
        CommentItem::Label(_, label) => lay_label(buf, label, labels, room),
        _ => Wrote::NOTHING,
    }
}

// The links of the span from `start` to `end` of `buf`, in the reading that is named, to the labels of a table, in `out`: the first that
// fit, and the full count. A buffer that is too long (1), a span that is none of it (2) and a malformed table (4, as table 1, since it is
// lent alone) are refused, and nothing is written.
pub fn links(
    reading: Reading,
    buf: &[u8],
    start: usize,
    end: usize,
    labels: Table<'_, '_>,
    out: &mut [u32],
) -> Result<usize, FillError>
    ensures answer { filled_answer result
        ≡ links_answer (named reading) buf.now labels.entry.bytes.now labels.entry.ends.now start end (length out.old) }
    ensures left { out.new
        ≡ links_left (named reading) buf.now labels.entry.bytes.now labels.entry.ends.now start end out.old }
{
    let items = Items::new(reading, buf, start, end)?;
    labels.check(1)?;
    let mut done = Wrote::NOTHING;
    for item in items {
        let wrote = lay_item(buf, item, labels, &mut out[done.words..]);
        done = done.then(wrote);
    }
    fits(done.count, out.len() / LINK_WIDTH)
}
