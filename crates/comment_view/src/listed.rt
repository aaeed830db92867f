// A whole comment read through a view: its event records, in an area that the caller lends.
ghost use Rattle.std.specs.Prelude.{◌≡◌, [], ◌∷◌, length};
ghost use Rattle.std.proofs.Math.Option.{none};
ghost use Rattle.byte_rules.specs.Reading.{named};
ghost use Rattle.records.specs.Answer.{longest, filled_answer, span_refusal};
ghost use Rattle.records.specs.Records.{laid, wrote_of};
ghost use Rattle.comment_parser.specs.Item.{placed_of};
ghost use Rattle.comment_parser.specs.Bounds.{Within};
ghost use Rattle.events.specs.Events.{event_width, placed_words, placed_records, events_answer, events_left};

use crate::View;
use byte_rules::Reading;
use comment_parser::CommentItem;
use events::EVENT_WIDTH;
use lines::fill_lines;
use records::{FillError, Wrote, check_span, fits, lay};

// Lays an item's record, but for its line, at the front of `room`, if it fits. The crate `events` has this too, but not for others: it asks for
// numbers that fit a word, and a public function asks nothing.
fn lay_event(room: &mut [u32], item: CommentItem) -> Wrote
    requires { Within 0 longest (placed_of item) }
    ensures wrote { result ≡ wrote_of event_width (placed_words (placed_of item) ∷ []) (length room.old) }
    ensures left { room.new ≡ laid event_width (placed_words (placed_of item) ∷ []) room.old }
{
    let p = item.placed();
    lay(
        room,
        &[p.kind, p.place as u32, p.start as u32, p.end as u32, 0],
    )
}

// Lays the events of a span that is not refused, but for their lines, and counts them.
fn lay_by_view(reading: Reading, buf: &[u8], start: usize, end: usize, out: &mut [u32]) -> usize
    requires { none ≡ span_refusal (length buf.now) start end }
    ensures { (result ≡ length (placed_records (named reading) buf.now start end))
        × (out.new ≡ laid event_width (placed_records (named reading) buf.now start end) out.old) }
{
    let mut view = View::open(reading, buf, start, end).view;
    let mut done = Wrote::NOTHING;
    while let Ok(Some(item)) = view.next_item() {
        let wrote = lay_event(&mut out[done.words..], item);
        done = done.then(wrote);
    }
    done.count
}

// The event records of a span, in the reading that is named, in `out`: the first that fit, and the full count. A buffer that is too long
// (1) and a span that is none of it (2) are refused, and nothing is written.
pub fn events_by_view(
    reading: Reading,
    buf: &[u8],
    start: usize,
    end: usize,
    out: &mut [u32],
) -> Result<usize, FillError>
    ensures answer { filled_answer result ≡ events_answer (named reading) buf.now start end (length out.old) }
    ensures left { out.new ≡ events_left (named reading) buf.now start end out.old }
{
    check_span(buf.len(), start, end)?;
    let n = lay_by_view(reading, buf, start, end, out);
    fill_lines(buf, n, out);
    fits(n, out.len() / EVENT_WIDTH)
}
