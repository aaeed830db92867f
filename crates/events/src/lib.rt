// The events of a span as records in an area that the caller lends.
#![tactic(auto)]

ghost use Rattle.std.specs.Prelude.{◌≡◌, [], ◌∷◌, length};
ghost use Rattle.byte_rules.specs.Reading.{named};
ghost use Rattle.records.specs.Answer.{longest, filled_answer};
ghost use Rattle.records.specs.Records.{laid, wrote_of};
ghost use Rattle.comment_parser.specs.Item.{placed_of};
ghost use Rattle.comment_parser.specs.Bounds.{Within};
ghost use Rattle.events.specs.Events.{event_width, placed_words, events_answer, events_left};

use byte_rules::Reading;
use comment_parser::{CommentItem, Items};
use lines::fill_lines;
use records::{FillError, Wrote, fits, lay};

// How many words an event record has: kind, place, start, end, line.
pub const EVENT_WIDTH: usize = 5;

// Lays an item's record, but for its line, at the front of `room`, if it fits.
fn lay_event(room: &mut [u32], item: CommentItem) -> Wrote
    requires { Within 0 longest (placed_of item) }
    ensures wrote { result ≡ wrote_of event_width (placed_words (placed_of item) ∷ []) (length room.old) }
    ensures left { room.new ≡ laid event_width (placed_words (placed_of item) ∷ []) room.old }
{
    let p = item.placed();
    lay(
        room,
        &[p.kind, p.place as u32, p.start as u32, p.end as u32, 0],
    )
}

// The event records of the span from `start` to `end` of `buf`, in the reading that is named, in `out`: the first that fit, and the full
// count. A buffer that is too long (1) and a span that is none of it (2) are refused, and nothing is written. As in every call that reads a
// buffer, its span is two numbers beside it: any two are answered, so a type for them would say nothing of them.
pub fn events(
    reading: Reading,
    buf: &[u8],
    start: usize,
    end: usize,
    out: &mut [u32],
) -> Result<usize, FillError>
    ensures answer { filled_answer result ≡ events_answer (named reading) buf.now start end (length out.old) }
    ensures left { out.new ≡ events_left (named reading) buf.now start end out.old }
{
    let mut done = Wrote::NOTHING;
    for item in Items::new(reading, buf, start, end)? {
        let wrote = lay_event(&mut out[done.words..], item);
        done = done.then(wrote);
    }
    fill_lines(buf, done.count, out);
    fits(done.count, out.len() / EVENT_WIDTH)
}
