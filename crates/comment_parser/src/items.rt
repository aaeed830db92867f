// The events of a span, one after the other. What a search for a tag in vain has told is handed on from step to step.
ghost use Rattle.std.specs.Prelude.{take};
ghost use Rattle.scans.specs.Notes.{Holds};
ghost use Rattle.comment_parser.specs.State.{Accepted};

use crate::{CommentItem, ParserState};
use byte_rules::Reading;
use records::{Refusal, check_span};
use scans::Note;

// A buffer, where a parser of it stands that is not refused, and a note that holds there.
#[derive(Clone, Copy)]
pub struct Items<'a> {
    buf: &'a [u8],
    state: ParserState,
    note: Note,
    ghost accepted: { Accepted buf.now state },
    ghost noted: { Holds (take state.end buf.now) note },
}

impl<'a> Items<'a> {
    ghost use Rattle.byte_rules.specs.Reading.{named};
    ghost use Rattle.comment_parser.specs.Items.{Begins};

    // Those of the span from `start` to `end`, in the reading that is named. A buffer that is too long (1) and a span that is none of it (2)
    // are refused.
    pub fn new(reading: Reading, buf: &'a [u8], start: usize, end: usize) -> Result<Self, Refusal>
        ensures { Begins (named reading) buf.entry.now start end result }
    {
        check_span(buf.len(), start, end)?;
        Ok(Items {
            buf,
            state: ParserState::new(reading, start, end),
            note: Note::nothing(),
        })
    }
}

impl<'a> Iterator for Items<'a> {
    ghost use Rattle.std.specs.Iterator.{YieldsFirst, item_count};
    ghost use Rattle.comment_parser.specs.Items.{items_left};

    type Item = CommentItem;

    ghost next_gives = { YieldsFirst items_left };

    ghost remaining = { item_count items_left };

    fn next(&mut self) -> Option<CommentItem> {
        let noted = self.state.next_within(self.buf, self.note);
        let item = noted.value.item?;
        *self = Items {
            buf: self.buf,
            state: noted.value.state,
            note: noted.note,
        };
        Some(item)
    }
}
