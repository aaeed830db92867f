// The parser in two more forms: a state that the caller lends, and a view that holds the buffer together with the state.
#![tactic(auto)]

mod listed;
mod unescaping;

ghost use Rattle.std.specs.Prelude.{◌≡◌};
ghost use Rattle.byte_rules.specs.Reading.{named};
ghost use Rattle.comment_parser.specs.Next.{next_of};
ghost use Rattle.comment_view.specs.View.{gives, opened_answer, open_answer, view_of};

use byte_rules::Reading;
pub use comment_parser::Form;
use comment_parser::{CommentItem, ParserState};
pub use listed::events_by_view;
use records::{Refusal, check_span};

// The next event, or none at the end. The state in the caller's record moves on; after a refusal (1 or 3) it is as it was.
pub fn advance(st: &mut ParserState, buf: &[u8]) -> Result<Option<CommentItem>, Refusal>
    ensures { gives result st.new ≡ next_of (named st.old.reading) buf.now st.old }
{
    let next = st.next(buf)?;
    *st = next.state;
    Ok(next.item)
}

// A buffer, and where a parser of it stands.
#[derive(Clone, Copy)]
pub struct View<'a> {
    pub buf: &'a [u8],
    pub state: ParserState,
}

// A view, beside the answer to the span that it was asked for.
#[derive(Clone, Copy)]
pub struct Opened<'a> {
    pub answer: Result<(), Refusal>,
    pub view: View<'a>,
}

impl<'a> View<'a> {
    // A view of a span, in the reading that is named. A buffer that is too long (1) and a span that is none of it (2) are refused; the view
    // is made all the same, gives no event and stays as it is (`refused_view` in proofs/Answers.antt).
    pub fn open(reading: Reading, buf: &'a [u8], start: usize, end: usize) -> Opened<'a>
        ensures { (opened_answer result.answer ≡ open_answer buf.now start end) × (result.view ≡ view_of reading buf.entry start end) }
    {
        let answer = check_span(buf.len(), start, end);
        let state = ParserState::new(reading, start, end);
        Opened {
            answer,
            view: View { buf, state },
        }
    }

    // The next event, or none at the end. The view moves on; after a refusal (1 or 3) it is as it was.
    pub fn next_item(&mut self) -> Result<Option<CommentItem>, Refusal>
        ensures { (gives result self.new.state ≡ next_of (named self.old.state.reading) self.old.buf.now self.old.state)
            × (self.new.buf ≡ self.old.buf) }
    {
        advance(&mut self.state, self.buf)
    }
}
