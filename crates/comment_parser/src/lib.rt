// The parser of comment markup: its item type, its state, and the call that gives the next event. Positions are places in the buffer.
#![tactic(auto)]

mod items;
mod own;
mod pass;
mod rules;

ghost use Rattle.std.specs.Prelude.{◌≡◌, take};
ghost use Rattle.records.specs.Answer.{checked_answer, state_refusal};
ghost use Rattle.scans.specs.Notes.{Holds, IsNoted};
ghost use Rattle.byte_rules.specs.Reading.{named};
ghost use Rattle.comment_parser.specs.Item.{point, spread, placed_of};
ghost use Rattle.comment_parser.specs.State.{moved, in_math, in_html, italic_to, subscript_to, fresh};
ghost use Rattle.comment_parser.specs.Next.{step_answer, give, answered, next_of};
ghost use Rattle.comment_parser.specs.Notes.{NextBy};

use basics::Span;
use byte_rules::Reading;
pub use items::Items;
pub use own::Form;
use pass::read_on;
use records::{Refusal, check_state};
use scans::{Note, Noted};

// An event of a comment: a text, a token or a tag by its span, a label or url by its tilde's place and its span, any other by its place.
#[derive(Clone, Copy)]
pub enum CommentItem {
    Text(Span),
    LineBreak(usize),
    StartMathMode(usize),
    EndMathMode(usize),
    MathToken(Span),
    Label(usize, Span),
    Url(usize, Span),
    StartHtml(usize),
    EndHtml(usize),
    StartSubscript(usize),
    EndSubscript(usize),
    StartItalic(usize),
    EndItalic(usize),
    BibTag(Span),
}

// An item as its record: kind, place, start, end.
#[derive(Clone, Copy)]
pub struct Placed {
    pub kind: u32,
    pub place: usize,
    pub start: usize,
    pub end: usize,
}

// The kinds' numbers, which belong to the type of the items.
impl CommentItem {
    pub const TEXT: u32 = 1;

    pub const LINE_BREAK: u32 = 2;

    pub const START_MATH_MODE: u32 = 3;

    pub const END_MATH_MODE: u32 = 4;

    pub const MATH_TOKEN: u32 = 5;

    pub const LABEL: u32 = 6;

    pub const URL: u32 = 7;

    pub const START_HTML: u32 = 8;

    pub const END_HTML: u32 = 9;

    pub const START_SUBSCRIPT: u32 = 10;

    pub const END_SUBSCRIPT: u32 = 11;

    pub const START_ITALIC: u32 = 12;

    pub const END_ITALIC: u32 = 13;

    pub const BIB_TAG: u32 = 14;

    // A span alone has its start as place; a place alone has start and end equal to it. A method, whose name says what it gives.
    pub fn placed(self) -> Placed
        ensures { result ≡ placed_of self }
    {
        match self {
            CommentItem::Text(s) => spread(CommentItem::TEXT, s.start, s),
            CommentItem::LineBreak(a) => point(CommentItem::LINE_BREAK, a),
            CommentItem::StartMathMode(a) => point(CommentItem::START_MATH_MODE, a),
            CommentItem::EndMathMode(a) => point(CommentItem::END_MATH_MODE, a),
            CommentItem::MathToken(s) => spread(CommentItem::MATH_TOKEN, s.start, s),
            CommentItem::Label(a, s) => spread(CommentItem::LABEL, a, s),
            CommentItem::Url(a, s) => spread(CommentItem::URL, a, s),
            CommentItem::StartHtml(a) => point(CommentItem::START_HTML, a),
            CommentItem::EndHtml(a) => point(CommentItem::END_HTML, a),
            CommentItem::StartSubscript(a) => point(CommentItem::START_SUBSCRIPT, a),
            CommentItem::EndSubscript(a) => point(CommentItem::END_SUBSCRIPT, a),
            CommentItem::StartItalic(a) => point(CommentItem::START_ITALIC, a),
            CommentItem::EndItalic(a) => point(CommentItem::END_ITALIC, a),
            CommentItem::BibTag(s) => spread(CommentItem::BIB_TAG, s.start, s),
        }
    }
}

// A place alone.
fn point(kind: u32, at: usize) -> Placed
    ensures { result ≡ point kind at }
{
    Placed {
        kind,
        place: at,
        start: at,
        end: at,
    }
}

// A span, and its place.
fn spread(kind: u32, at: usize, s: Span) -> Placed
    ensures { result ≡ spread kind at s }
{
    Placed {
        kind,
        place: at,
        start: s.start,
        end: s.end,
    }
}

// Where a parser stands: the end it reads to, its position, its modes, the reading that it goes by, the event that waits to be given, if there is one, and
// the noted ends of an italic and a subscript.
#[derive(Clone, Copy)]
pub struct ParserState {
    pub end: usize,
    pub pos: usize,
    pub math: bool,
    pub html: bool,
    pub reading: Reading,
    pub waiting: Option<CommentItem>,
    pub end_italic: usize,
    pub end_subscript: usize,
}

// What a rule says: step one, step two, or end the run at a place, with the state after it.
#[derive(Clone, Copy)]
pub enum Act {
    One,
    Two,
    Ends(usize, ParserState),
}

// The state after a run, and the run's end.
#[derive(Clone, Copy)]
pub struct Run {
    pub after: ParserState,
    pub end: usize,
}

// What `next` gives: the state after it first, which so lies at one place in each, and the event, or none at the end.
#[derive(Clone, Copy)]
pub struct Next {
    pub state: ParserState,
    pub item: Option<CommentItem>,
}

impl ParserState {
    // No italic end is noted: the largest number, which is no place of a buffer. Nothing asks whether an end is noted, places are
    // only compared with it, so a number will do.
    pub const NO_ITALIC: usize = usize::MAX;

    // The state of a parser that has yet to read the places from start to end, in the reading that is named.
    pub fn new(reading: Reading, start: usize, end: usize) -> Self
        ensures { result ≡ fresh reading start end }
    {
        Self {
            reading,
            end,
            pos: start,
            math: false,
            html: false,
            waiting: None,
            end_italic: ParserState::NO_ITALIC,
            end_subscript: 0,
        }
    }

    // At another place, with what waits.
    pub(crate) fn moved(self, pos: usize, waiting: Option<CommentItem>) -> Self
        ensures { result ≡ moved self pos waiting }
    {
        Self {
            pos,
            waiting,
            ..self
        }
    }

    pub(crate) fn in_math(mut self, on: bool) -> Self
        ensures { result ≡ in_math self on }
    {
        self.math = on;
        self
    }

    pub(crate) fn in_html(mut self, on: bool) -> Self
        ensures { result ≡ in_html self on }
    {
        self.html = on;
        self
    }

    pub(crate) fn italic_to(mut self, p: usize) -> Self
        ensures { result ≡ italic_to self p }
    {
        self.end_italic = p;
        self
    }

    pub(crate) fn subscript_to(mut self, p: usize) -> Self
        ensures { result ≡ subscript_to self p }
    {
        self.end_subscript = p;
        self
    }

    // 1 if a buffer of `len` bytes is too long, 3 if the state is none of it.
    fn check(self, len: usize) -> Result<(), Refusal>
        ensures { checked_answer result ≡ state_refusal len self.pos self.end }
    {
        check_state(len, self.pos, self.end)
    }

    // The next event, or the end, with a note on tags that an earlier call over the same text gave, or `Note::nothing()`: if it holds, the answer is
    // that of `next`, and the note given back holds. What `next` refuses is refused whatever the note is; the state and the note are then as given.
    pub fn next_noted(self, buf: &[u8], note: Note) -> Result<Noted<Next>, Refusal>
        ensures { NextBy buf.now self note result }
    {
        self.check(buf.len())?;
        Ok(self.next_within(buf, note))
    }

    // The same of a state that is not refused, unchecked: a loop that checks the state it starts from need not check those on the way.
    #[tactic(auto, using(std::proofs::lemmas::List::take_min), unfolding(crate::specs::Next::answered))]
    pub fn next_within(self, buf: &[u8], note: Note) -> Noted<Next>
        ensures { Holds (take self.end buf.now) note → IsNoted (take self.end buf.now) (answered (named self.reading) buf.now self) result }
    {
        match self.waiting {
            Some(_) => Noted {
                value: give(self),
                note,
            },
            None => {
                let cut = self.end.min(buf.len());
                read_on(&buf[..cut], self, note)
            }
        }
    }

    // The next event, or the end. Refused are a buffer that is too long (1), and a state whose position is past its end or
    // whose end is past the buffer's (3); the state is then as given.
    pub fn next(self, buf: &[u8]) -> Result<Next, Refusal>
        ensures { step_answer self result ≡ next_of (named self.reading) buf.now self }
    {
        let noted = self.next_noted(buf, Note::nothing())?;
        Ok(noted.value)
    }
}

// Gives what waits, or ends: where nothing waits the state stays as it is.
#[tactic(auto, unfolding(crate::specs::Next::give))]
fn give(st: ParserState) -> Next
    ensures { result ≡ give st }
{
    match st.waiting {
        Some(item) => Next {
            state: st.moved(st.pos, None),
            item: Some(item),
        },
        None => Next {
            state: st,
            item: None,
        },
    }
}
