// The ten words of a parser's state, which the header's reading completes.
ghost use Rattle.std.specs.Prelude.{◌≤◌, length};

use crate::header::{BadCase, word};
use basics::Span;
use byte_rules::Reading;
use comment_parser::{CommentItem, ParserState, Placed};

// The event of four words in record form, none of zeros.
fn event_of(kind: u32, place: usize, span: Span) -> Result<Option<CommentItem>, BadCase> {
    let is_spread = place == span.start;
    let is_point = is_spread && span.start == span.end;
    let item = match kind {
        0 if is_point && place == 0 => return Ok(None),
        1 if is_spread => CommentItem::Text(span),
        2 if is_point => CommentItem::LineBreak(place),
        3 if is_point => CommentItem::StartMathMode(place),
        4 if is_point => CommentItem::EndMathMode(place),
        5 if is_spread => CommentItem::MathToken(span),
        6 => CommentItem::Label(place, span),
        7 => CommentItem::Url(place, span),
        8 if is_point => CommentItem::StartHtml(place),
        9 if is_point => CommentItem::EndHtml(place),
        10 if is_point => CommentItem::StartSubscript(place),
        11 if is_point => CommentItem::EndSubscript(place),
        12 if is_point => CommentItem::StartItalic(place),
        13 if is_point => CommentItem::EndItalic(place),
        14 if is_spread => CommentItem::BibTag(span),
        _ => return Err(BadCase),
    };
    Ok(Some(item))
}

// The record of what waits, or zeros.
pub fn record_of(waiting: Option<CommentItem>) -> Placed {
    match waiting {
        Some(item) => item.placed(),
        None => Placed {
            kind: 0,
            place: 0,
            start: 0,
            end: 0,
        },
    }
}

// The largest word stands for no italic end.
fn italic_of(n: u32) -> usize {
    if n == u32::MAX {
        return ParserState::NO_ITALIC;
    }
    n as usize
}

pub fn italic_word(n: usize) -> u64 {
    if n == ParserState::NO_ITALIC {
        return u64::from(u32::MAX);
    }
    n as u64
}

// A mode: 1 if it is on, 0 if not.
fn mode_of(n: u32) -> Result<bool, BadCase> {
    match n {
        0 => Ok(false),
        1 => Ok(true),
        _ => Err(BadCase),
    }
}

// The state of the ten words at the front, in a reading.
pub fn read_state(reading: Reading, s: &[u8]) -> Result<ParserState, BadCase>
    requires { 40 ≤ length s.now }
{
    let span = Span {
        start: word(s, 24) as usize,
        end: word(s, 28) as usize,
    };
    Ok(ParserState {
        reading,
        end: word(s, 0) as usize,
        pos: word(s, 4) as usize,
        math: mode_of(word(s, 8))?,
        html: mode_of(word(s, 12))?,
        waiting: event_of(word(s, 16), word(s, 20) as usize, span)?,
        end_italic: italic_of(word(s, 32)),
        end_subscript: word(s, 36) as usize,
    })
}
