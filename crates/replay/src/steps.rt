// Ops S and V: the parser, from a given state.
use crate::header::{BadCase, Case};
use crate::output::put_record;
use crate::states::{italic_word, read_state, record_of};
use crate::texts::put_text;
use crate::walks::{Steps, put_items, walk};
use comment_parser::{CommentItem, Form, ParserState};
use programs::Writer;
use records::Refusal;

impl Steps for ParserState {
    type Item = CommentItem;

    fn step(self, buf: &[u8]) -> Result<(Self, Option<CommentItem>), Refusal> {
        let next = self.next(buf)?;
        Ok((next.state, next.item))
    }

    fn put(item: CommentItem, output: &mut Writer<'_>) {
        let p = item.placed();
        put_record(
            output,
            u64::from(p.kind),
            &[p.place as u64, p.start as u64, p.end as u64],
        );
    }
}

// The line of a state.
fn put_state(output: &mut Writer<'_>, state: ParserState) {
    let p = record_of(state.waiting);
    output.line(
        b"state",
        &[
            state.end as u64,
            state.pos as u64,
            u64::from(state.math),
            u64::from(state.html),
            u64::from(p.kind),
            p.place as u64,
            p.start as u64,
            p.end as u64,
            italic_word(state.end_italic),
            state.end_subscript as u64,
        ],
    );
}

// The state at the front of the payload, in the reading that the header names, and the buffer behind it.
fn state_of<'a>(case: Case<'a>) -> Result<(ParserState, &'a [u8]), BadCase> {
    if case.payload.len() < 40 {
        return Err(BadCase);
    }
    let state = read_state(case.reading()?, case.payload)?;
    Ok((state, &case.payload[40..]))
}

// The steps are made twice: once to count the events, for the head line, and once to write them.
pub fn stepping(case: Case<'_>, output: &mut Writer<'_>) -> Result<(), BadCase> {
    let (from, buf) = state_of(case)?;
    let walked = walk(from, buf, case.header.c);
    let (answer, is_end) = match walked.end {
        Ok(is_end) => (0, is_end),
        Err(why) => (u64::from(why), false),
    };
    output.line(b"S", &[answer, u64::from(walked.count), u64::from(is_end)]);
    put_items(output, from, buf, walked.count);
    put_state(output, walked.state);
    Ok(())
}

// A span of the buffer unescaped into the room, as the flag says: a text by the state's mode, a label or math.
pub fn own_unescaping(
    case: Case<'_>,
    room: &mut [u8],
    output: &mut Writer<'_>,
) -> Result<(), BadCase> {
    let form = match case.header.flag {
        0 => Form::Text,
        2 => Form::Label,
        3 => Form::Math,
        _ => return Err(BadCase),
    };
    let (state, buf) = state_of(case)?;
    let (start, end) = case.span();
    let filled = state.unescape(form, buf, start, end, room);
    put_text(output, b"V", filled, room);
    Ok(())
}
