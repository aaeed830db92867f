// Op U: a span unescaped.
use crate::header::{BadCase, Case};
use crate::texts::put_text;
use programs::Writer;
use unescape::{Escape, unescape};

// The span unescaped into the room, as the flag says: a text outside HTML or in it, a label or math.
pub fn unescaping(case: Case<'_>, room: &mut [u8], output: &mut Writer<'_>) -> Result<(), BadCase> {
    let kind = match case.header.flag {
        0 => Escape::Text { html: false },
        1 => Escape::Text { html: true },
        2 => Escape::Label,
        3 => Escape::Math,
        _ => return Err(BadCase),
    };
    let (start, end) = case.span();
    let filled = unescape(kind, case.payload, start, end, room);
    put_text(output, b"U", filled, room);
    Ok(())
}
