// Text ops: what a call answered, and what it left in the room that was lent.
use crate::output::put_hex;
use crate::pattern::put_touched;
use programs::Writer;
use records::FillError;

// Bytes in hex, `-` if there are none.
fn put_bytes(output: &mut Writer<'_>, text: &[u8]) {
    if text.is_empty() {
        output.byte(b'-');
    } else {
        put_hex(output, text);
    }
}

// The line of op, 0, how many bytes were written, and those bytes.
fn put_done(output: &mut Writer<'_>, op: &[u8], text: &[u8]) {
    output.text(op);
    output.fields(&[0, text.len() as u64]);
    output.byte(b'\t');
    put_bytes(output, text);
    output.byte(b'\n');
}

// What a text call answered (document 01's 0 or 7, or a refusal), with what it left in the room.
pub fn put_text(output: &mut Writer<'_>, op: &[u8], filled: Result<usize, FillError>, room: &[u8]) {
    let mut end = 0;
    match filled {
        Ok(n) => {
            end = n.min(room.len());
            put_done(output, op, &room[..end]);
        }
        Err(FillError::Short(n)) => output.line(op, &[7, n as u64]),
        Err(FillError::Refused(why)) => output.line(op, &[u64::from(why)]),
    }
    put_touched(output, room, end);
}
