// Lists a sample comment of document 01, read through a view: the answer, and then the words of the room, a record to a line.
// First with room for all, then with room for two records and three words, then over a span that is refused.
#![tactic(auto)]

use byte_rules::Reading;
use comment_view::events_by_view;
use events::EVENT_WIDTH;
use programs::{Output, Writer};
use records::FillError;

// A line of a word and a number, parted by a space.
fn put_count(output: &mut Writer<'_>, word: &[u8], n: usize) {
    output.text(word);
    output.byte(b' ');
    output.number(n as u64);
    output.byte(b'\n');
}

fn put_answer(output: &mut Writer<'_>, answer: Result<usize, FillError>) {
    match answer {
        Ok(n) => put_count(output, b"done", n),
        Err(FillError::Short(n)) => put_count(output, b"short", n),
        Err(FillError::Refused(_)) => output.text(b"refused\n"),
    }
}

fn put_listing(output: &mut Writer<'_>, end: usize, room: &mut [u32]) {
    let answer = events_by_view(Reading::Rust, b"x_0 ~ ax-1.", 0, end, room);
    put_answer(output, answer);
    output.rows(room, EVENT_WIDTH);
}

fn main(rt: HostRuntime) {
    let mut buffer = io::buffer();
    let mut output = Writer {
        output: Output::new(rt.stdout()),
        buffer: &mut buffer,
    };
    let mut all = [77u32; 30];
    put_listing(&mut output, 11, &mut all);
    let mut two = [77u32; 13];
    put_listing(&mut output, 11, &mut two);
    output.byte(b'\n');
    let mut one = [77u32; 5];
    put_listing(&mut output, 12, &mut one);
    let _ = output.flush();
}
