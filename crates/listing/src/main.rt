// Reads a comment from standard input and lists its events on standard output, a line for each: kind, place, start, end and line, parted by tabs.
// The argument `--strict` chooses the strict reading.
#![tactic(auto)]

mod line;

ghost use Rattle.std.specs.Prelude.{◌≡◌, [], length, IsOk};
ghost use Rattle.byte_rules.specs.Reading.{named};
ghost use Rattle.programs.specs.Output.{waiting, gathered, Gathers};
ghost use Rattle.listing.specs.Listing.{event_lines, listing};

use byte_rules::Reading;
use comment_parser::Items;
use line::put_line;
use lines::lines_between;
use programs::{Output, Writer, asked_for, read_input};
use records::{Refusal, check_input};
use std::env::{Env, FillError};
use std::io::{Error, Stdout};

// A line for each event, as it is read. Places never fall, so the number of the line is carried along. It stops where a write fails.
fn put_events(output: &mut Writer<'_>, reading: Reading, comment: &[u8])
    ensures { IsOk output.new.output.so_far → Gathers (event_lines (named reading) comment.now) output.old output.new }
{
    let Ok(items) = Items::new(reading, comment, 0, comment.len()) else {
        return;
    };
    let mut place = 0;
    let mut line = 1;
    for item in items {
        let to = item.placed().place;
        line += lines_between(comment, place, to);
        put_line(output, item, line);
        if output.output.so_far.is_err() {
            return;
        }
        place = to;
    }
}

// The listing of a comment in a reading, in a lent buffer.
fn put_listing<'a>(
    stdout: Stdout,
    reading: Reading,
    buffer: &'a mut [u8],
    comment: &[u8],
) -> Writer<'a>
    ensures { IsOk result.output.so_far → waiting result.output result.buffer.now ≡ gathered (length buffer.old) [] (listing (named reading) comment.now) }
{
    let mut output = Writer {
        output: Output::new(stdout),
        buffer,
    };
    output.text(b"kind\tplace\tstart\tend\tline\n");
    put_events(&mut output, reading, comment);
    output
}

// The one line of a refusal, in a lent buffer.
fn put_refusal(stdout: Stdout, why: Refusal, buffer: &mut [u8]) -> Writer<'_> {
    let mut output = Writer {
        output: Output::new(stdout),
        buffer,
    };
    output.refused(why);
    output
}

// Says on standard error what failed, and why, by the system's number of the error (0 where it has none).
fn tell<R: Eprint>(rt: &R, what: &str, error: Error) {
    let error = Error::from_raw_os_error(error.raw_os_error().unwrap_or(0));
    let _ = eprintln!(rt; "{what}: {error}");
}

// The room for the comment has as many bytes as a comment may have; a longer one is refused (8).
fn list_input(rt: &HostRuntime, reading: Reading) {
    let mut room = io::large_buffer();
    let n = match read_input(rt.stdin(), &mut room) {
        Ok(n) => n,
        Err(error) => return tell(rt, "standard input", error),
    };
    let mut buffer = io::buffer();
    let mut output = match check_input(n) {
        Ok(()) => put_listing(rt.stdout(), reading, &mut buffer, &room[..n]),
        Err(why) => put_refusal(rt.stdout(), why, &mut buffer),
    };
    if let Err(error) = output.flush() {
        tell(rt, "standard output", error);
    }
}

// How many arguments there are, the program's own name among them. To ask whether there is one takes no room.
fn argument_count<E: Env>(env: &E) -> usize {
    (0..usize::MAX)
        .find(|i| matches!(env.arg(*i, &mut []), Err(FillError::NotPresent)))
        .unwrap_or(usize::MAX)
}

// The room for the argument has one byte more than `--strict`, so that a longer one is told from it. Of one that has no room no byte is looked at.
fn main(rt: HostRuntime) {
    let mut first = [0u8; 9];
    let length = rt.arg(1, &mut first).unwrap_or(0);
    match asked_for(argument_count(&rt), &first[..length]) {
        Some(reading) => list_input(&rt, reading),
        None => {
            let _ = eprintln!(rt; "listing: takes no argument but --strict");
        }
    }
}
