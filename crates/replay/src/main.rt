// Replays cases through the library. Reads cases (oracle/REPLAY.md) from standard input until it ends, and writes their answers to standard output.
// It knows every op of that page. At what is no case and at an input that ends inside a case it writes `bad case` and ends.
// An op is a function in the file of its group, and an arm in `answer`; T, which has no answer and may be larger, is taken before.
#![tactic(auto)]

mod checks;
mod credits;
mod dates;
mod header;
mod lists;
mod lookups;
mod names;
mod output;
mod pattern;
mod states;
mod steps;
mod tables;
mod texts;
mod unescaping;
mod walks;

ghost use Rattle.std.specs.Prelude.{◌≡◌, length};

use header::{BadCase, Case, Header, read_header};
use lookups::EMPTY;
use pattern::{Pattern, fill};
use programs::{Output, Reader, Source, Writer};
use tables::{Large, Room, Small, lend, read_all};
use verify_markup::{Bibliography, Tables};

// The largest room of a list op.
fn word_area() -> [u32; 655360]
    ensures { 655360 ≡ length result }
{
    [0u32; 655360]
}

// The front of a room, as much of it as the header lends. It holds its pattern before the call.
fn lent<T: Pattern>(room: &mut [T], header: Header) -> Result<&mut [T], BadCase> {
    let lent = room.get_mut(..header.room as usize).ok_or(BadCase)?;
    fill(lent);
    Ok(lent)
}

// The answer of a case, by its op.
fn answer(
    case: Case<'_>,
    tables: Tables<'_, '_, '_, '_, '_, '_>,
    room: &mut [u8],
    words: &mut [u32],
    output: &mut Writer<'_>,
) -> Result<(), BadCase> {
    match case.header.op {
        b'L' => names::label(case, output),
        b'R' => names::reserved(case, output),
        b'D' => dates::reading(case, output),
        b'K' => dates::calendar(case, output)?,
        b'O' => dates::order(case, output),
        b'S' => steps::stepping(case, output)?,
        b'Q' => credits::stepping(case, output)?,
        b'F' => credits::flagging(case, output),
        b'N' => lookups::looking_up(case, tables, output)?,
        b'U' => unescaping::unescaping(case, lent(room, case.header)?, output)?,
        b'V' => steps::own_unescaping(case, lent(room, case.header)?, output)?,
        b'W' => dates::writing(case, lent(room, case.header)?, output)?,
        b'E' => lists::list_events(case, lent(words, case.header)?, output)?,
        b'P' => lists::list_parentheticals(case, lent(words, case.header)?, output)?,
        b'H' => lookups::list_links(case, tables, lent(words, case.header)?, output)?,
        b'C' => checks::list_diagnostics(case, tables, lent(words, case.header)?, output)?,
        _ => return Err(BadCase),
    }
    Ok(())
}

// The header of the next case, none where the input ends.
fn next_header(source: &mut Reader<'_>) -> Result<Option<Header>, BadCase> {
    let mut bytes = [0u8; 24];
    match source.take(&mut bytes) {
        0 => Ok(None),
        24 => Ok(Some(read_header(&bytes))),
        _ => Err(BadCase),
    }
}

// The smaller areas: a payload, the room of a text op, and the rooms of two tables.
#[derive(Drop)]
struct Areas {
    payload: [u8; 65536],
    room: [u8; 65536],
    symbols: Small,
    bibliography: Small,
}

// The bibliography that stands, if one is lent.
fn bibliography_of(room: &Small) -> Bibliography<'_, '_> {
    match room.table() {
        Some(table) => Bibliography::Lent(table),
        None => Bibliography::NotLent,
    }
}

// One case, and whether there was one: there is none where the input ends. A table's payload goes to the table's own place.
// Of a payload that is larger than its area as much is read as the area holds.
fn turn(
    source: &mut Reader<'_>,
    areas: &mut Areas,
    labels: &mut Large,
    words: &mut [u32],
    output: &mut Writer<'_>,
) -> Result<bool, BadCase> {
    let Some(header) = next_header(source)? else {
        return Ok(false);
    };
    if header.op == b'T' {
        let bibliography = &mut areas.bibliography;
        lend(header, source, &mut areas.symbols, labels, bibliography)?;
        return Ok(true);
    }
    let n = header.n as usize;
    let most = n.min(areas.payload.len());
    read_all(source, &mut areas.payload[..most])?;
    if most < n {
        return Err(BadCase);
    }
    let case = Case {
        header,
        payload: &areas.payload[..n],
    };
    let tables = Tables {
        symbols: areas.symbols.table().unwrap_or(EMPTY),
        labels: labels.table().unwrap_or(EMPTY),
        bibliography: bibliography_of(&areas.bibliography),
    };
    answer(case, tables, &mut areas.room, words, output)?;
    Ok(true)
}

// All cases. A proved loop has to end, and nothing says that the input does: so the turns are counted, to a number that no run uses up.
fn run(
    source: &mut Reader<'_>,
    labels: &mut Large,
    words: &mut [u32],
    output: &mut Writer<'_>,
) -> Result<(), BadCase> {
    let mut areas = Areas {
        payload: io::large_buffer(),
        room: io::large_buffer(),
        symbols: Room::new(),
        bibliography: Room::new(),
    };
    for _ in 0..u64::MAX {
        if !turn(source, &mut areas, labels, words, output)? {
            return Ok(());
        }
    }
    Err(BadCase)
}

// The two largest areas first. The stack has 8 MiB, and a function that makes an area may hold it a second time: so they are not all made in one.
fn main(rt: HostRuntime) {
    let mut labels = Room::new();
    let mut words = word_area();
    let mut input = io::large_buffer();
    let mut source = Reader {
        source: Source::new(rt.stdin()),
        buffer: &mut input,
    };
    let mut gathered = io::large_buffer();
    let mut output = Writer {
        output: Output::new(rt.stdout()),
        buffer: &mut gathered,
    };
    if run(&mut source, &mut labels, &mut words, &mut output).is_err() {
        output.text(b"bad case\n");
    }
    let _ = output.flush();
}
