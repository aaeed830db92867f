// Ops E and P, which list records: the words that are lent, and the answer. Ops C and H list their records by the same functions.
ghost use Rattle.io.specs.Counts.{IsPrefixLen};

use crate::header::{BadCase, Case};
use crate::pattern::put_touched;
use events::{EVENT_WIDTH, events};
use parentheticals::{PARENTHETICAL_WIDTH, parentheticals};
use programs::Writer;
use records::{FillError, Refusal};

// How many of the words the first `count` records take, as far as they are there whole.
fn listed(count: usize, width: usize, words: &[u32]) -> usize
    ensures { IsPrefixLen result words.now }
{
    if width == 0 {
        return 0;
    }
    count.min(words.len() / width) * width
}

// Answer (document 01's 0 or 7), count, the records that were written, and what else was touched.
fn put_listed(
    output: &mut Writer<'_>,
    op: u8,
    width: usize,
    answer: u64,
    count: usize,
    words: &[u32],
) {
    output.line(&[op], &[answer, count as u64]);
    let end = listed(count, width, words);
    output.rows(&words[..end], width);
    put_touched(output, words, end);
}

// The line of a refusal: a table's number and entry, or no records.
pub fn put_refusal(output: &mut Writer<'_>, op: u8, why: Refusal) {
    match why {
        Refusal::BadTable { table, entry } => {
            output.line(&[op], &[u64::from(why), u64::from(table), entry as u64])
        }
        _ => output.line(&[op], &[u64::from(why), 0]),
    }
}

// What the list call of an op answered, with what it left in the words.
pub fn put_list(
    output: &mut Writer<'_>,
    op: u8,
    width: usize,
    filled: Result<usize, FillError>,
    words: &[u32],
) {
    match filled {
        Ok(n) => put_listed(output, op, width, 0, n, words),
        Err(FillError::Short(n)) => put_listed(output, op, width, 7, n, words),
        Err(FillError::Refused(why)) => {
            put_refusal(output, op, why);
            put_touched(output, words, 0);
        }
    }
}

// The events of the span, listed in the words. Each list call has a function; what they share is `put_list`.
pub fn list_events(
    case: Case<'_>,
    words: &mut [u32],
    output: &mut Writer<'_>,
) -> Result<(), BadCase> {
    let (start, end) = case.span();
    let filled = events(case.reading()?, case.payload, start, end, words);
    put_list(output, b'E', EVENT_WIDTH, filled, words);
    Ok(())
}

// The parentheticals of the span, listed in the words.
pub fn list_parentheticals(
    case: Case<'_>,
    words: &mut [u32],
    output: &mut Writer<'_>,
) -> Result<(), BadCase> {
    let (start, end) = case.span();
    let filled = parentheticals(case.reading()?, case.payload, start, end, words);
    put_list(output, b'P', PARENTHETICAL_WIDTH, filled, words);
    Ok(())
}
