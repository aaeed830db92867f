// Ops D, K, O and W: dates.
ghost use Rattle.std.specs.Prelude.{◌≡◌, ◌/◌, ◌%◌};
ghost use Rattle.date.specs.Ordering.{order_number};

use crate::header::{BadCase, Case, Header};
use crate::texts::put_text;
use date::{Date, compare, is_calendar, read_date, write_date};
use programs::Writer;
use std::cmp::Ordering;

pub fn reading(case: Case<'_>, output: &mut Writer<'_>) {
    match read_date(case.payload) {
        Ok(date) => output.line(
            b"D",
            &[
                0,
                u64::from(date.year),
                u64::from(date.month),
                u64::from(date.day),
                u64::from(is_calendar(date)),
            ],
        ),
        Err(why) => output.line(b"D", &[u64::from(why)]),
    }
}

// The date of a header's numbers, if each of them fits.
fn date_of(h: Header) -> Result<Date, BadCase> {
    Ok(Date {
        year: u16::try_from(h.a)?,
        month: u8::try_from(h.b)?,
        day: u8::try_from(h.c)?,
    })
}

pub fn calendar(case: Case<'_>, output: &mut Writer<'_>) -> Result<(), BadCase> {
    let date = date_of(case.header)?;
    output.line(b"K", &[0, u64::from(is_calendar(date))]);
    Ok(())
}

// A date packed as year times 65,536, plus month times 256, plus day.
fn unpacked(n: u32) -> Date
    ensures { (result.year ≡ n / 65536) × ((result.month ≡ n / 256 % 256) × (result.day ≡ n % 256)) }
{
    let [high, low, month, day] = n.to_be_bytes();
    Date {
        year: u16::from_be_bytes([high, low]),
        month,
        day,
    }
}

// The number of an order on that page. No `From`: neither type is this crate's.
fn order_number(order: Ordering) -> u64
    ensures { result ≡ order_number order }
{
    match order {
        Ordering::Less => 1,
        Ordering::Equal => 2,
        Ordering::Greater => 3,
    }
}

pub fn order(case: Case<'_>, output: &mut Writer<'_>) {
    let order = compare(unpacked(case.header.a), unpacked(case.header.b));
    output.line(b"O", &[0, order_number(order)]);
}

// The date written into the room.
pub fn writing(case: Case<'_>, room: &mut [u8], output: &mut Writer<'_>) -> Result<(), BadCase> {
    let filled = write_date(date_of(case.header)?, room);
    put_text(output, b"W", filled, room);
    Ok(())
}
