// A date is written.
ghost use Rattle.std.specs.Prelude.{◌≡◌, ◌≤◌, length};
ghost use Rattle.records.specs.Answer.{filled_answer};
ghost use Rattle.records.specs.Records.{text_answer, text_left};
ghost use Rattle.records.specs.Over.{over};
ghost use Rattle.date.specs.Writing.{month_text, year_text, date_text, write_refusal};

use crate::{Date, NAMES};
use decimal::{decimal_len, put_decimal};
use records::{FillError, Refusal, fits};

// How many bytes a year takes.
#[tactic(auto, using(crate::proofs::WritingLaws::length_year))]
fn year_len(year: u16) -> usize
    ensures { result ≡ length (year_text year) }
{
    decimal_len(u64::from(year)).max(4)
}

// How many bytes a date takes.
fn date_len(date: Date) -> usize
    ensures { result ≡ length (date_text date) }
{
    decimal_len(u64::from(date.day)) + 5 + year_len(date.year)
}

// Writes the month's name between its separators at the front of `out`, which has room for them.
fn put_month(month: u8, out: &mut [u8])
    requires { (1 ≤ month) × ((month ≤ 12) × (5 ≤ length out.old)) }
    ensures { out.new ≡ over (month_text month) out.old }
{
    let [a, b, c] = NAMES[usize::from(month) - 1];
    out[..5].copy_from_slice(&[b'-', a, b, c, b'-']);
}

// Writes the year, of at least four digits, at the front of `out`, which has room for it: so `put_decimal` refuses nothing.
fn put_year(year: u16, out: &mut [u8])
    requires { length (year_text year) ≤ length out.old }
    ensures { out.new ≡ over (year_text year) out.old }
{
    let zeros = 4usize.saturating_sub(decimal_len(u64::from(year)));
    out[..zeros].copy_from_slice(&b"0000"[..zeros]);
    let _ = put_decimal(&mut out[zeros..], u64::from(year));
}

// Writes the date at the front of `out`, which has room for it: so `put_decimal` refuses nothing.
fn put_date(date: Date, out: &mut [u8])
    requires { (1 ≤ date.month) × ((date.month ≤ 12) × (length (date_text date) ≤ length out.old)) }
    ensures { out.new ≡ over (date_text date) out.old }
{
    let at = decimal_len(u64::from(date.day));
    let _ = put_decimal(out, u64::from(date.day));
    put_month(date.month, &mut out[at..]);
    let end = at + 5;
    put_year(date.year, &mut out[end..]);
}

// Writes the date at the front of `out`, all of it or nothing.
#[tactic(auto, using(std::proofs::lemmas::Bool::Decides::nat_tests), unfolding(records::specs::Records::text_answer, records::specs::Records::text_left, records::specs::Records::put, records::specs::Over::over, crate::specs::Writing::write_refusal))]
pub fn write_date(date: Date, out: &mut [u8]) -> Result<usize, FillError>
    ensures answer { filled_answer result ≡ text_answer (write_refusal date) (date_text date) (length out.old) }
    ensures left { out.new ≡ text_left (write_refusal date) (date_text date) out.old }
{
    if !(1..=12).contains(&date.month) {
        return Err(FillError::Refused(Refusal::BadMonth));
    }
    let needed = fits(date_len(date), out.len())?;
    put_date(date, out);
    Ok(needed)
}
