// A date is read.
ghost use Rattle.std.specs.Prelude.{◌≡◌, ◌+◌, ◌≤◌, length, [], ◌∷◌, position, ◌==◌};
ghost use lib.Pointwise.{pointwise};
ghost use Rattle.date.specs.Numbers.{digits, number};
ghost use Rattle.date.specs.Months.{names, month_of};
ghost use Rattle.date.specs.Reading.{fields, date_answer, read_answer};

use crate::{Date, NAMES};
use byte_rules::is_digit;
use records::Refusal;

// Digits, at least one.
#[tactic(auto, using(crate::proofs::NumberLaws::digits_none))]
fn read_digits(s: &[u8]) -> Option<u16>
    requires { length s.now ≤ 4 }
    ensures { result ≡ digits s.now }
{
    if s.is_empty() {
        return None;
    }
    let mut n = 0;
    for b in s {
        if !is_digit(*b) {
            return None;
        }
        n = n * 10 + u16::from(*b - b'0');
    }
    Some(n)
}

// Digits, one leading `+` allowed if a digit follows.
#[tactic(auto, using(crate::proofs::NumberLaws::number_empty, crate::proofs::NumberLaws::number_plus, crate::proofs::NumberLaws::number_plain))]
fn read_number(field: &[u8]) -> Option<u16>
    requires { length field.now ≤ 4 }
    ensures { result ≡ number field.now }
{
    match field {
        [b'+', rest @ ..] => read_digits(rest),
        _ => read_digits(field),
    }
}

// How many months stand before the one that a, b, c name.
#[tactic(auto, unfolding(crate::specs::Months::names))]
fn months_before(a: u8, b: u8, c: u8) -> Option<usize>
    ensures { result ≡ position (λ month. pointwise ◌==◌ month (a ∷ b ∷ c ∷ [])) names }
{
    NAMES.iter().position(|month| *month == [a, b, c])
}

// The month that a, b, c name, counted from 1.
fn month_of(a: u8, b: u8, c: u8) -> Option<u8>
    ensures { result ≡ month_of a b c }
{
    let before = months_before(a, b, c)?;
    Some(before as u8 + 1)
}

// A date whose day has k bytes.
fn read_fields(s: &[u8], k: usize) -> Option<Date>
    requires { (k ≤ 2) × (length s.now ≡ k + 9) }
    ensures { result ≡ fields k s.now }
{
    let day = read_number(&s[..k])?;
    let month = month_of(s[k + 1], s[k + 2], s[k + 3])?;
    let year = read_number(&s[k + 5..])?;
    Some(Date {
        year,
        month,
        // Two digits at most, so it fits.
        day: day as u8,
    })
}

// The date that the bytes are, if they are one.
#[tactic(auto, using(std::proofs::lemmas::Bool::Decides::nat_tests), unfolding(crate::specs::Reading::read_date))]
pub fn read_date(bytes: &[u8]) -> Result<Date, Refusal>
    ensures { date_answer result ≡ read_answer bytes.now }
{
    let date = match bytes.len() {
        10 => read_fields(bytes, 1),
        11 => read_fields(bytes, 2),
        _ => None,
    };
    date.ok_or(Refusal::NoDate)
}
