// The calendar check, by the Gregorian calendar.
ghost use Rattle.std.specs.Prelude.{◌≡◌};
ghost use Rattle.date.specs.Calendar.{is_leap, month_days, is_calendar};

use crate::Date;

// A year that has the extra day: divisible by four, unless by 100 and not by 400.
#[tactic(auto, unfolding(crate::specs::Calendar::is_leap))]
fn is_leap(year: u16) -> bool
    ensures { result ≡ is_leap year }
{
    year % 4 == 0 && (year % 100 != 0 || year % 400 == 0)
}

// How many days a month has.
#[tactic(auto, using(std::proofs::lemmas::Bool::Decides::nat_tests), unfolding(crate::specs::Calendar::month_days))]
fn month_days(year: u16, month: u8) -> u8
    ensures { result ≡ month_days year month }
{
    match month {
        2 if is_leap(year) => 29,
        2 => 28,
        4 | 6 | 9 | 11 => 30,
        _ => 31,
    }
}

// Whether the date is one of the calendar.
#[tactic(auto, using(std::proofs::lemmas::Bool::Decides::nat_tests), unfolding(crate::specs::Calendar::is_calendar))]
pub fn is_calendar(date: Date) -> bool
    ensures { result ≡ is_calendar date }
{
    (1..=12).contains(&date.month) && (1..=month_days(date.year, date.month)).contains(&date.day)
}
