// Dates as `2-Feb-2020`: read, written, put in order, and held to the calendar.
#![tactic(auto)]

mod calendar;
mod ordering;
mod reading;
mod writing;

pub use calendar::is_calendar;
pub use ordering::compare;
pub use reading::read_date;
pub use writing::write_date;

// A date. Its fields stand in the order in which dates are compared.
#[derive(Clone, Copy, PartialEq, Eq, PartialOrd, Ord)]
pub struct Date {
    pub year: u16,
    pub month: u8,
    pub day: u8,
}

// The names of the months, three letters each.
const NAMES: [[u8; 3]; 12] = [
    *b"Jan", *b"Feb", *b"Mar", *b"Apr", *b"May", *b"Jun", *b"Jul", *b"Aug", *b"Sep", *b"Oct",
    *b"Nov", *b"Dec",
];
