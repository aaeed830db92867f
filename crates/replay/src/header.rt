// The header of a case.
ghost use Rattle.std.specs.Prelude.{◌≡◌, ◌+◌, ◌≤◌, length};
ghost use Rattle.replay.specs.Headers.{word_at, header_of};

use byte_rules::Reading;
use std::num::TryFromIntError;

// What was read is no case.
#[derive(Clone, Copy)]
pub struct BadCase;

// A number that is too large for its place.
impl From<TryFromIntError> for BadCase {
    fn from(_why: TryFromIntError) -> BadCase {
        BadCase
    }
}

// Op, flag, reading, three numbers, the room lent and the length of the payload. The first three stay bytes as they were read, since
// which of them an op looks at, and what it takes them for, differs.
#[derive(Clone, Copy)]
pub struct Header {
    pub op: u8,
    pub flag: u8,
    pub reading: u8,
    pub a: u32,
    pub b: u32,
    pub c: u32,
    pub room: u32,
    pub n: u32,
}

// A header, and the payload behind it.
#[derive(Clone, Copy)]
pub struct Case<'a> {
    pub header: Header,
    pub payload: &'a [u8],
}

// The word of four bytes at i, little endian.
pub fn word(s: &[u8], i: usize) -> u32
    requires { i + 4 ≤ length s.now }
    ensures { result ≡ word_at s.now i }
{
    u32::from_le_bytes([s[i], s[i + 1], s[i + 2], s[i + 3]])
}

pub fn read_header(s: &[u8; 24]) -> Header
    ensures { result ≡ header_of s.now }
{
    Header {
        op: s[0],
        flag: s[1],
        reading: s[2],
        a: word(s, 4),
        b: word(s, 8),
        c: word(s, 12),
        room: word(s, 16),
        n: word(s, 20),
    }
}

// 0 names the Rust's reading, 1 the strict one.
pub fn reading_of(number: u8) -> Result<Reading, BadCase> {
    match number {
        0 => Ok(Reading::Rust),
        1 => Ok(Reading::Strict),
        _ => Err(BadCase),
    }
}

impl Case<'_> {
    // The reading that the header names.
    pub fn reading(self) -> Result<Reading, BadCase> {
        reading_of(self.header.reading)
    }

    // The span of the ops that have one.
    pub fn span(self) -> (usize, usize) {
        (self.header.a as usize, self.header.b as usize)
    }
}
