// Op T: the tables that are lent from case to case, each in a room of its own.
ghost use Rattle.std.specs.Prelude.{◌≤◌};

use crate::header::{BadCase, Header};
use name_table::Table;
use programs::Reader;

// How many bytes of names and how many ends a table has, in a room of at most B bytes and E ends.
#[derive(Clone, Copy)]
pub struct Size<const B: usize, const E: usize> {
    pub bytes: usize,
    pub ends: usize,
    ghost bytes_fit: { bytes ≤ B },
    ghost ends_fit: { ends ≤ E },
}

// The room of a table, and how much of it the table has that stands there, if one was lent.
#[derive(Drop)]
pub struct Room<const B: usize, const E: usize> {
    pub bytes: [u8; B],
    pub ends: [u32; E],
    pub size: Option<Size<B, E>>,
}

// The labels' room is large; the symbols' and the bibliography's are small.
pub type Small = Room<262144, 65536>;

pub type Large = Room<2097152, 131072>;

// Fills `to` from the input.
pub fn read_all(source: &mut Reader<'_>, to: &mut [u8]) -> Result<(), BadCase> {
    if source.take(to) < to.len() {
        return Err(BadCase);
    }
    Ok(())
}

fn read_words(source: &mut Reader<'_>, to: &mut [u32]) -> Result<(), BadCase> {
    for word in to.iter_mut() {
        let mut four = [0u8; 4];
        read_all(source, &mut four)?;
        *word = u32::from_le_bytes(four);
    }
    Ok(())
}

impl<const B: usize, const E: usize> Room<B, E> {
    pub fn new() -> Self {
        Room {
            bytes: [0; B],
            ends: [0; E],
            size: None,
        }
    }

    // The table that stands here, if one was lent.
    pub fn table(&self) -> Option<Table<'_, '_>> {
        let size = self.size?;
        Some(Table {
            bytes: &self.bytes[..size.bytes],
            ends: &self.ends[..size.ends],
        })
    }

    // Reads a table of so many ends from a payload of `n` bytes: the ends, and then the names' bytes.
    fn lend(&mut self, count: u32, n: u32, source: &mut Reader<'_>) -> Result<(), BadCase> {
        let ends = count as usize;
        let all = n as usize;
        if B < all || E < ends || all < 4 * ends {
            return Err(BadCase);
        }
        let bytes = all - 4 * ends;
        read_words(source, &mut self.ends[..ends])?;
        read_all(source, &mut self.bytes[..bytes])?;
        self.size = Some(Size { bytes, ends });
        Ok(())
    }
}

// Reads a table of the header's numbers. With flag 0 no bibliography is lent from here on, and the payload is passed over: it goes where a
// bibliography's names would.
pub fn lend(
    h: Header,
    source: &mut Reader<'_>,
    symbols: &mut Small,
    labels: &mut Large,
    bibliography: &mut Small,
) -> Result<(), BadCase> {
    match h.flag {
        0 => {
            bibliography.lend(0, h.n, source)?;
            bibliography.size = None;
            Ok(())
        }
        1 => symbols.lend(h.a, h.n, source),
        2 => labels.lend(h.a, h.n, source),
        3 => bibliography.lend(h.a, h.n, source),
        _ => Err(BadCase),
    }
}
