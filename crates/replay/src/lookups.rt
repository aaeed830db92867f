// Ops N and H, by a table that is lent alone: a name looked up, and the links of a span to the labels.
use crate::header::{BadCase, Case};
use crate::lists::{put_list, put_refusal};
use links::{LINK_WIDTH, links};
use name_table::Table;
use programs::Writer;
use verify_markup::{Bibliography, Tables};

// A table without names.
pub const EMPTY: Table<'static, 'static> = Table {
    bytes: &[],
    ends: &[],
};

// The name looked up in the table: 1 and its entry, or 0. In a bibliography that is not lent nothing is found.
pub fn looking_up(
    case: Case<'_>,
    tables: Tables<'_, '_, '_, '_, '_, '_>,
    output: &mut Writer<'_>,
) -> Result<(), BadCase> {
    let table = match case.header.flag {
        1 => tables.symbols,
        2 => tables.labels,
        3 => match tables.bibliography {
            Bibliography::Lent(table) => table,
            _ => EMPTY,
        },
        _ => return Err(BadCase),
    };
    match table.lookup(case.payload) {
        Ok(Some(entry)) => output.line(b"N", &[0, 1, entry as u64]),
        Ok(None) => output.line(b"N", &[0, 0]),
        Err(why) => put_refusal(output, b'N', why),
    }
    Ok(())
}

// The links of the span to the labels, listed in the words.
pub fn list_links(
    case: Case<'_>,
    tables: Tables<'_, '_, '_, '_, '_, '_>,
    words: &mut [u32],
    output: &mut Writer<'_>,
) -> Result<(), BadCase> {
    let (start, end) = case.span();
    let filled = links(
        case.reading()?,
        case.payload,
        start,
        end,
        tables.labels,
        words,
    );
    put_list(output, b'H', LINK_WIDTH, filled, words);
    Ok(())
}
