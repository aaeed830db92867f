// Op C: the comment check, against the tables that are lent.
use crate::header::{BadCase, Case};
use crate::lists::put_list;
use programs::Writer;
use verify_markup::{Bibliography, DIAG_WIDTH, Tables, verify_markup};

// The diagnostics of the span, listed in the words. At flag 1 tags are not looked up; else they are, in the bibliography that is lent, or in none.
pub fn list_diagnostics(
    case: Case<'_>,
    mut tables: Tables<'_, '_, '_, '_, '_, '_>,
    words: &mut [u32],
    output: &mut Writer<'_>,
) -> Result<(), BadCase> {
    match case.header.flag {
        0 => {}
        1 => tables.bibliography = Bibliography::NoTagLookup,
        _ => return Err(BadCase),
    }
    let (start, end) = case.span();
    let filled = verify_markup(case.reading()?, case.payload, start, end, tables, words);
    put_list(output, b'C', DIAG_WIDTH, filled, words);
    Ok(())
}
