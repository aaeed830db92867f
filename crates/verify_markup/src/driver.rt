// The events of a span, read once, with the diagnostics of each laid behind those before.
ghost use Rattle.std.specs.Prelude.{◌≡◌, length};
ghost use Rattle.byte_rules.specs.Reading.{named};
ghost use Rattle.records.specs.Answer.{filled_answer, checked_answer};
ghost use Rattle.comment_parser.specs.Items.{items_left};
ghost use Rattle.verify_markup.specs.Bounds.{LiesIn};
ghost use Rattle.verify_markup.specs.List.{closed, diags_from};
ghost use Rattle.verify_markup.specs.Check.{tables_refusal, check_answer, check_left};
ghost use Rattle.verify_markup.specs.Words.{Writes};
ghost use Rattle.verify_markup.specs.Lent.{lent_tables, lent_names};

use crate::diagnostic::DIAG_WIDTH;
use crate::items::lay_item;
use crate::opened::lay_last;
use crate::part::Part;
use crate::{Bibliography, Modes, Tables};
use basics::Span;
use byte_rules::Reading;
use comment_parser::Items;
use lines::fill_lines;
use records::{FillError, Refusal, Wrote, fits};

// Lays the diagnostics of a span's events, but for their lines, as many as fit, and counts them.
fn lay_all(
    part: Part<'_>,
    items: Items<'_>,
    tables: Tables<'_, '_, '_, '_, '_, '_>,
    out: &mut [u32],
) -> Wrote
    requires { LiesIn part.span (items_left items) }
    ensures { let p = part.entry in
        Writes (diags_from p.buf.now p.span.end (lent_names tables.entry) closed (items_left items.entry)) out.old out.new result }
{
    let mut modes = Modes {
        math: None,
        html: None,
    };
    let mut wrote = Wrote::NOTHING;
    for item in items {
        let html = modes.in_html();
        let one = lay_item(part.buf, html, item, tables, &mut out[wrote.words..]);
        wrote = wrote.then(one);
        modes = modes.after(item);
    }
    let last = lay_last(modes, part.span.end, &mut out[wrote.words..]);
    wrote.then(last)
}

impl Tables<'_, '_, '_, '_, '_, '_> {
    // 4 for the lowest table that is malformed.
    fn check(self) -> Result<(), Refusal>
        ensures { checked_answer result ≡ tables_refusal (lent_tables self.entry) }
    {
        self.symbols.check(1)?;
        self.labels.check(2)?;
        match self.bibliography {
            Bibliography::Lent(table) => table.check(3),
            Bibliography::NotLent => Ok(()),
            Bibliography::NoTagLookup => Ok(()),
        }
    }
}

// The diagnostics of the span in the reading that is named.
pub fn verify_markup(
    reading: Reading,
    buf: &[u8],
    start: usize,
    end: usize,
    tables: Tables<'_, '_, '_, '_, '_, '_>,
    out: &mut [u32],
) -> Result<usize, FillError>
    ensures answer { filled_answer result ≡ check_answer (named reading) buf.now start end (lent_tables tables.entry) (length out.old) }
    ensures left { out.new ≡ check_left (named reading) buf.now start end (lent_tables tables.entry) out.old }
{
    let items = Items::new(reading, buf, start, end)?;
    tables.check()?;
    let span = Span { start, end };
    let count = lay_all(Part { buf, span }, items, tables, out).count;
    fill_lines(buf, count, out);
    fits(count, out.len() / DIAG_WIDTH)
}
