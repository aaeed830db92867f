// The comment check: diagnostics of a comment's markup, against lent tables of symbols, labels and a bibliography.
#![tactic(auto)]

mod diagnostic;
mod driver;
mod items;
mod laying;
mod opened;
mod part;
mod texts;

pub use diagnostic::DIAG_WIDTH;
pub use driver::verify_markup;
use name_table::Table;

// What a call says of the bibliography: here it is; there is none, and every tag is undefined; or, by name, that tags are not looked up.
#[derive(Clone, Copy)]
pub enum Bibliography<'b, 'e> {
    Lent(Table<'b, 'e>),
    NotLent,
    NoTagLookup,
}

// The tables that a call is lent. Each slice has a lifetime of its own, as in a call that takes them one by one.
#[derive(Clone, Copy)]
pub struct Tables<'sb, 'se, 'lb, 'le, 'bb, 'be> {
    pub symbols: Table<'sb, 'se>,
    pub labels: Table<'lb, 'le>,
    pub bibliography: Bibliography<'bb, 'be>,
}

// Where math and HTML were opened, if they are open.
#[derive(Clone, Copy)]
pub struct Modes {
    pub math: Option<usize>,
    pub html: Option<usize>,
}
