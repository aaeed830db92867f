// Parentheticals of a comment: who contributed, revised or shortened a proof and when, and what is discouraged.
#![tactic(auto)]

mod fields;
mod flags;
mod list;
mod matching;
mod state;

use basics::Span;
use byte_rules::Reading;
pub use list::{PARENTHETICAL_WIDTH, parentheticals};

#[derive(Clone, Copy)]
pub enum Parenthetical {
    // `(Contributed by Foo Bar, 12-Mar-2020.)`
    ContributedBy { author: Span, date: Span },
    // `(Revised by Foo Bar, 12-Mar-2020.)`
    RevisedBy { author: Span, date: Span },
    // `(Proof shortened by Foo Bar, 12-Mar-2020.)`
    ProofShortenedBy { author: Span, date: Span },
    // `(Proof modification is discouraged.)`
    ProofModificationDiscouraged,
    // `(New usage is discouraged.)`
    NewUsageDiscouraged,
}

// A parenthetical, with the span of the whole.
#[derive(Clone, Copy)]
pub struct Found {
    pub whole: Span,
    pub item: Parenthetical,
}

// How far a span's parentheticals are read, and in which reading: the next is looked for from `position` on, in the buffer up to `end`.
#[derive(Clone, Copy)]
pub struct ParentheticalState {
    pub reading: Reading,
    pub position: usize,
    pub end: usize,
}

// What a step answers: the next parenthetical, if there is one, and the state after it.
#[derive(Clone, Copy)]
pub struct Stepped {
    pub found: Option<Found>,
    pub state: ParentheticalState,
}

// What a comment discourages.
#[derive(Clone, Copy)]
pub struct Discouragements {
    pub modification_discouraged: bool,
    pub usage_discouraged: bool,
}
