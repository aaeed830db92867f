// What is about no byte and no rule: a span of a buffer.
#![tactic(auto)]

// The part of a buffer from `start` up to `end`.
#[derive(Clone, Copy)]
pub struct Span {
    pub start: usize,
    pub end: usize,
}
