// Where blanks, a tag, a subscript and an italic end. Each is a scan along the bytes by a rule, which says at each place to step one, to step
// two, or to stop there.
#![tactic(auto)]

pub mod labels;
pub mod plain;

ghost use Rattle.std.specs.Prelude.{◌≡◌, ℕ, Some, None, length};
ghost use Rattle.byte_rules.specs.Reading.{named};
ghost use Rattle.scans.specs.Scan.{scan, SaysAt};
ghost use Rattle.scans.specs.Ends.{tag_step, subscript_step, italic_step, blanks_end, tag_stop, subscript_end, closes_italic, italic_end};
ghost use Rattle.scans.specs.declared.Step.{Step};
ghost use Rattle.scans.specs.Notes.{covers};

use byte_rules::{Reading, is_blank};
use look::{
    alphanumeric_at, bars_italic_at, bars_subscript_at, blank_at, byte_at, closer_at, doubled_at,
};

#[derive(Clone, Copy)]
pub enum Step {
    One,
    Two,
    Stop,
}

// What a search for a tag's end that failed tells: no `[` from `from` on and before `to` opens a tag.
#[derive(Clone, Copy)]
pub struct Note {
    pub from: usize,
    pub to: usize,
}

impl Note {
    // The note that covers nothing.
    pub fn nothing() -> Self
        ensures { (result.from ≡ 0) × (result.to ≡ 0) }
    {
        Self { from: 0, to: 0 }
    }

    pub fn covers(self, at: usize) -> bool
        ensures { result ≡ covers self at }
    {
        (self.from..self.to).contains(&at)
    }
}

// A value, and the note to go on with.
#[derive(Clone, Copy)]
pub struct Noted<T> {
    pub value: T,
    pub note: Note,
}

// Most bytes are small letters, which no tag ends at.
#[tactic(auto, using(crate::proofs::TagLaws::tag_letter, look::proofs::Laws::byte_test, look::proofs::Laws::blank_test, look::proofs::Laws::byte_past, look::proofs::Laws::blank_past), unfolding(crate::specs::Ends::tag_step, look::specs::Look::doubled_at))]
fn tag_step(text: &[u8], i: usize) -> Step
    ensures { result ≡ tag_step text.now i }
{
    match text.get(i) {
        Some(c) if b'`' < *c => Step::One,
        Some(b']') => Step::Stop,
        Some(b'`') => if byte_at(text, i + 1, b'`') {
            Step::Two
        } else {
            Step::Stop
        },
        Some(c) if is_blank(*c) => Step::Stop,
        _ => Step::One,
    }
}

#[tactic(auto, unfolding(crate::specs::Ends::subscript_step))]
fn subscript_step(reading: Reading, text: &[u8], i: usize) -> Step
    ensures { result ≡ subscript_step (named reading) text.now i }
{
    if blank_at(text, i) || closer_at(text, i) || bars_subscript_at(reading, text, i) {
        Step::Stop
    } else {
        Step::One
    }
}

#[tactic(auto, unfolding(crate::specs::Ends::italic_step))]
fn italic_step(reading: Reading, text: &[u8], i: usize) -> Step
    ensures { result ≡ italic_step (named reading) text.now i }
{
    if doubled_at(text, i, b'_') {
        Step::Two
    } else if byte_at(text, i, b'_') || bars_italic_at(reading, text, i) {
        Step::Stop
    } else {
        Step::One
    }
}

// The first place from `from` on at which the rule stops, or the end. By index: a step is one byte or two.
fn scan<F: Fn(usize) -> Step>(text: &[u8], from: usize, rule: F) -> usize
    requires { F.IsAlwaysCallable rule }
    ensures { (step : ℕ → Step) → SaysAt (F.post rule) step → result ≡ scan step (length text.now) from }
{
    let mut i = from;
    while i < text.len() {
        match rule(i) {
            Step::One => i += 1,
            Step::Two => i += 2,
            Step::Stop => return i,
        }
    }
    text.len()
}

// The first place from `from` on that is no blank. A loop of its own: `scan` asks at each byte for the text's end, and the rule asks again.
pub fn blanks_end(text: &[u8], from: usize) -> usize
    ensures { result ≡ blanks_end text.now from }
{
    let mut i = from;
    while blank_at(text, i) {
        i += 1;
    }
    i.min(text.len())
}

// Where the search for the `]` of a tag whose text begins at `from` stops: at the `]`, or where it fails.
pub fn tag_stop(text: &[u8], from: usize) -> usize
    ensures { result ≡ tag_stop text.now from }
{
    scan(text, from, |i| tag_step(text, i))
}

// Where a subscript whose text begins at `from` ends, if it is one: it is not empty.
#[tactic(auto, unfolding(crate::specs::Ends::subscript_end))]
pub fn subscript_end(reading: Reading, text: &[u8], from: usize) -> Option<usize>
    ensures { result ≡ subscript_end (named reading) text.now from }
{
    let end = scan(text, from, |i| subscript_step(reading, text, i));
    (from < end).then_some(end)
}

// The lone `_` that ends an italic whose text begins at `from`, if it is one.
#[tactic(auto, using(look::proofs::Laws::alphanumeric_within), unfolding(crate::specs::Ends::italic_end))]
pub fn italic_end(reading: Reading, text: &[u8], from: usize) -> Option<usize>
    ensures { result ≡ italic_end (named reading) text.now from }
{
    if !alphanumeric_at(text, from) {
        return None;
    }
    let end = scan(text, from + 1, |i| italic_step(reading, text, i));
    closes_italic(text, end)
}

// j closes an italic: a lone `_`, an alphanumeric byte before it, and none after it. A `_` at the front closes none: the byte before it is taken to be itself.
#[tactic(auto, using(look::proofs::Laws::byte_within), unfolding(crate::specs::Ends::closes_italic))]
fn closes_italic(text: &[u8], j: usize) -> Option<usize>
    ensures { result ≡ closes_italic text.now j }
{
    let closes = byte_at(text, j, b'_')
        && alphanumeric_at(text, j.saturating_sub(1))
        && !alphanumeric_at(text, j + 1);
    closes.then_some(j)
}
