// What stands at a place of a text. Past its end no test holds.
#![tactic(auto)]

ghost use Rattle.std.specs.Prelude.{◌≡◌};
ghost use Rattle.byte_rules.specs.Reading.{named};
ghost use Rattle.look.specs.Look.{holds_at, byte_at, blank_at, alphanumeric_at, closer_at, italic_opener_at, doubled_at, word_at};

use byte_rules::{Reading, is_alphanumeric, is_blank, is_closer, is_italic_opener};

#[tactic(auto, unfolding(crate::specs::Look::byte_at, crate::specs::Look::holds_at, crate::specs::Look::is_byte))]
pub fn byte_at(text: &[u8], i: usize, b: u8) -> bool
    ensures { result ≡ byte_at text.now i b }
{
    text.get(i) == Some(&b)
}

// A test of the byte at i for each class, which asks what crates above cite by its name; what they share is std's `is_some_and`.
#[tactic(auto, unfolding(crate::specs::Look::blank_at, crate::specs::Look::holds_at))]
pub fn blank_at(text: &[u8], i: usize) -> bool
    ensures { result ≡ blank_at text.now i }
{
    text.get(i).is_some_and(|c| is_blank(*c))
}

#[tactic(auto, unfolding(crate::specs::Look::alphanumeric_at, crate::specs::Look::holds_at))]
pub fn alphanumeric_at(text: &[u8], i: usize) -> bool
    ensures { result ≡ alphanumeric_at text.now i }
{
    text.get(i).is_some_and(|c| is_alphanumeric(*c))
}

#[tactic(auto, unfolding(crate::specs::Look::closer_at, crate::specs::Look::holds_at))]
pub fn closer_at(text: &[u8], i: usize) -> bool
    ensures { result ≡ closer_at text.now i }
{
    text.get(i).is_some_and(|c| is_closer(*c))
}

#[tactic(auto, unfolding(crate::specs::Look::italic_opener_at, crate::specs::Look::holds_at))]
pub fn italic_opener_at(text: &[u8], i: usize) -> bool
    ensures { result ≡ italic_opener_at text.now i }
{
    text.get(i).is_some_and(|c| is_italic_opener(*c))
}

// A byte that bars a subscript, in this reading.
#[tactic(auto, unfolding(crate::specs::Look::holds_at))]
pub fn bars_subscript_at(reading: Reading, text: &[u8], i: usize) -> bool
    ensures { result ≡ holds_at (named reading).bars_subscript text.now i }
{
    text.get(i).is_some_and(|c| reading.bars_subscript(*c))
}

// A byte that bars an italic, in this reading.
#[tactic(auto, unfolding(crate::specs::Look::holds_at))]
pub fn bars_italic_at(reading: Reading, text: &[u8], i: usize) -> bool
    ensures { result ≡ holds_at (named reading).bars_italic text.now i }
{
    text.get(i).is_some_and(|c| reading.bars_italic(*c))
}

// The byte b at i, and again after it.
#[tactic(auto, using(crate::proofs::Laws::byte_within), unfolding(crate::specs::Look::doubled_at))]
pub fn doubled_at(text: &[u8], i: usize, b: u8) -> bool
    ensures { result ≡ doubled_at text.now i b }
{
    byte_at(text, i, b) && byte_at(text, i + 1, b)
}

// The word stands at the start. Few places begin as it does, and a call of the library's comparison costs more than one byte, so the first
// byte is asked before.
#[tactic(auto, using(crate::proofs::Laws::starts_word, crate::proofs::Laws::word_first))]
fn starts(text: &[u8], word: &[u8]) -> bool
    ensures { result ≡ word_at text.now 0 word.now }
{
    match word.first() {
        Some(first) if !byte_at(text, 0, *first) => false,
        _ => text.starts_with(word),
    }
}

// The word stands at i.
#[tactic(auto, using(crate::proofs::Laws::word_past))]
pub fn word_at(text: &[u8], i: usize, word: &[u8]) -> bool
    ensures { result ≡ word_at text.now i word.now }
{
    match text.get(i..) {
        Some(rest) => starts(rest, word),
        None => word.is_empty(),
    }
}
