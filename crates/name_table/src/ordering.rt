// The bytewise order of a name and a name that a text spells.
ghost use Rattle.std.specs.Prelude.{◌≡◌};
ghost use Rattle.unescape.specs.Unescape.{is_escape, unescaped};
ghost use Rattle.name_table.specs.Order.{order_of};
ghost use Rattle.name_table.specs.Spelling.{spelled, step_of};

use crate::Spelling;
use std::cmp::Ordering;
use unescape::{Escape, unescape_step};

// How many bytes of the text stand for the name's byte at i.
#[tactic(auto, unfolding(crate::specs::Spelling::step_of))]
fn step(how: Spelling, text: &[u8], i: usize) -> usize
    ensures { result ≡ step_of how text.now i }
{
    match how {
        Spelling::Plain => 1,
        Spelling::Escaped(kind) => unescape_step(kind, text, i),
    }
}

// A text without a doubled escape spells the name that it is: it can be compared as it stands.
pub(crate) fn plainly(how: Spelling, text: &[u8]) -> Spelling
    ensures { spelled result text.now ≡ spelled how text.now }
{
    if (0..text.len()).any(|i| 1 < step(how, text, i)) {
        how
    } else {
        Spelling::Plain
    }
}

// The order of two names as they stand. Byte by byte, by index: a search meets names that differ early, and there `cmp` of slices and a zip take longer.
fn order_of(name: &[u8], other: &[u8]) -> Ordering
    ensures { result ≡ order_of name.now other.now }
{
    for k in 0..name.len().min(other.len()) {
        if name[k] != other[k] {
            return name[k].cmp(&other[k]);
        }
    }
    name.len().cmp(&other.len())
}

// The order of a name and the one that the text spells with escapes, byte by byte as they come.
fn order_escaped(name: &[u8], kind: Escape, text: &[u8]) -> Ordering
    ensures { result ≡ order_of name.now (unescaped (is_escape kind) text.now) }
{
    let mut i = 0;
    for a in name {
        let Some(b) = text.get(i) else {
            return Ordering::Greater;
        };
        match a.cmp(b) {
            Ordering::Equal => i += unescape_step(kind, text, i),
            unequal => return unequal,
        }
    }
    i.cmp(&text.len())
}

// The same order. A text that spells itself is compared as it stands, in fewer steps.
#[tactic(auto, unfolding(crate::specs::Spelling::spelled))]
pub(crate) fn compare(name: &[u8], how: Spelling, text: &[u8]) -> Ordering
    ensures { result ≡ order_of name.now (spelled how text.now) }
{
    match how {
        Spelling::Plain => order_of(name, text),
        Spelling::Escaped(kind) => order_escaped(name, kind, text),
    }
}
