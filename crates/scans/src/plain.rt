// Plain bytes, which no rule takes outside math, are stepped over eight at a time.
ghost use Rattle.std.specs.Prelude.{◌≡◌, true, false, ◌+◌, ◌≤◌, length};
ghost use Rattle.scans.specs.Plain.{is_active, plain_step, plain_end, Lacks, Lacking, Plain8};

use crate::{Step, scan};

// An active byte: one that a rule may take outside math. Most bytes are small letters, which lie between them: two comparisons tell one,
// where a `match` over the six takes six.
#[tactic(auto, unfolding(crate::specs::Plain::is_active))]
fn is_active(c: u8) -> bool
    ensures { result ≡ is_active c }
{
    if b'`' < c {
        return c == b'~';
    }
    if b'<' < c {
        return matches!(c, b'`' | b'[' | b'_');
    }
    matches!(c, b'<' | b'\n')
}

// Whether eight bytes stand from i on.
fn has_8(text: &[u8], i: usize) -> bool
    ensures { result ≡ true → i + 8 ≤ length text.now }
{
    8 <= text.len() && i <= text.len() - 8
}

// Whether b is among the eight bytes from i on: compiled to one comparison of eight bytes.
fn byte_in_8(text: &[u8], i: usize, b: u8) -> bool
    requires { i + 8 ≤ length text.now }
    ensures { result ≡ false → Lacks text.now i 8 b }
{
    text[i..i + 8].contains(&b)
}

// Eight bytes from i on, and b is not among them.
pub fn lacks_8(text: &[u8], i: usize, b: u8) -> bool
    ensures { result ≡ true → Lacking text.now i b }
{
    has_8(text, i) && !byte_in_8(text, i, b)
}

// Eight plain bytes from i on. The six are compared without a way out between them, which is compiled to three comparisons.
fn plain_8(text: &[u8], i: usize) -> bool
    ensures { result ≡ true → Plain8 text.now i }
{
    if !has_8(text, i) {
        return false;
    }
    let a = byte_in_8(text, i, b'`');
    let b = byte_in_8(text, i, b'<');
    let c = byte_in_8(text, i, b'~');
    let d = byte_in_8(text, i, b'[');
    let e = byte_in_8(text, i, b'\n');
    let f = byte_in_8(text, i, b'_');
    !(a | b | c | d | e | f)
}

#[tactic(auto, unfolding(crate::specs::Plain::plain_step, crate::specs::Plain::active_at, look::specs::Look::holds_at))]
fn plain_step(text: &[u8], i: usize) -> Step
    ensures { result ≡ plain_step text.now i }
{
    if text.get(i).is_some_and(|c| is_active(*c)) {
        Step::Stop
    } else {
        Step::One
    }
}

// The first active byte from `from` on, or the end. By index: a step is eight bytes, and then one.
pub fn plain_end(text: &[u8], from: usize) -> usize
    ensures { result ≡ plain_end text.now from }
{
    let mut i = from;
    while plain_8(text, i) {
        i += 8;
    }
    scan(text, i, |k| plain_step(text, k))
}
