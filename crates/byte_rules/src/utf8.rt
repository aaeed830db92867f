// Characters of UTF-8, by the syntax of RFC 3629, section 4.
ghost use Rattle.std.specs.Prelude.{◌≡◌};
ghost use Rattle.byte_rules.specs.Utf8.{is_tail, is_two, is_three, is_four, char_len};

// UTF8-tail.
#[tactic(auto, unfolding(crate::specs::Utf8::is_tail, crate::specs::Utf8::within))]
fn is_tail(c: u8) -> bool
    ensures { result ≡ is_tail c }
{
    matches!(c, 0x80..=0xBF)
}

// UTF8-2.
#[tactic(auto, unfolding(crate::specs::Utf8::is_two, crate::specs::Utf8::within))]
fn is_two(a: u8, b: u8) -> bool
    ensures { result ≡ is_two a b }
{
    matches!(a, 0xC2..=0xDF) && is_tail(b)
}

// UTF8-3.
#[tactic(auto, unfolding(crate::specs::Utf8::is_three, crate::specs::Utf8::is_tail, crate::specs::Utf8::within))]
fn is_three(a: u8, b: u8, c: u8) -> bool
    ensures { result ≡ is_three a b c }
{
    let fits = match a {
        0xE0 => matches!(b, 0xA0..=0xBF),
        0xED => matches!(b, 0x80..=0x9F),
        0xE1..=0xEF => is_tail(b),
        _ => false,
    };
    fits && is_tail(c)
}

// UTF8-4.
#[tactic(auto, unfolding(crate::specs::Utf8::is_four, crate::specs::Utf8::is_tail, crate::specs::Utf8::within))]
fn is_four(a: u8, b: u8, c: u8, d: u8) -> bool
    ensures { result ≡ is_four a b c d }
{
    let fits = match a {
        0xF0 => matches!(b, 0x90..=0xBF),
        0xF4 => matches!(b, 0x80..=0x8F),
        0xF1..=0xF3 => is_tail(b),
        _ => false,
    };
    fits && is_tail(c) && is_tail(d)
}

// The bytes of the character at the front of the text, 0 if none stands there.
#[tactic(auto, using(crate::proofs::CharLaws::byte_in, crate::proofs::CharLaws::byte_past, crate::proofs::CharLaws::two_past, crate::proofs::CharLaws::three_past, crate::proofs::CharLaws::four_past), unfolding(crate::specs::Utf8::char_len, crate::specs::Utf8::is_one))]
fn front_len(text: &[u8]) -> usize
    ensures { result ≡ char_len text.now 0 }
{
    match *text {
        [0..=0x7F, ..] => 1,
        [a, b, ..] if is_two(a, b) => 2,
        [a, b, c, ..] if is_three(a, b, c) => 3,
        [a, b, c, d, ..] if is_four(a, b, c, d) => 4,
        _ => 0,
    }
}

// How many bytes the character at `at` has; 0 if none stands there. A number and no Option, as in the specs. Most are ASCII, which one look
// at the byte tells, before a slice is taken.
#[tactic(auto, using(crate::proofs::CharLaws::char_ascii))]
pub fn char_len(text: &[u8], at: usize) -> usize
    ensures { result ≡ char_len text.now at }
{
    match text.get(at) {
        None => 0,
        Some(0..=0x7F) => 1,
        Some(_) => front_len(&text[at..]),
    }
}
