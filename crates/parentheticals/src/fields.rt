// The fields of a parenthetical: each matcher answers the place past what it matched.
ghost use Rattle.std.specs.Prelude.{◌≡◌};
ghost use Rattle.byte_rules.specs.Classes.{is_credit_space};
ghost use Rattle.byte_rules.specs.Reading.{named};
ghost use Rattle.look.specs.Look.{holds_at};
ghost use Rattle.parentheticals.specs.Fields.{space_end, spaces_at, sign_at, phrase_at, fits, picture_at, date_at, author_start, author_len};

use byte_rules::utf8::char_len;
use byte_rules::{Reading, is_author_byte, is_capital, is_credit_space, is_digit, is_small};
use look::byte_at;

// Whether a space stands at `at`.
#[tactic(auto, unfolding(look::specs::Look::holds_at))]
fn space_at(text: &[u8], at: usize) -> bool
    ensures { result ≡ holds_at is_credit_space text.now at }
{
    text.get(at).is_some_and(|c| is_credit_space(*c))
}

// The end of the spaces at `at`. A `while`, and no `for` over the places: the loop over a phrase's bytes, which holds this one, is unrolled only then.
#[tactic(auto, using(look::proofs::Laws::holds_within, crate::proofs::FieldLaws::run_none, crate::proofs::FieldLaws::run_on))]
fn space_end(text: &[u8], at: usize) -> usize
    ensures { result ≡ space_end text.now at }
{
    let mut i = at;
    while space_at(text, i) {
        i += 1;
    }
    i
}

// Spaces, one or more.
#[tactic(auto, unfolding(crate::specs::Fields::spaces_at))]
fn spaces_at(text: &[u8], at: usize) -> Option<usize>
    ensures { result ≡ spaces_at text.now at }
{
    let end = space_end(text, at);
    if at < end { Some(end) } else { None }
}

// A byte of a phrase: a space stands for spaces, any other byte for itself.
#[tactic(auto, using(look::proofs::Laws::byte_within), unfolding(crate::specs::Fields::sign_at))]
pub fn sign_at(b: u8, text: &[u8], at: usize) -> Option<usize>
    ensures { result ≡ sign_at b text.now at }
{
    if b == b' ' {
        return spaces_at(text, at);
    }
    if byte_at(text, at, b) {
        Some(at + 1)
    } else {
        None
    }
}

// A phrase.
#[tactic(auto, using(crate::proofs::FieldLaws::phrase_end, crate::proofs::FieldLaws::phrase_next, crate::proofs::FieldLaws::phrase_stop))]
pub fn phrase_at(phrase: &[u8], text: &[u8], at: usize) -> Option<usize>
    ensures { result ≡ phrase_at phrase.now text.now at }
{
    let mut i = at;
    for b in phrase {
        i = sign_at(*b, text, i)?;
    }
    Some(i)
}

// Whether `b` is what `p` stands for in a picture.
#[tactic(auto, unfolding(crate::specs::Fields::fits))]
fn is_fit(p: u8, b: u8) -> bool
    ensures { result ≡ fits p b }
{
    match p {
        b'0' => is_digit(b),
        b'A' => is_capital(b),
        b'a' => is_small(b),
        _ => b == p,
    }
}

// A picture.
#[tactic(auto, using(crate::proofs::FieldLaws::picture_end, crate::proofs::FieldLaws::picture_past, crate::proofs::FieldLaws::picture_next, crate::proofs::FieldLaws::picture_stop))]
fn picture_at(picture: &[u8], text: &[u8], at: usize) -> Option<usize>
    ensures { result ≡ picture_at picture.now text.now at }
{
    let mut i = at;
    for p in picture {
        let b = *text.get(i)?;
        if !is_fit(*p, b) {
            return None;
        }
        i += 1;
    }
    Some(i)
}

// A date, its day of one digit or of two.
#[tactic(auto, unfolding(crate::specs::Fields::date_at))]
pub fn date_at(text: &[u8], at: usize) -> Option<usize>
    ensures { result ≡ date_at text.now at }
{
    picture_at(b"0-Aaa-0000", text, at).or_else(|| picture_at(b"00-Aaa-0000", text, at))
}

// Where an author starts: the spaces before take all they can while the author keeps one byte.
#[tactic(auto, using(look::proofs::Laws::byte_within, crate::proofs::Inside::spaces_are), unfolding(crate::specs::Fields::author_start))]
pub fn author_start(text: &[u8], at: usize) -> Option<usize>
    ensures { result ≡ author_start text.now at }
{
    let end = spaces_at(text, at)?;
    if !byte_at(text, end, b',') {
        return Some(end);
    }
    if at + 1 < end { Some(end - 1) } else { None }
}

// How many bytes the author's character at `at` has; 0 if none stands there, or one that the reading bars. Most bytes of an author are letters, and no
// byte behind the `,` is barred in any reading; `char_len` is asked only for what is not ASCII. A number and no Option, as `char_len` in the specs.
#[tactic(auto, using(crate::proofs::FieldLaws::len_past, crate::proofs::FieldLaws::len_high, crate::proofs::FieldLaws::len_low, crate::proofs::FieldLaws::len_other, crate::proofs::FieldLaws::len_one))]
pub fn author_len(reading: Reading, text: &[u8], at: usize) -> usize
    ensures { result ≡ author_len (named reading).bars_author text.now at }
{
    match text.get(at) {
        Some(c) if b',' < *c => { if *c < 128 { 1 } else { char_len(text, at) } }
        Some(c) if is_author_byte(*c) && !reading.bars_author(*c) => 1,
        _ => 0,
    }
}
