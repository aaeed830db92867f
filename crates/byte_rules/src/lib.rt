// The byte rules of document 01: what class a byte belongs to. The crates above know them by these promises alone.
// Four classes stand on one sheet (classes.rt).
#![tactic(auto)]

mod classes;
pub mod names;
mod reading;
pub mod utf8;

ghost use Rattle.std.specs.Prelude.{◌≡◌};
ghost use Rattle.byte_rules.specs.Classes.{is_blank, is_closer, is_italic_opener, is_digit, is_capital, is_small, is_alphanumeric};
ghost use Rattle.byte_rules.specs.Classes.{is_credit_space, is_author_byte, is_text_escape, is_label_escape, is_math_escape};

use classes::{ALPHANUMERIC, BLANK, CLOSER, ITALIC_OPENER, mask};
pub use reading::Reading;

// Tab, LF, form feed, CR, space.
pub fn is_blank(c: u8) -> bool
    ensures { result ≡ is_blank c }
{
    mask(c) & BLANK != 0
}

// What may follow a subscript, a closing backtick or a label.
pub fn is_closer(c: u8) -> bool
    ensures { result ≡ is_closer c }
{
    mask(c) & CLOSER != 0
}

// What may stand before an italic, beside a blank.
pub fn is_italic_opener(c: u8) -> bool
    ensures { result ≡ is_italic_opener c }
{
    mask(c) & ITALIC_OPENER != 0
}

#[tactic(auto, unfolding(crate::specs::Classes::is_digit))]
pub fn is_digit(c: u8) -> bool
    ensures { result ≡ is_digit c }
{
    c.is_ascii_digit()
}

#[tactic(auto, unfolding(crate::specs::Classes::is_capital))]
pub fn is_capital(c: u8) -> bool
    ensures { result ≡ is_capital c }
{
    c.is_ascii_uppercase()
}

#[tactic(auto, unfolding(crate::specs::Classes::is_small))]
pub fn is_small(c: u8) -> bool
    ensures { result ≡ is_small c }
{
    c.is_ascii_lowercase()
}

// An ASCII letter or digit.
pub fn is_alphanumeric(c: u8) -> bool
    ensures { result ≡ is_alphanumeric c }
{
    mask(c) & ALPHANUMERIC != 0
}

// The spaces of a credit or a notice: tab is none.
#[tactic(auto, unfolding(crate::specs::Classes::is_credit_space))]
pub fn is_credit_space(c: u8) -> bool
    ensures { result ≡ is_credit_space c }
{
    matches!(c, b' ' | b'\r' | b'\n')
}

// A byte that does not end an author's field.
#[tactic(auto, unfolding(crate::specs::Classes::is_author_byte))]
pub fn is_author_byte(c: u8) -> bool
    ensures { result ≡ is_author_byte c }
{
    !matches!(c, b',' | b')')
}

// Doubled in a Text it stands for one; the underscore outside HTML only.
#[tactic(auto, unfolding(crate::specs::Classes::is_text_escape))]
pub fn is_text_escape(html: bool, c: u8) -> bool
    ensures { result ≡ is_text_escape html c }
{
    is_label_escape(c) || (!html && c == b'_')
}

// Doubled in a Label or a Url it stands for one.
#[tactic(auto, unfolding(crate::specs::Classes::is_label_escape))]
pub fn is_label_escape(c: u8) -> bool
    ensures { result ≡ is_label_escape c }
{
    matches!(c, b'`' | b'[' | b'~')
}

// Doubled in a MathToken it stands for one.
#[tactic(auto, unfolding(crate::specs::Classes::is_math_escape))]
pub fn is_math_escape(c: u8) -> bool
    ensures { result ≡ is_math_escape c }
{
    c == b'`'
}
