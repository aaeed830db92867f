// Labels and reserved names.
ghost use Rattle.std.specs.Prelude.{◌≡◌};
ghost use Rattle.byte_rules.specs.Names.{is_label_byte, is_valid_label, upper, fits_sign, is_name, is_reserved_name};

use crate::is_alphanumeric;

// Most are letters and digits, so that is asked first.
#[tactic(auto, unfolding(crate::specs::Names::is_label_byte))]
fn is_label_byte(c: u8) -> bool
    ensures { result ≡ is_label_byte c }
{
    is_alphanumeric(c) || matches!(c, b'.' | b'-' | b'_')
}

// Whether a label has none but label bytes; an empty one has.
pub fn is_valid_label(label: &[u8]) -> bool
    ensures { result ≡ is_valid_label label.now }
{
    label.iter().all(|c| is_label_byte(*c))
}

// The capital of a small letter, and any other byte.
#[tactic(auto, unfolding(crate::specs::Names::upper, crate::specs::Classes::is_small))]
pub fn upper(c: u8) -> u8
    ensures { result ≡ upper c }
{
    c.to_ascii_uppercase()
}

// Whether c is what p stands for in a reserved name: 1 for each of the digits 1 to 9, a capital for itself and its small letter.
#[tactic(auto, unfolding(crate::specs::Names::fits_sign))]
fn fits_sign(p: u8, c: u8) -> bool
    ensures { result ≡ fits_sign p c }
{
    if p == b'1' {
        matches!(c, b'1'..=b'9')
    } else {
        upper(c) == p
    }
}

fn is_name(sign: &[u8], name: &[u8]) -> bool
    ensures { result ≡ is_name sign.now name.now }
{
    sign.len() == name.len() && sign.iter().zip(name).all(|(p, c)| fits_sign(*p, *c))
}

// Whether the whole name is one that Windows keeps for a device.
#[tactic(auto, unfolding(crate::specs::Names::is_reserved_name))]
pub fn is_reserved_name(name: &[u8]) -> bool
    ensures { result ≡ is_reserved_name name.now }
{
    is_name(b"CON", name)
        || is_name(b"PRN", name)
        || is_name(b"AUX", name)
        || is_name(b"NUL", name)
        || is_name(b"COM1", name)
        || is_name(b"LPT1", name)
}
