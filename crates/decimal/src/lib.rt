// Numbers in decimal digits, most significant first.
#![tactic(auto)]

ghost use Rattle.std.specs.Prelude.{◌≡◌, ◌≤◌, length};
ghost use Rattle.std.proofs.Math.Option.{none};
ghost use Rattle.records.specs.Answer.{filled_answer};
ghost use Rattle.records.specs.Records.{text_answer, text_left};
ghost use Rattle.decimal.specs.Decimal.{decimal};
ghost use Rattle.records.specs.Over.{over};

use records::{FillError, fits};

// How many digits n is written with.
pub fn decimal_len(n: u64) -> usize
    ensures { result ≡ length (decimal n) }
{
    match n.checked_ilog10() {
        Some(k) => k as usize + 1,
        None => 1,
    }
}

// Writes the digits of n at the front of `out`, which has room for them, and returns how many they are:
// it calls itself on the number divided by ten, then writes the last digit, as the digits are defined.
#[tactic(auto, using(crate::proofs::Laws::length_small, crate::proofs::Laws::length_more))]
fn put_digits(out: &mut [u8], n: u64) -> usize
    requires { length (decimal n) ≤ length out.old }
    ensures count { result ≡ length (decimal n) }
    ensures left { out.new ≡ over (decimal n) out.old }
{
    if n < 10 {
        out[0] = b'0' + n as u8;
        return 1;
    }
    let end = put_digits(out, n / 10);
    out[end] = b'0' + (n % 10) as u8;
    end + 1
}

// Writes the digits of n at the front of `out`, all of them or nothing.
#[tactic(auto, using(std::proofs::lemmas::Bool::Decides::nat_tests), unfolding(records::specs::Records::text_answer, records::specs::Records::text_left, records::specs::Records::put, records::specs::Over::over))]
pub fn put_decimal(out: &mut [u8], n: u64) -> Result<usize, FillError>
    ensures answer { filled_answer result ≡ text_answer none (decimal n) (length out.old) }
    ensures left { out.new ≡ text_left none (decimal n) out.old }
{
    fits(decimal_len(n), out.len())?;
    Ok(put_digits(out, n))
}

// Writes the digits of n at the front of `out`, which has room for those of any number, and returns how many they are.
pub fn put_number(out: &mut [u8; 20], n: u64) -> usize
    ensures count { result ≡ length (decimal n) }
    ensures left { out.new ≡ over (decimal n) out.old }
{
    put_digits(out, n)
}
