// What an op answers: its lines.
ghost use Rattle.std.specs.Prelude.{◌≡◌, ◌<◌, ◌≤◌, ◌*◌, length, take};
ghost use Rattle.programs.specs.Output.{Gathers};
ghost use Rattle.replay.specs.Hex.{digit_of, hex_of};

use programs::Writer;

// A record as a line: its kind, and its other numbers behind it.
pub fn put_record(output: &mut Writer<'_>, kind: u64, others: &[u64]) {
    output.number(kind);
    output.fields(others);
    output.byte(b'\n');
}

// A hex digit, in lower case. By hand: the contract says which bytes are written.
#[tactic(auto, using(std::proofs::lemmas::Bool::Decides::nat_tests), unfolding(crate::specs::Hex::digit_of))]
fn digit(n: u8) -> u8
    requires { n < 16 }
    ensures { result ≡ digit_of n }
{
    if n < 10 { b'0' + n } else { b'a' + (n - 10) }
}

// Bytes in hex at the front of `digits`. By index and apart from the output: so it is compiled to sixteen digits at a time.
fn put_piece(piece: &[u8], digits: &mut [u8])
    requires { 2 * length piece.now ≤ length digits.old }
    ensures { take (2 * length piece.now) digits.new ≡ hex_of piece.now }
{
    for i in 0..piece.len() {
        digits[2 * i] = digit(piece[i] / 16);
        digits[2 * i + 1] = digit(piece[i] % 16);
    }
}

// Bytes in hex, 64 at a time.
pub fn put_hex(output: &mut Writer<'_>, bytes: &[u8])
    ensures { Gathers (hex_of bytes.now) output.old output.new }
{
    let mut digits = [0u8; 128];
    for piece in bytes.chunks(64) {
        put_piece(piece, &mut digits);
        output.text(&digits[..2 * piece.len()]);
    }
}
