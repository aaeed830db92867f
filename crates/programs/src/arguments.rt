// The reading that a program's arguments ask for.
ghost use Rattle.std.specs.Prelude.{◌≡◌};
ghost use Rattle.programs.specs.Arguments.{asked_for};

use byte_rules::Reading;

// So many arguments, the program's own name among them, and the first one behind it. None asks for the Rust's reading, `--strict` for the strict one.
// Anything else is no reading that the program knows.
#[tactic(auto, using(crate::proofs::Asked::asked_nothing))]
pub fn asked_for(count: usize, first: &[u8]) -> Option<Reading>
    ensures { result ≡ asked_for count first.now }
{
    if count < 2 {
        return Some(Reading::Rust);
    }
    if count == 2 && first == b"--strict".as_slice() {
        Some(Reading::Strict)
    } else {
        None
    }
}
