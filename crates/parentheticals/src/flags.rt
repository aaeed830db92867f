// The two notices, anywhere in a buffer.
ghost use Rattle.std.specs.Prelude.{◌≡◌, ◌∷◌};
ghost use Rattle.scans.specs.Marks.{lparen};
ghost use Rattle.parentheticals.specs.Fields.{phrase_at};
ghost use Rattle.parentheticals.specs.Matching.{stands_in};
ghost use Rattle.parentheticals.specs.Answers.{flagged_answer, discouragements_answer};

use crate::Discouragements;
use crate::fields::{phrase_at, sign_at};
use crate::matching::{NEW_USAGE, PROOF_MODIFICATION};
use records::{Refusal, check_length};

// A `(`, and the words behind it.
#[tactic(auto, unfolding(crate::specs::Fields::phrase_at))]
fn opened_at(words: &[u8], text: &[u8], at: usize) -> Option<usize>
    ensures { result ≡ phrase_at (lparen ∷ words.now) text.now at }
{
    let behind = sign_at(b'(', text, at)?;
    phrase_at(words, text, behind)
}

// Whether the notice with these words stands anywhere.
fn stands_in(words: &[u8], text: &[u8]) -> bool
    ensures { result ≡ stands_in (lparen ∷ words.now) text.now 0 }
{
    (0..text.len()).any(|i| opened_at(words, text, i).is_some())
}

impl Discouragements {
    // Whether modification of the proof, and new usage, are discouraged.
    #[tactic(auto, unfolding(crate::specs::Answers::discouragements_answer))]
    pub fn new(buf: &[u8]) -> Result<Discouragements, Refusal>
        ensures { flagged_answer result ≡ discouragements_answer buf.now }
    {
        check_length(buf.len())?;
        Ok(Discouragements {
            modification_discouraged: stands_in(PROOF_MODIFICATION, buf),
            usage_discouraged: stands_in(NEW_USAGE, buf),
        })
    }
}
