// The iterator over a span's parentheticals: a state by value.
ghost use Rattle.std.specs.Prelude.{◌≡◌};
ghost use Rattle.byte_rules.specs.Reading.{named};
ghost use Rattle.parentheticals.specs.Answers.{started_answer, start_answer, started_state, start_state, step_answer, next_answer, stepped_state, next_state};

use crate::matching::next_match;
use crate::{ParentheticalState, Stepped};
use byte_rules::Reading;
use records::{Refusal, check_span, check_state};

impl ParentheticalState {
    // A fresh state for the span from `start` to `end`, in the reading that is named.
    #[tactic(auto, unfolding(crate::specs::Answers::start_answer, crate::specs::Answers::start_state))]
    pub fn new(
        reading: Reading,
        buf: &[u8],
        start: usize,
        end: usize,
    ) -> Result<ParentheticalState, Refusal>
        ensures answer { started_answer result ≡ start_answer buf.now start end }
        ensures state { started_state result ≡ start_state reading buf.now start end }
    {
        check_span(buf.len(), start, end)?;
        Ok(ParentheticalState {
            reading,
            position: start,
            end,
        })
    }

    // The leftmost parenthetical from the position on, and the state behind it. A refusal leaves the caller's state as it was.
    #[tactic(auto, using(records::proofs::Answers::state_accepted), unfolding(crate::specs::Answers::next_answer, crate::specs::Answers::next_state))]
    pub fn next(self, buf: &[u8]) -> Result<Stepped, Refusal>
        ensures step { step_answer result ≡ next_answer (named self.reading) buf.now self }
        ensures state { stepped_state self result ≡ next_state (named self.reading) buf.now self }
    {
        check_state(buf.len(), self.position, self.end)?;
        let found = next_match(self.reading, &buf[..self.end], self.position);
        let position = match found {
            Some(found) => found.whole.end,
            None => self.position,
        };
        Ok(Stepped {
            found,
            state: ParentheticalState { position, ..self },
        })
    }
}
