// The parser's own unescape call, over a span that its state reaches.
ghost use Rattle.std.specs.Prelude.{◌≡◌, length};
ghost use Rattle.records.specs.Answer.{checked_answer, filled_answer};
ghost use Rattle.unescape.specs.Unescape.{is_escape};
ghost use Rattle.comment_parser.specs.Own.{escapes_of, own_refusal, own_answer, own_left};

use crate::ParserState;
use records::{FillError, Refusal, check_span, check_state};
use unescape::{Escape, unescape};

// What a span is read as: a Text, in the state's present mode; a Label or a Url; a MathToken.
#[derive(Clone, Copy)]
pub enum Form {
    Text,
    Label,
    Math,
}

impl ParserState {
    fn escape(self, form: Form) -> Escape
        ensures { is_escape result ≡ escapes_of form self }
    {
        match form {
            Form::Text => Escape::Text { html: self.html },
            Form::Label => Escape::Label,
            Form::Math => Escape::Math,
        }
    }

    // 1 for the buffer, 2 for the span, also if it ends past the state's end, 3 for the state.
    #[tactic(auto, unfolding(crate::specs::Own::own_refusal))]
    fn check_own(self, len: usize, start: usize, end: usize) -> Result<(), Refusal>
        ensures { checked_answer result ≡ own_refusal len self start end }
    {
        check_span(len, start, end)?;
        if self.end < end {
            return Err(Refusal::BadSpan);
        }
        check_state(len, self.pos, self.end)
    }

    // The span of `buf`, unescaped as its form says, at the front of `out`: all of it or nothing.
    #[tactic(auto, using(crate::proofs::Answers::own_good), unfolding(records::specs::Records::text_answer, records::specs::Records::text_left))]
    pub fn unescape(
        self,
        form: Form,
        buf: &[u8],
        start: usize,
        end: usize,
        out: &mut [u8],
    ) -> Result<usize, FillError>
        ensures answer { filled_answer result ≡ own_answer (escapes_of form self) self buf.now start end (length out.old) }
        ensures left { out.new ≡ own_left (escapes_of form self) self buf.now start end out.old }
    {
        self.check_own(buf.len(), start, end)?;
        unescape(self.escape(form), buf, start, end, out)
    }
}
