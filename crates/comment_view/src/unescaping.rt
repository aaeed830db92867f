// The parser's own unescape call, over a view.
ghost use Rattle.std.specs.Prelude.{◌≡◌, length};
ghost use Rattle.records.specs.Answer.{filled_answer};
ghost use Rattle.comment_view.specs.Unescaping.{form_answer, form_left};

use crate::View;
use comment_parser::Form;
use records::FillError;

impl<'a> View<'a> {
    // Unescapes a span that the view's state reaches, a Text in the state's present mode. The answers are those of the parser's own call.
    pub fn unescape(
        self,
        form: Form,
        start: usize,
        end: usize,
        out: &mut [u8],
    ) -> Result<usize, FillError>
        ensures { (filled_answer result ≡ form_answer form self.entry.state self.entry.buf.now start end (length out.old))
            × (out.new ≡ form_left form self.entry.state self.entry.buf.now start end out.old) }
    {
        self.state.unescape(form, self.buf, start, end, out)
    }
}
