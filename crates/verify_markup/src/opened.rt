// Where math and HTML were opened, along the events.
ghost use Rattle.std.specs.Prelude.{◌≡◌, ◌≤◌, length};
ghost use Rattle.records.specs.Answer.{longest};
ghost use Rattle.verify_markup.specs.Words.{Writes};
ghost use Rattle.verify_markup.specs.List.{is_open, modes_after, last_diags};
ghost use Rattle.verify_markup.specs.Bounds.{Opened};

use crate::Modes;
use crate::diagnostic::Diagnostic;
use crate::laying::lay_option;
use comment_parser::CommentItem;
use records::Wrote;

impl Modes {
    pub(crate) fn in_html(self) -> bool
        ensures { result ≡ is_open self.html }
    {
        self.html.is_some()
    }

    pub(crate) fn after(self, item: CommentItem) -> Self
        ensures { result ≡ modes_after self item }
    {
        match item {
            CommentItem::StartMathMode(i) => Modes {
                math: Some(i),
                ..self
            },
            CommentItem::EndMathMode(_) => Modes { math: None, ..self },
            CommentItem::StartHtml(i) => Modes {
                html: Some(i),
                ..self
            },
            CommentItem::EndHtml(_) => Modes { html: None, ..self },
            _ => self,
        }
    }
}

// Math, then HTML, where it is open at the end of the span.
pub(crate) fn lay_last(modes: Modes, end: usize, room: &mut [u32]) -> Wrote
    requires { Opened modes.math × Opened modes.html × (end ≤ longest) }
    ensures { Writes (last_diags end modes) room.old room.new result }
{
    let math = modes.math.map(|i| Diagnostic::UnclosedMathMarkup(i, end));
    let html = modes.html.map(|i| Diagnostic::UnclosedHtml(i, end));
    let wrote = lay_option(math, room);
    wrote.then(lay_option(html, &mut room[wrote.words..]))
}
