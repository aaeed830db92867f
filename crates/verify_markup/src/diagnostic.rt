// The diagnostics, with the Rust's names, and their records.
ghost use Rattle.std.specs.Prelude.{◌≡◌, ◌≤◌};
ghost use Rattle.records.specs.Answer.{longest};
ghost use Rattle.verify_markup.specs.Diag.{diag};
ghost use Rattle.verify_markup.specs.Words.{FitsWords, words_of};

use basics::Span;

// How many words a diagnostic's record has: kind, three numbers, line.
pub const DIAG_WIDTH: usize = 5;

// A diagnostic, with the places that the Rust carries.
#[derive(Clone, Copy)]
pub(crate) enum Diagnostic {
    MarkupNeedsWhitespace(usize),
    UninterpretedEscape(usize),
    UninterpretedHtml(Span),
    UndefinedToken(Span),
    EmptyLabel(usize),
    UnknownLabel(Span),
    BibEscape(usize, Span),
    UndefinedBibTag(Span),
    UnclosedMathMarkup(usize, usize),
    UnclosedHtml(usize, usize),
}

// A record's words, but for its line.
fn record_words(kind: u32, a: usize, b: usize, c: usize) -> [u32; DIAG_WIDTH]
    requires { (a ≤ longest) × (b ≤ longest) × (c ≤ longest) }
    ensures { result ≡ diag kind a b c }
{
    [kind, a as u32, b as u32, c as u32, 0]
}

impl Diagnostic {
    // The words of its record, but for its line.
    pub(crate) fn words(self) -> [u32; DIAG_WIDTH]
        requires { FitsWords self }
        ensures { result ≡ words_of self }
    {
        match self {
            Diagnostic::MarkupNeedsWhitespace(mark) => record_words(1, mark, 0, 0),
            Diagnostic::UninterpretedEscape(byte) => record_words(2, byte, 0, 0),
            Diagnostic::UninterpretedHtml(s) => record_words(3, s.start, s.end, 0),
            Diagnostic::UndefinedToken(s) => record_words(4, s.start, s.end, 0),
            Diagnostic::EmptyLabel(tilde) => record_words(5, tilde, 0, 0),
            Diagnostic::UnknownLabel(s) => record_words(6, s.start, s.end, 0),
            Diagnostic::BibEscape(byte, s) => record_words(7, byte, s.start, s.end),
            Diagnostic::UndefinedBibTag(s) => record_words(8, s.start, s.end, 0),
            Diagnostic::UnclosedMathMarkup(opening, end) => record_words(9, opening, end, 0),
            Diagnostic::UnclosedHtml(opening, end) => record_words(10, opening, end, 0),
        }
    }
}
