// How a comment is read: as the Rust reads it, or strictly. The two readings differ in three byte tests, and in nothing else.
ghost use Rattle.std.specs.Prelude.{◌≡◌};
ghost use Rattle.byte_rules.specs.Reading.{is_mark, named};

// A reading, chosen by name.
#[derive(Clone, Copy, PartialEq, Eq)]
pub enum Reading {
    Rust,
    Strict,
}

// A backtick, `~`, `[` or `<`. Most bytes are small letters, which lie between them: two comparisons tell one, where a `match` over the four
// takes four.
#[tactic(auto, unfolding(crate::specs::Reading::is_mark))]
fn is_mark(c: u8) -> bool
    ensures { result ≡ is_mark c }
{
    match c {
        b'a'.. => c == b'~',
        _ => matches!(c, b'`' | b'[' | b'<'),
    }
}

// Three tests, as document 01 has three changes; the first two hold of the same bytes.
impl Reading {
    // A byte at which a subscript ends, and with which none can begin, beside blanks and closers.
    #[tactic(auto, unfolding(crate::specs::Reading::bars_nothing))]
    pub fn bars_subscript(self, c: u8) -> bool
        ensures { result ≡ (named self).bars_subscript c }
    {
        self == Reading::Strict && is_mark(c)
    }

    // A byte that may not stand between an italic's `_` and its end.
    #[tactic(auto, unfolding(crate::specs::Reading::bars_nothing))]
    pub fn bars_italic(self, c: u8) -> bool
        ensures { result ≡ (named self).bars_italic c }
    {
        self == Reading::Strict && is_mark(c)
    }

    // A byte that no author holds, beside `,` and `)`.
    #[tactic(auto, unfolding(crate::specs::Reading::bars_nothing, crate::specs::Reading::is_opening))]
    pub fn bars_author(self, c: u8) -> bool
        ensures { result ≡ (named self).bars_author c }
    {
        self == Reading::Strict && c == b'('
    }
}
