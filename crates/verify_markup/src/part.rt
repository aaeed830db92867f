// The spans of a buffer that the check reads.
ghost use Rattle.std.specs.Prelude.{◌≡◌, ◌≤◌, take};
ghost use Rattle.records.specs.Answer.{longest};
ghost use Rattle.unescape.specs.Unescape.{part};
ghost use Rattle.verify_markup.specs.Bounds.{InBuf};

use basics::Span;

// A span of a buffer whose places fit a word of 32 bits.
#[derive(Clone, Copy)]
pub(crate) struct Part<'a> {
    pub(crate) buf: &'a [u8],
    pub(crate) span: Span,
    ghost in_buf: { InBuf buf.now span },
}

// A Label or a Url: the place of its tilde, which fits a word too, and its text.
#[derive(Clone, Copy)]
pub(crate) struct Link<'a> {
    pub(crate) tilde: usize,
    pub(crate) part: Part<'a>,
    ghost fits: { tilde ≤ longest },
}

impl<'a> Part<'a> {
    // Its bytes.
    pub(crate) fn bytes(self) -> &'a [u8]
        ensures { result.now ≡ part self.entry.buf.now self.entry.span.start self.entry.span.end }
    {
        &self.buf[self.span.start..self.span.end]
    }

    // The buffer up to its end.
    pub(crate) fn until_end(self) -> &'a [u8]
        ensures { result.now ≡ take self.entry.span.end self.entry.buf.now }
    {
        &self.buf[..self.span.end]
    }
}
