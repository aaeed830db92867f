// The reading rules: what the byte at a place does to the run that it stands in.
ghost use Rattle.std.specs.Prelude.{◌≡◌, ◌-◌, ◌≤◌, ◌<◌, true, length};
ghost use Rattle.byte_rules.specs.Reading.{named};
ghost use Rattle.look.specs.Look.{byte_at};
ghost use Rattle.scans.specs.Marks.{lbracket};
ghost use Rattle.scans.specs.Notes.{Holds, IsNoted};
ghost use Rattle.comment_parser.specs.Rules.{blank_before, opens_ahead, before_open, after_close, after_lf, label_item, tick_rule, tilde_rule, math_rule};
ghost use Rattle.comment_parser.specs.Rules.{html_rule, bracket_rule, newline_rule, opens_italic, open_under, under_rule};
ghost use Rattle.comment_parser.specs.Rules.{plain_rule, text_rule, first_rule, step_to, pass_act};

use crate::{Act, CommentItem, ParserState};
use basics::Span;
use look::{blank_at, byte_at, closer_at, doubled_at, italic_opener_at, word_at};
use scans::labels::{is_url, label_end};
use scans::{Note, Noted, blanks_end, italic_end, subscript_end, tag_stop};

// The buffer's start, or a blank before q.
#[tactic(auto, unfolding(crate::specs::Rules::blank_before))]
pub(crate) fn blank_before(text: &[u8], q: usize) -> bool
    ensures { result ≡ blank_before text.now q }
{
    q == 0 || blank_at(text, q - 1)
}

// `(`, `[`, or a `"` that has a blank or the buffer's start before it.
#[tactic(auto, unfolding(crate::specs::Rules::opens_ahead))]
pub(crate) fn opens_ahead(text: &[u8], q: usize) -> bool
    ensures { result ≡ opens_ahead text.now q }
{
    byte_at(text, q, b'(')
        || byte_at(text, q, b'[')
        || (byte_at(text, q, b'"') && blank_before(text, q))
}

// Where the next run starts after a closing mark or a label that ends at p: one space is dropped before a closer.
#[tactic(auto, unfolding(crate::specs::Rules::after_close))]
pub(crate) fn after_close(text: &[u8], p: usize) -> usize
    requires { p ≤ length text.now }
    ensures { result ≡ after_close text.now p }
{
    if byte_at(text, p, b' ') && closer_at(text, p + 1) {
        p + 1
    } else {
        p
    }
}

// A label's event, for the `~` at p.
#[tactic(auto, unfolding(crate::specs::Rules::label_item))]
pub(crate) fn label_item(text: &[u8], p: usize, a: usize, b: usize) -> CommentItem
    requires { (b ≤ length text.now) × (a ≤ b) }
    ensures { result ≡ label_item text.now p a b }
{
    let at = Span { start: a, end: b };
    if is_url(&text[a..b]) {
        CommentItem::Url(p, at)
    } else {
        CommentItem::Label(p, at)
    }
}

// A place of a run: the text, where the run began, and the place that the rules look at, which lies in the text and not before the run.
#[derive(Clone, Copy)]
pub(crate) struct Here<'a> {
    pub(crate) text: &'a [u8],
    pub(crate) from: usize,
    pub(crate) p: usize,
    ghost behind: { from ≤ p },
    ghost inside: { p < length text.now },
}

impl Here<'_> {
    // Where the run ends before an opening mark here: one space is dropped after an opening byte.
    #[tactic(auto, unfolding(crate::specs::Rules::before_open))]
    fn before_open(self) -> usize
        ensures { result ≡ before_open self.entry.text.now self.entry.from self.entry.p }
    {
        let Self { text, from, p } = self;
        if from + 2 <= p && byte_at(text, p - 1, b' ') && opens_ahead(text, p - 2) {
            p - 1
        } else {
            p
        }
    }

    // A backtick: doubled, it steps two; else it ends the run and toggles math.
    #[tactic(auto, unfolding(crate::specs::Rules::tick_rule))]
    fn tick_rule(self, st: ParserState) -> Act
        ensures { result ≡ tick_rule self.entry.text.now st self.entry.from self.entry.p }
    {
        let Self { text, p, .. } = self;
        if doubled_at(text, p, b'`') {
            return Act::Two;
        }
        if st.math {
            let next = after_close(text, p + 1);
            let item = Some(CommentItem::EndMathMode(p));
            Act::Ends(p, st.in_math(false).moved(next, item))
        } else {
            let item = Some(CommentItem::StartMathMode(p));
            Act::Ends(self.before_open(), st.in_math(true).moved(p + 1, item))
        }
    }

    // A `~`: doubled, it steps two; else it ends the run, and its label is read.
    #[tactic(auto, unfolding(crate::specs::Rules::tilde_rule))]
    fn tilde_rule(self, st: ParserState, note: Note) -> Noted<Act>
        ensures { Holds self.entry.text.now note → IsNoted self.entry.text.now (tilde_rule self.entry.text.now st self.entry.from self.entry.p) result }
    {
        let Self { text, p, .. } = self;
        if doubled_at(text, p, b'~') {
            let value = Act::Two;
            return Noted { value, note };
        }
        let a = blanks_end(text, p + 1);
        let Noted { value: b, note } = label_end(text, a, note);
        let item = Some(label_item(text, p, a, b));
        let next = after_close(text, b);
        let value = Act::Ends(self.before_open(), st.moved(next, item));
        Noted { value, note }
    }

    // In math a nonblank steps one, and a blank ends the token.
    #[tactic(auto, unfolding(crate::specs::Rules::math_rule))]
    fn math_rule(self, st: ParserState) -> Act
        ensures { result ≡ math_rule self.entry.text.now st self.entry.p }
    {
        let Self { text, p, .. } = self;
        if blank_at(text, p) {
            Act::Ends(p, st.moved(p, None))
        } else {
            Act::One
        }
    }

    // A `<`: the HTML mark that turns the mode ends the run.
    #[tactic(auto, unfolding(crate::specs::Rules::html_rule))]
    fn html_rule(self, st: ParserState) -> Act
        ensures { result ≡ html_rule self.entry.text.now st self.entry.p }
    {
        let Self { text, p, .. } = self;
        if st.html {
            if word_at(text, p, b"</HTML>") {
                let item = Some(CommentItem::EndHtml(p));
                return Act::Ends(p, st.in_html(false).moved(p + 7, item));
            }
        } else if word_at(text, p, b"<HTML>") {
            let item = Some(CommentItem::StartHtml(p));
            return Act::Ends(p, st.in_html(true).moved(p + 6, item));
        }
        Act::One
    }

    // A `[`: doubled, it steps two; a tag ends the run. A search that fails is noted, and where a note covers the place none is made.
    #[tactic(auto, using(look::proofs::Laws::byte_within, scans::proofs::TagLaws::tag_at, scans::proofs::TagLaws::covered_nowhere), unfolding(crate::specs::Rules::bracket_rule))]
    fn bracket_rule(self, st: ParserState, note: Note) -> Noted<Act>
        requires { byte_at self.text.now self.p lbracket ≡ true }
        ensures { Holds self.entry.text.now note → IsNoted self.entry.text.now (bracket_rule self.entry.text.now st self.entry.p) result }
    {
        let Self { text, p, .. } = self;
        if doubled_at(text, p, b'[') {
            let value = Act::Two;
            return Noted { value, note };
        }
        let value = Act::One;
        if note.covers(p) {
            return Noted { value, note };
        }
        let stop = tag_stop(text, p + 1);
        if byte_at(text, stop, b']') {
            let tag = Span {
                start: p + 1,
                end: stop,
            };
            let value = Act::Ends(p, st.moved(stop + 1, Some(CommentItem::BibTag(tag))));
            return Noted { value, note };
        }
        let note = Note { from: p, to: stop };
        Noted { value, note }
    }

    // Whether an LF of the run has only blanks between it and here. It looks back no further than to the LF before, so a pass looks at each
    // byte at most once more.
    #[tactic(auto, using(crate::proofs::Laws::lf_none, crate::proofs::Laws::lf_found, crate::proofs::Laws::lf_back, crate::proofs::Laws::lf_not))]
    fn after_lf(self) -> bool
        ensures { result ≡ after_lf self.entry.text.now (self.entry.p - self.entry.from) self.entry.p }
    {
        let Self { text, from, p } = self;
        for i in (from..p).rev() {
            if byte_at(text, i, b'\n') {
                return true;
            }
            if !blank_at(text, i) {
                return false;
            }
        }
        false
    }

    // An LF: where an LF of this run has only blanks after it, this one starts the next run.
    #[tactic(auto, unfolding(crate::specs::Rules::newline_rule))]
    fn newline_rule(self, st: ParserState) -> Act
        ensures { result ≡ newline_rule self.entry.text.now st self.entry.from self.entry.p }
    {
        let p = self.p;
        if self.after_lf() {
            Act::Ends(p, st.moved(p, Some(CommentItem::LineBreak(p))))
        } else {
            Act::One
        }
    }

    // An underscore here may open an italic: else it may open a subscript.
    #[tactic(auto, unfolding(crate::specs::Rules::opens_italic, crate::specs::Rules::blank_before))]
    fn opens_italic(self, st: ParserState) -> bool
        ensures { result ≡ opens_italic self.entry.text.now st self.entry.p }
    {
        let Self { text, p, .. } = self;
        p == st.end_subscript || p == 0 || blank_before(text, p) || italic_opener_at(text, p - 1)
    }

    // An underscore that opens an italic or a subscript ends the run.
    #[tactic(auto, unfolding(crate::specs::Rules::open_under))]
    fn open_under(self, st: ParserState) -> Act
        ensures { result ≡ open_under (named st.reading) self.entry.text.now st self.entry.p }
    {
        let Self { text, p, .. } = self;
        let reading = st.reading;
        if self.opens_italic(st) {
            match italic_end(reading, text, p + 1) {
                Some(q) => {
                    let item = Some(CommentItem::StartItalic(p));
                    Act::Ends(p, st.italic_to(q).moved(p + 1, item))
                }
                None => Act::One,
            }
        } else {
            match subscript_end(reading, text, p + 1) {
                Some(q) => {
                    let item = Some(CommentItem::StartSubscript(p));
                    Act::Ends(p, st.subscript_to(q).moved(p + 1, item))
                }
                None => Act::One,
            }
        }
    }

    // A `_`: doubled, it steps two; at the noted italic end it ends the italic; else it may open one, or a subscript.
    #[tactic(auto, unfolding(crate::specs::Rules::under_rule))]
    fn under_rule(self, st: ParserState) -> Act
        ensures { result ≡ under_rule (named st.reading) self.entry.text.now st self.entry.p }
    {
        let Self { text, p, .. } = self;
        if doubled_at(text, p, b'_') {
            return Act::Two;
        }
        if p == st.end_italic {
            return Act::Ends(p, st.moved(p + 1, Some(CommentItem::EndItalic(p))));
        }
        self.open_under(st)
    }

    // Outside math and HTML: line breaks, italics and subscripts.
    #[tactic(auto, unfolding(crate::specs::Rules::plain_rule))]
    fn plain_rule(self, st: ParserState) -> Act
        ensures { result ≡ plain_rule (named st.reading) self.entry.text.now st self.entry.from self.entry.p }
    {
        let Self { text, p, .. } = self;
        if byte_at(text, p, b'\n') {
            return self.newline_rule(st);
        }
        if byte_at(text, p, b'_') {
            return self.under_rule(st);
        }
        Act::One
    }

    // Outside math.
    #[tactic(auto, unfolding(crate::specs::Rules::text_rule))]
    fn text_rule(self, st: ParserState, note: Note) -> Noted<Act>
        ensures { Holds self.entry.text.now note → IsNoted self.entry.text.now (text_rule (named st.reading) self.entry.text.now st self.entry.from self.entry.p) result }
    {
        let Self { text, p, .. } = self;
        let value = if byte_at(text, p, b'<') {
            self.html_rule(st)
        } else if byte_at(text, p, b'~') {
            return self.tilde_rule(st, note);
        } else if byte_at(text, p, b'[') {
            return self.bracket_rule(st, note);
        } else if st.html {
            Act::One
        } else {
            self.plain_rule(st)
        };
        Noted { value, note }
    }

    // The first rule that applies here.
    #[tactic(auto, unfolding(crate::specs::Rules::first_rule))]
    fn first_rule(self, st: ParserState, note: Note) -> Noted<Act>
        ensures { Holds self.entry.text.now note → IsNoted self.entry.text.now (first_rule (named st.reading) self.entry.text.now st self.entry.from self.entry.p) result }
    {
        let value = if byte_at(self.text, self.p, b'`') {
            self.tick_rule(st)
        } else if st.math {
            self.math_rule(st)
        } else {
            return self.text_rule(st, note);
        };
        Noted { value, note }
    }

    // What happens here.
    #[tactic(auto, unfolding(crate::specs::Rules::pass_act))]
    pub(crate) fn pass_act(self, st: ParserState, note: Note) -> Noted<Act>
        ensures { Holds self.entry.text.now note → IsNoted self.entry.text.now (pass_act (named st.reading) self.entry.text.now st self.entry.from self.entry.p) result }
    {
        let Noted { value: act, note } = self.first_rule(st, note);
        let value = match act {
            Act::One => step_to(st, self.p + 1, act),
            Act::Two => step_to(st, self.p + 2, act),
            Act::Ends(_, _) => act,
        };
        Noted { value, note }
    }
}

// A step to q: at the noted subscript end it ends the run there.
#[tactic(auto, unfolding(crate::specs::Rules::step_to))]
fn step_to(st: ParserState, q: usize, act: Act) -> Act
    ensures { result ≡ step_to st q act }
{
    if q == st.end_subscript {
        Act::Ends(q, st.moved(q, Some(CommentItem::EndSubscript(q))))
    } else {
        act
    }
}
