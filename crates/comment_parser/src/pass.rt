// A pass: the run from the current position to what ends it, and the event that comes of it.
ghost use Rattle.std.specs.Prelude.{◌≡◌, ◌≤◌, length};
ghost use Rattle.byte_rules.specs.Reading.{named};
ghost use Rattle.scans.specs.Notes.{Holds, IsNoted};
ghost use Rattle.comment_parser.specs.Pass.{pass, run_start, run_item};
ghost use Rattle.comment_parser.specs.Next.{read_on};
ghost use Rattle.comment_parser.specs.Notes.{Skipped};

use crate::rules::Here;
use crate::{Act, CommentItem, Next, ParserState, Run, give};
use basics::Span;
use scans::plain::plain_end;
use scans::{Note, Noted, blanks_end};

// The next place from p on at which a rule may act: outside math the plain bytes are stepped over, up to the noted subscript end.
pub(crate) fn skip(text: &[u8], st: ParserState, p: usize) -> usize
    ensures { Skipped text.now st p result }
{
    if st.math {
        return p;
    }
    let noted = st.end_subscript;
    let q = plain_end(text, p);
    if p < noted && noted <= q {
        noted - 1
    } else {
        q
    }
}

// The run from `from`, to what ends it.
pub(crate) fn pass(text: &[u8], st: ParserState, from: usize, note: Note) -> Noted<Run>
    ensures { Holds text.now note → IsNoted text.now (pass (named st.reading) text.now st from) result }
{
    let mut p = from;
    let mut note = note;
    // By index: a step is one byte or two, or over all plain bytes at once.
    loop {
        p = skip(text, st, p);
        if text.len() <= p {
            let end = text.len();
            let after = st.moved(end, None);
            return Noted {
                value: Run { end, after },
                note,
            };
        }
        let here = Here { text, from, p };
        let acted = here.pass_act(st, note);
        note = acted.note;
        match acted.value {
            Act::One => p += 1,
            Act::Two => p += 2,
            Act::Ends(end, after) => {
                return Noted {
                    value: Run { end, after },
                    note,
                };
            }
        }
    }
}

// In math, blanks are skipped before the run.
#[tactic(auto, unfolding(crate::specs::Pass::run_start))]
pub(crate) fn run_start(text: &[u8], st: ParserState) -> usize
    ensures { result ≡ run_start text.now st }
{
    let pos = st.pos;
    if st.math { blanks_end(text, pos) } else { pos }
}

#[tactic(auto, unfolding(crate::specs::Pass::run_item))]
pub(crate) fn run_item(st: ParserState, start: usize, end: usize) -> CommentItem
    ensures { result ≡ run_item st start end }
{
    let run = Span { start, end };
    if st.math {
        CommentItem::MathToken(run)
    } else {
        CommentItem::Text(run)
    }
}

// The run, if it is not empty, and then what ended it.
#[tactic(auto, unfolding(crate::specs::Next::read_on))]
pub(crate) fn read_on(text: &[u8], st: ParserState, note: Note) -> Noted<Next>
    ensures { Holds text.now note → IsNoted text.now (read_on (named st.reading) text.now st) result }
{
    let from = run_start(text, st);
    let Noted { value: run, note } = pass(text, st, from, note);
    if from < run.end {
        let state = run.after;
        let item = Some(run_item(st, from, run.end));
        Noted {
            value: Next { state, item },
            note,
        }
    } else {
        Noted {
            value: give(run.after),
            note,
        }
    }
}
