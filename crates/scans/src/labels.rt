// Where a label ends, and whether it is a url. A search for a tag that failed is noted, so that no other `[` that it passed is searched again.
ghost use Rattle.std.specs.Prelude.{◌≡◌, ◌≤◌, length};
ghost use Rattle.scans.specs.Ends.{html_mark, label_step, label_end, is_url};
ghost use Rattle.scans.specs.Plain.{is_label_active};
ghost use Rattle.scans.specs.Notes.{Holds, Looked, IsNoted};

use crate::{Note, Noted, Step, tag_stop};
use look::{byte_at, word_at};

// A note, looked at at a place: where a `[` stands there that the note does not cover, its tag is searched, and where it has none that is noted.
#[tactic(auto, using(look::proofs::Laws::byte_within))]
fn tag_note(text: &[u8], at: usize, note: Note) -> Note
    ensures { Holds text.now note → Looked text.now at result }
{
    if note.covers(at) || !byte_at(text, at, b'[') {
        return note;
    }
    let stop = tag_stop(text, at + 1);
    if byte_at(text, stop, b']') {
        note
    } else {
        Note { from: at, to: stop }
    }
}

#[tactic(auto, unfolding(crate::specs::Ends::html_mark))]
fn html_mark(text: &[u8], i: usize) -> bool
    ensures { result ≡ html_mark text.now i }
{
    word_at(text, i, b"<HTML>") || word_at(text, i, b"</HTML>")
}

// What a label does at i.
#[tactic(auto, using(crate::proofs::TagLaws::label_covered, crate::proofs::TagLaws::label_opens, crate::proofs::TagLaws::html_not, crate::proofs::TagLaws::opens_not, look::proofs::Laws::byte_test, look::proofs::Laws::byte_past), unfolding(crate::specs::Ends::label_step, crate::specs::Ends::label_stopper, look::specs::Look::doubled_at))]
fn label_step(text: &[u8], i: usize, note: Note) -> Step
    ensures { Looked text.now i note → result ≡ label_step text.now i }
{
    match text.get(i) {
        Some(b'[') if byte_at(text, i + 1, b'[') => Step::Two,
        Some(b'[') if !note.covers(i) => Step::Stop,
        Some(b'`') if byte_at(text, i + 1, b'`') => Step::Two,
        Some(b'`' | b' ' | b'\r' | b'\n') => Step::Stop,
        Some(b'<') if html_mark(text, i) => Step::Stop,
        _ => Step::One,
    }
}

// A byte that may end a label, or that doubled steps two.
#[tactic(auto, unfolding(crate::specs::Plain::is_label_active))]
fn is_label_active(c: u8) -> bool
    ensures { result ≡ is_label_active c }
{
    matches!(c, b'[' | b'`' | b'<' | b'\n' | b'\r' | b' ')
}

// Where a label that begins at `from` ends, if the note holds. A loop of its own and no `scan`: its rule takes a note and hands one on.
pub fn label_end(text: &[u8], from: usize, note: Note) -> Noted<usize>
    ensures within { (result.value ≤ length text.now) × (from ≤ length text.now → from ≤ result.value) }
    ensures told { Holds text.now note → IsNoted text.now (label_end text.now from) result }
{
    let mut i = from;
    let mut note = note;
    while i < text.len() {
        if is_label_active(text[i]) {
            note = tag_note(text, i, note);
            match label_step(text, i, note) {
                Step::One => i += 1,
                Step::Two => i += 2,
                Step::Stop => return Noted { value: i, note },
            }
        } else {
            i += 1;
        }
    }
    Noted {
        value: text.len(),
        note,
    }
}

// A label is a url if it begins with http:// , https:// or mm.
#[tactic(auto, unfolding(crate::specs::Ends::is_url))]
pub fn is_url(label: &[u8]) -> bool
    ensures { result ≡ is_url label.now }
{
    word_at(label, 0, b"http://") || word_at(label, 0, b"https://") || word_at(label, 0, b"mm")
}
