// Document 01's answers, and records written into an area that the caller lends.
#![tactic(auto)]

ghost use Rattle.std.specs.Prelude.{◌≡◌, [], ◌∷◌, length, cond, leb, Ok, Err};
ghost use Rattle.records.specs.Answer.{checked_answer, refusal_answer, limit_refusal, places_refusal, length_refusal, span_refusal, state_refusal, input_refusal};
ghost use Rattle.records.specs.Records.{laid, wrote_of, wrapped_sum};
ghost use Rattle.records.specs.declared.FillError.TheVariants.{Short};

// The most bytes of a buffer.
pub const LONGEST: usize = 4294967295;

// The most bytes of a program's input.
pub const INPUT_LIMIT: usize = 65536;

// Why a call or a program refuses its input: document 01's numbers 1 to 6 and 8, in its order.
#[derive(Clone, Copy)]
pub enum Refusal {
    TooLong,
    BadSpan,
    BadState,
    BadTable { table: u32, entry: usize },
    NoDate,
    BadMonth,
    InputTooLong,
}

// Document 01's number of a refusal.
impl From<Refusal> for u64 {
    ghost use Rattle.records.specs.Answer.{refusal_answer};

    ghost from_gives = { λ why n. n ≡ (refusal_answer why).number };

    fn from(why: Refusal) -> u64 {
        match why {
            Refusal::TooLong => 1,
            Refusal::BadSpan => 2,
            Refusal::BadState => 3,
            Refusal::BadTable { table: _, entry: _ } => 4,
            Refusal::NoDate => 5,
            Refusal::BadMonth => 6,
            Refusal::InputTooLong => 8,
        }
    }
}

// Why lent room was not filled with all that there is: it is too short for so many records or bytes, or the call refuses its input.
#[derive(Clone, Copy)]
pub enum FillError {
    Short(usize),
    Refused(Refusal),
}

impl From<Refusal> for FillError {
    ghost use Rattle.records.specs.declared.FillError.{FillError};

    ghost from_gives = { λ why e. e ≡ FillError.Refused why };

    fn from(why: Refusal) -> FillError {
        FillError::Refused(why)
    }
}

// What a writer of some records did: the words that it wrote, and how many records there were.
#[derive(Clone, Copy)]
pub struct Wrote {
    pub words: usize,
    pub count: usize,
}

impl Wrote {
    pub const NOTHING: Wrote = Wrote { words: 0, count: 0 };

    // What two writers did, of which the second was lent the room behind the first one's words. No room has so many words that a sum wraps.
    pub fn then(self, next: Wrote) -> Wrote
        ensures { result ≡ wrapped_sum self next }
    {
        Wrote {
            words: self.words.wrapping_add(next.words),
            count: self.count.wrapping_add(next.count),
        }
    }
}

// So many bytes, of which at most `most` are taken.
fn check_limit(len: usize, most: usize, why: Refusal) -> Result<(), Refusal>
    ensures { checked_answer result ≡ limit_refusal (refusal_answer why) most len }
{
    if most < len { Err(why) } else { Ok(()) }
}

// A buffer of `len` bytes: 1 if it is too long.
#[tactic(auto, unfolding(crate::specs::Answer::length_refusal))]
pub fn check_length(len: usize) -> Result<(), Refusal>
    ensures { checked_answer result ≡ length_refusal len }
{
    check_limit(len, LONGEST, Refusal::TooLong)
}

// A program's input of `len` bytes: 8 if it is too long.
#[tactic(auto, unfolding(crate::specs::Answer::input_refusal))]
pub fn check_input(len: usize) -> Result<(), Refusal>
    ensures { checked_answer result ≡ input_refusal len }
{
    check_limit(len, INPUT_LIMIT, Refusal::InputTooLong)
}

// The places from `from` to `to` of a buffer of `len` bytes: 1 if the buffer is too long, else the refusal that is given if they are none of it.
fn check_places(len: usize, from: usize, to: usize, why: Refusal) -> Result<(), Refusal>
    ensures { checked_answer result ≡ places_refusal (refusal_answer why) len from to }
{
    if LONGEST < len {
        return Err(Refusal::TooLong);
    }
    if (to < from) | (len < to) {
        return Err(why);
    }
    Ok(())
}

// A span of a buffer of `len` bytes: 1 if the buffer is too long, 2 if the span is not one of it.
#[tactic(auto, unfolding(crate::specs::Answer::span_refusal))]
pub fn check_span(len: usize, start: usize, end: usize) -> Result<(), Refusal>
    ensures { checked_answer result ≡ span_refusal len start end }
{
    check_places(len, start, end, Refusal::BadSpan)
}

// A state at `pos` that reads to `end`, of a buffer of `len` bytes: 1 if the buffer is too long, 3 if the state is none of it.
#[tactic(auto, unfolding(crate::specs::Answer::state_refusal))]
pub fn check_state(len: usize, pos: usize, end: usize) -> Result<(), Refusal>
    ensures { checked_answer result ≡ state_refusal len pos end }
{
    check_places(len, pos, end, Refusal::BadState)
}

// What a call that fills lent room answers to so many records or bytes, of which at most `most` fit.
pub fn fits(count: usize, most: usize) -> Result<usize, FillError>
    ensures { result ≡ cond (leb count most) (Ok count) (Err (Short count)) }
{
    if count <= most {
        Ok(count)
    } else {
        Err(FillError::Short(count))
    }
}

// Writes a record, of as many words as it has, at the front of `room` if it fits, else leaves the room: a writer of one record.
#[tactic(auto, using(crate::proofs::Laws::lay_counts, crate::proofs::Laws::lay_leaves, crate::proofs::Laws::lay_told, crate::proofs::Laws::lay_writes, crate::proofs::Laws::lay_writes_from))]
pub fn lay(room: &mut [u32], words: &[u32]) -> Wrote
    ensures wrote { result ≡ wrote_of (length words.now) (words.now ∷ []) (length room.old) }
    ensures left { room.new ≡ laid (length words.now) (words.now ∷ []) room.old }
{
    let width = words.len();
    if room.len() < width {
        return Wrote { words: 0, count: 1 };
    }
    room[..width].copy_from_slice(words);
    Wrote {
        words: width,
        count: 1,
    }
}
