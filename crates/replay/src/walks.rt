// Steps of what gives one item after the other: a parser, and a search for parentheticals.
use programs::Writer;
use records::Refusal;

pub trait Steps: Copy {
    type Item: Copy;

    // The state after a step, and the item that it gives: none at the end.
    fn step(self, buf: &[u8]) -> Result<(Self, Option<Self::Item>), Refusal>;

    // The line of an item.
    fn put(item: Self::Item, output: &mut Writer<'_>);
}

// What some steps came to: how many items there were, the state after the last step, and whether that answered the end, or its refusal.
#[derive(Clone, Copy)]
pub struct Walked<S> {
    pub count: u32,
    pub state: S,
    pub end: Result<bool, Refusal>,
}

// At most `most` steps.
pub fn walk<S: Steps>(from: S, buf: &[u8], most: u32) -> Walked<S> {
    let mut state = from;
    for count in 0..most {
        match state.step(buf) {
            Ok((after, Some(_))) => state = after,
            Ok((after, None)) => {
                return Walked {
                    count,
                    state: after,
                    end: Ok(true),
                };
            }
            Err(why) => {
                return Walked {
                    count,
                    state,
                    end: Err(why),
                };
            }
        }
    }
    Walked {
        count: most,
        state,
        end: Ok(false),
    }
}

// The lines of the first `count` items.
pub fn put_items<S: Steps>(output: &mut Writer<'_>, from: S, buf: &[u8], count: u32) {
    let mut state = from;
    for _ in 0..count {
        let Ok((after, given)) = state.step(buf) else {
            return;
        };
        state = after;
        let Some(item) = given else {
            return;
        };
        S::put(item, output);
    }
}
