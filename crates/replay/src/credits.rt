// Ops Q and F: credits and notices, one at a time, and the flags.
use crate::header::{BadCase, Case};
use crate::output::put_record;
use crate::walks::{Steps, put_items, walk};
use parentheticals::{Discouragements, Found, ParentheticalState};
use programs::Writer;
use records::Refusal;

impl Steps for ParentheticalState {
    type Item = Found;

    fn step(self, buf: &[u8]) -> Result<(Self, Option<Found>), Refusal> {
        let stepped = self.next(buf)?;
        Ok((stepped.state, stepped.found))
    }

    fn put(found: Found, output: &mut Writer<'_>) {
        let (kind, author, date) = found.item.parts();
        put_record(
            output,
            u64::from(kind),
            &[
                found.whole.start as u64,
                found.whole.end as u64,
                author.start as u64,
                author.end as u64,
                date.start as u64,
                date.end as u64,
            ],
        );
    }
}

// The steps are made twice, as for S.
pub fn stepping(case: Case<'_>, output: &mut Writer<'_>) -> Result<(), BadCase> {
    let (start, end) = case.span();
    match ParentheticalState::new(case.reading()?, case.payload, start, end) {
        Ok(state) => {
            let walked = walk(state, case.payload, case.header.c);
            let is_end = walked.end.unwrap_or(false);
            output.line(b"Q", &[0, u64::from(walked.count), u64::from(is_end)]);
            put_items(output, state, case.payload, walked.count);
        }
        Err(why) => output.line(b"Q", &[u64::from(why), 0, 0]),
    }
    Ok(())
}

pub fn flagging(case: Case<'_>, output: &mut Writer<'_>) {
    match Discouragements::new(case.payload) {
        Ok(flags) => output.line(
            b"F",
            &[
                0,
                u64::from(flags.modification_discouraged),
                u64::from(flags.usage_discouraged),
            ],
        ),
        Err(why) => output.line(b"F", &[u64::from(why)]),
    }
}
