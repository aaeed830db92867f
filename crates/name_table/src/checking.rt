// A table's entries, and the check of a table.
ghost use Rattle.std.specs.Prelude.{◌≡◌};
ghost use Rattle.records.specs.Answer.{checked_answer};
ghost use Rattle.name_table.specs.Table.{end_of, start_of, name_at, not_greater, bad_at, first_bad, table_refusal};

use crate::Table;
use records::Refusal;

impl<'b> Table<'b, '_> {
    // Where entry i's name ends; 0 past the last, as before the first.
    fn end_of(self, i: usize) -> usize
        ensures { result ≡ end_of self.entry.ends.now i }
    {
        self.ends.get(i).copied().unwrap_or(0) as usize
    }

    // Where entry i's name starts: at the end of the one before.
    #[tactic(auto, using(crate::proofs::TableLaws::start_none, crate::proofs::TableLaws::start_before))]
    fn start_of(self, i: usize) -> usize
        ensures { result ≡ start_of self.entry.ends.now i }
    {
        if i == 0 { 0 } else { self.end_of(i - 1) }
    }

    // Entry i's name; where its ends are bad, what lies of it in the bytes.
    pub(crate) fn name_at(self, i: usize) -> &'b [u8]
        ensures { result.now ≡ name_at self.entry.bytes.now self.entry.ends.now i }
    {
        let end = self.end_of(i).min(self.bytes.len());
        let start = self.start_of(i).min(end);
        &self.bytes[start..end]
    }

    // Entry i's name is not greater than the one before. By `cmp` of slices, since neighbours begin alike; `>=` takes longer.
    #[tactic(auto, using(crate::proofs::TableLaws::greater_first))]
    fn not_greater(self, i: usize) -> bool
        ensures { result ≡ not_greater self.entry.bytes.now self.entry.ends.now i }
    {
        0 < i && self.name_at(i - 1).cmp(self.name_at(i)).is_ge()
    }

    #[tactic(auto, unfolding(crate::specs::Table::bad_at))]
    fn bad_at(self, i: usize) -> bool
        ensures { result ≡ bad_at self.entry.bytes.now self.entry.ends.now i }
    {
        let end = self.end_of(i);
        end < self.start_of(i) || self.bytes.len() < end || self.not_greater(i)
    }

    // The first bad entry. After the last, which the bytes must end with, it is the count.
    fn first_bad(self) -> Option<usize>
        ensures { result ≡ first_bad self.entry.bytes.now self.entry.ends.now }
    {
        let count = self.ends.len();
        for i in 0..count {
            if self.bad_at(i) {
                return Some(i);
            }
        }
        if self.start_of(count) == self.bytes.len() {
            None
        } else {
            Some(count)
        }
    }

    // 4 if the table is malformed, with the number that it goes by and its first bad entry.
    pub fn check(self, number: u32) -> Result<(), Refusal>
        ensures { checked_answer result ≡ table_refusal number self.entry.bytes.now self.entry.ends.now }
    {
        match self.first_bad() {
            Some(entry) => Err(Refusal::BadTable {
                table: number,
                entry,
            }),
            None => Ok(()),
        }
    }
}
