// The search for a name: over a good table it finds its entry, and over any table it has an answer.
ghost use Rattle.std.specs.Prelude.{◌≡◌};
ghost use Rattle.name_table.specs.Spelling.{spelled};
ghost use Rattle.name_table.specs.Search.{searched};

use crate::ordering::{compare, plainly};
use crate::{Spelling, Table};
use std::cmp::Ordering;

impl Table<'_, '_> {
    // The entry of the name that the text spells, by halving. How it spells is a parameter of its own: only a search asks both.
    // The library's searches over `ends` tell of an entry its end alone, and where a name starts is the end before it.
    pub fn search(self, how: Spelling, text: &[u8]) -> Option<usize>
        ensures { result ≡ searched self.entry.bytes.now self.entry.ends.now (spelled how text.now) }
    {
        let how = plainly(how, text);
        let mut lo = 0;
        let mut hi = self.ends.len();
        while lo < hi {
            let mid = lo + (hi - lo) / 2;
            match compare(self.name_at(mid), how, text) {
                Ordering::Less => lo = mid + 1,
                Ordering::Equal => return Some(mid),
                Ordering::Greater => hi = mid,
            }
        }
        None
    }
}
