// Lent tables of names: the names' bytes end to end, and a list of their ends.
#![tactic(auto)]

mod checking;
mod ordering;
mod searching;

ghost use Rattle.std.specs.Prelude.{◌≡◌};
ghost use Rattle.name_table.specs.Lookup.{known_answer, lookup_answer};

use records::Refusal;
use unescape::Escape;

// A table as it is lent. Entry i's name ends at `ends[i]`, and starts where the one before ends.
// Two lifetimes, since a caller may have the two slices from two places, and change one while the other is lent.
#[derive(Clone, Copy)]
pub struct Table<'b, 'e> {
    pub bytes: &'b [u8],
    pub ends: &'e [u32],
}

// How a text spells a name: as it stands, or with escapes. No Option, since a plain text is spelled too.
#[derive(Clone, Copy)]
pub enum Spelling {
    Plain,
    Escaped(Escape),
}

impl Table<'_, '_> {
    // The name's entry, if one has it. A table lent alone is table 1.
    pub fn lookup(self, name: &[u8]) -> Result<Option<usize>, Refusal>
        ensures { known_answer result ≡ lookup_answer self.entry.bytes.now self.entry.ends.now name.now }
    {
        self.check(1)?;
        Ok(self.search(Spelling::Plain, name))
    }
}
