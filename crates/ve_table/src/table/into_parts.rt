ghost use Rattle.std.specs.Prelude.{◌≡◌, IfOk, map};
ghost use Rattle.ve_table.specs.Parts.{ArePartsOf, HasAllRows};

use crate::by_letter::rows_by_letter;
use crate::entry::Entry;
use crate::{Origin, Parts, Table};
use ve_word::Memory;

impl Table {
    /// The parts of the table. Its vectors are moved.
    pub fn into_parts(self) -> Result<Parts, Memory>
        requires { HasAllRows self }
        ensures { IfOk result (ArePartsOf self) }
    {
        let letters = self.presentation.weights().len();
        let ids = self.entries.len();
        let Table {
            presentation,
            level,
            entries,
            rows,
            images,
            ..
        } = self;
        let origins = origins_of(entries)?;
        let rows = rows_by_letter(rows, letters, ids)?;
        Ok(Parts {
            presentation,
            level,
            origins,
            images,
            rows,
        })
    }
}

/// Where the words of all ids come from.
fn origins_of(entries: Vec<Entry>) -> Result<Vec<Origin>, Memory>
    ensures { IfOk result (λ origins. origins.items ≡ map (λ (e : Entry). e.origin) entries.items) }
{
    let mut origins = Vec::with_capacity(*entries.allocator(), entries.len())?;
    for entry in &entries {
        origins.push_reserved(entry.origin);
    }
    Ok(origins)
}
