ghost use Rattle.std.specs.Prelude.{◌≡◌, ◌+◌, ◌<◌, ◌≤◌, ◌^◌, ◌++◌, All, None, OnErr, OnOk, length, map, vec_len, vec_capacity};
ghost use Rattle.ve_table.specs.Tables.{ActionTable};
ghost use Rattle.ve_table.specs.Sound.{IsSound};
ghost use Rattle.ve_table.specs.Changes.{Grows, next_count};
ghost use Rattle.ve_table.specs.Growth.{CanDefine, entry_of_birth};

use crate::birth::{Birth, births};
use crate::bounds::set_bounds;
use crate::entry::Entry;
use crate::rows::{set_units, take_places};
use crate::{Origin, Table};
use ve_word::Memory;

impl Table {
    /// Raises the level by one, and defines each product of a live id and a letter that reaches it. The product's row is the
    /// unit of its new id.
    pub fn grow_level(&mut self) -> Result<(), Memory>
        requires live { All (λ forward. forward ≡ None) self.old.forwards }
        requires ids { next_count self.old < 2 ^ 32 }
        requires level { self.old.level + 1 < 2 ^ 32 }
        ensures ok { OnOk result (Grows self.old self.new) }
        ensures err { OnErr result (self.new ≡ self.old) }
        ensures sound { IsSound self.new }
    {
        ve_theory::derivations::levels_grow();
        ve_theory::order::reaches_are_bounded();
        let alloc = *self.entries.allocator();
        let level = self.level + 1;
        let births = births(alloc, &self.entries, self.presentation.weights(), level)?;
        let letters = self.presentation.weights().len();
        let ids = self.entries.len();
        // No id is dead, so no forward has to move into the larger room.
        let forwards = Vec::with_capacity(alloc, ids + births.len())?;
        self.entries.reserve(births.len())?;
        take_places(&mut self.rows, ids * letters)?;
        set_units(
            alloc,
            self.rows.as_mut_slice(),
            &births,
            letters,
            ids as u32,
        );
        add_entries(&mut self.entries, &births, level);
        set_bounds(
            self.bounds.as_mut_slice(),
            &self.entries,
            self.presentation.weights(),
            level,
        );
        self.forwards = forwards;
        self.live += births.len() as u32;
        self.level = level;
        Ok(())
    }
}

/// Adds the ids of all births in order.
fn add_entries(entries: &mut Vec<Entry>, births: &[Birth], reach: u32)
    requires births { All (CanDefine entries.old.items) births.now }
    requires room { vec_len entries.old + length births.now ≤ vec_capacity entries.old }
    ensures { entries.new.items ≡ entries.old.items ++ map (entry_of_birth reach entries.old.items) births.now }
{
    for birth in births {
        let Birth { parent, letter } = *birth;
        let length = entries[parent as usize].length + 1;
        let origin = Origin::Child { parent, letter };
        entries.push_reserved(Entry::new(origin, reach, length));
    }
}
