//! What the table keeps for an id beside its rows.

ghost use Rattle.std.specs.Prelude.{◌≡◌, ◌≤◌, ◌↔◌, IsTrue, length, nat_eq};
ghost use Rattle.std.specs.Option.{option_copied};
ghost use Rattle.ve_table.specs.Deaths.{forward_of};
ghost use Rattle.ve_table.specs.Numbers.{CanNumberEntry, HasParentBelow, IsNumbered, numbered_origin};

use crate::Origin;
use ve_vec::Sparse;

/// One id: where its word comes from, and whether it is dead.
#[derive(Clone, Copy)]
pub(crate) struct Entry {
    pub(crate) origin: Origin,
    // Of the word: the sum of its letters' weights, and how many letters it has.
    pub(crate) reach: u32,
    pub(crate) length: u32,
    // 0 where the id is live, else 1 more than the place of its forward in the list of the table.
    pub(crate) death: u32,
}

impl Entry {
    /// A live id.
    pub(crate) fn new(origin: Origin, reach: u32, length: u32) -> Entry
        ensures origin { result.origin ≡ origin }
        ensures own_reach { result.reach ≡ reach }
        ensures own_length { result.length ≡ length }
        ensures live { result.death ≡ 0 }
    {
        Entry {
            origin,
            reach,
            length,
            death: 0,
        }
    }

    pub(crate) fn is_live(&self) -> bool
        ensures live { IsTrue result ↔ (self.now.death ≡ 0) }
        ensures value { result ≡ nat_eq self.now.death 0 }
    {
        self.death == 0
    }

    /// The vector that stands for the id once it is dead.
    pub(crate) fn forward<'a>(&self, forwards: &'a [Sparse]) -> Option<&'a Sparse>
        requires { self.now.death ≤ length forwards.now }
        ensures { option_copied result ≡ forward_of forwards.now self.now.death }
    {
        let place = self.death.checked_sub(1)?;
        Some(&forwards[place as usize])
    }

    /// Names the parent by its new number.
    pub(crate) fn renumber(&mut self, numbers: &[u32])
        requires { CanNumberEntry numbers.now self.old }
        ensures { IsNumbered numbers.now self.old self.new }
    {
        self.origin = renumbered(self.origin, numbers);
    }
}

fn renumbered(origin: Origin, numbers: &[u32]) -> Origin
    requires { HasParentBelow (length numbers.now) origin }
    ensures { result ≡ numbered_origin numbers.now origin }
{
    match origin {
        Origin::Root(root) => Origin::Root(root),
        Origin::Child { parent, letter } => Origin::Child {
            parent: numbers[parent as usize],
            letter,
        },
    }
}
