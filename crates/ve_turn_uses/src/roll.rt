//! The roll: the numbers of the seats that signed, in their order.
ghost use Rattle.std.specs.Prelude.{◌≡◌, ◌<◌, ℕ, List, [], ◌∷◌, ◌++◌, IfOk, OnOk, OnErr, slice_index};

use std::alloc::Global;
use std::marker::Model;
use ve_turn::Journaled;
use ve_word::Memory;

#[derive(Drop)]
pub struct Roll {
    seats: Vec<u32>,
}

impl Model for Roll {
    ghost use Rattle.std.specs.Prelude.{ℕ, List};

    ghost Value = { List ℕ };

    ghost view = { λ r. r.seats.items };
}

impl Roll {
    pub fn with_room(alloc: Global, entries: usize) -> Result<Roll, Memory>
        ensures { IfOk result (λ roll. roll ≡ []) }
    {
        let seats = Vec::with_capacity(alloc, entries)?;
        Ok(Roll { seats })
    }

    pub fn sign(&mut self, seat: u32) -> Result<(), Memory>
        ensures signed { OnOk result (self.new ≡ self.old ++ seat ∷ []) }
        ensures refused { OnErr result (self.new ≡ self.old) }
    {
        self.seats.push(seat)?;
        Ok(())
    }

    pub fn clear(&mut self)
        ensures { self.new ≡ [] }
    {
        self.seats.clear();
    }

    pub fn seats(&self) -> &[u32]
        ensures { result.now ≡ self.now }
    {
        self.seats.as_slice()
    }
}

impl Journaled for Roll {
    ghost use Rattle.ve_turn_uses.specs.Signing.{Signs, signs_go_on};

    type Opening = ();

    type Entry = u32;

    type Desk = ();

    ghost opening = { λ _. tt };

    ghost journal = { λ roll. roll };

    ghost seat_of = { λ entry. entry };

    ghost desk = { λ _ _. tt };

    ghost empty_desk = { tt };

    ghost moves = { Signs };

    fn journal_len(&self) -> u64 {
        self.seats.len() as u64
    }

    fn entry_seat(&self, at: u64) -> u32 {
        self.seats[at as usize]
    }

    ghost goes_on = { signs_go_on };
}
