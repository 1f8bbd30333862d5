//! Values with a journal.
ghost use Rattle.std.specs.Prelude.{◌≡◌, ℕ, ◌<◌, List, length, map, slice_get, Some};
ghost use Rattle.ve_turn.specs.Journal.{GoesOn};

/// A value with an opening that stays, a journal that only grows, each entry by one seat, and a desk for each seat.
/// The three types are plain data, of which contracts alone speak.
pub trait Journaled {
    type Opening;

    type Entry;

    type Desk;

    ghost opening: { Self → Self.Opening };

    ghost journal: { Self → List Self.Entry };

    ghost seat_of: { Self.Entry → ℕ };

    ghost desk: { Self → ℕ → Self.Desk };

    ghost empty_desk: { Self.Desk };

    // What the seat may lay back after a turn that met the first value.
    ghost moves: { ℕ → Self → Self → Type 0 };

    fn journal_len(&self) -> u64
        ensures { result ≡ length (journal self.now) };

    /// The seat of the entry at this place.
    fn entry_seat(&self, at: u64) -> u32
        requires { at < length (journal self.now) }
        ensures { slice_get (map seat_of (journal self.now)) at ≡ Some result };

    ghost goes_on: { (seat : ℕ) (before after : Self) → moves seat before after → GoesOn opening journal seat_of desk seat before after };
}
