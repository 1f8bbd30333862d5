ghost use Rattle.std.specs.Prelude.{◌≡◌, ℕ, Option};
ghost use Rattle.std.specs.Option.{option_copied};
ghost use Rattle.ve_theory.specs.Combinations.{Combination};

use crate::Sparse;

/// A partial table of vectors: for each place and letter the product, where it is known.
pub trait Rows {
    ghost rows: { Self → ℕ → ℕ → Option (Combination ℕ) };

    /// The vector in the row of `id` at `letter`, or `None` where there is none.
    fn row(&self, id: u32, letter: u8) -> Option<&Sparse>
        ensures { option_copied result ≡ rows self.now id letter };
}
