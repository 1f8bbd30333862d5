//! Where the ids of the rows lie that the ids of a vector have at a letter.

ghost use Rattle.std.specs.Prelude.{◌≡◌, ℕ, ◌<◌, ◌≤◌, IsTrue, length};
ghost use Rattle.ve_theory.specs.Combinations.{IsReduced};
ghost use Rattle.ve_vec.specs.Spans.{AllBetween};
ghost use Rattle.ve_vec.specs.Tracing.{AreReduced};
ghost use Rattle.ve_trace.specs.Parts.{AreRowsBetween, HasRows};

use crate::sums::row_at;
use ve_vec::{Rows, Sparse};

/// How many ids of the span there may be for each term of the rows.
const IDS_A_TERM: u32 = 16;

/// Up to how many terms find their places in a sum soon, wherever they lie.
const FEW_TERMS: usize = 64;

/// Where the ids of some rows lie, and how many terms they have.
#[derive(Drop)]
pub(crate) struct Spread {
    pub(crate) low: u32,
    pub(crate) high: u32,
    terms: usize,
    falls: bool,
}

/// Where the ids of some rows lie.
pub(crate) fn spread_of_rows<R: Rows>(
    rows: &R,
    vector: &Sparse,
    letter: u8,
    from: usize,
    to: usize,
) -> Spread
    requires found { HasRows (R.rows rows.now) vector.now letter }
    requires within { to ≤ length vector.now }
    ensures { (p : ℕ) → AreReduced p (R.rows rows.now) → AreRowsBetween (R.rows rows.now) vector.now letter from to result.low result.high }
{
    let mut spread = Spread {
        low: u32::MAX,
        high: 0,
        terms: 0,
        falls: true,
    };
    for at in from..to {
        spread.take_in(row_at(rows, vector.term(at).id, letter));
    }
    spread
}

impl Spread {
    /// Whether the ids fall from row to row too, so that each row is appended to the sum of those before it.
    pub(crate) fn falls(&self) -> bool {
        self.falls
    }

    /// Whether there are many terms against the span.
    pub(crate) fn is_dense(&self) -> bool
        ensures { IsTrue result → self.now.low ≤ self.now.high }
    {
        self.low <= self.high && ((self.high - self.low) / IDS_A_TERM) as usize <= self.terms
    }

    /// Whether the terms are so few that adding one row after another costs less than adding up halves.
    pub(crate) fn has_few_terms(&self) -> bool {
        self.terms <= FEW_TERMS
    }

    /// Takes one more row in.
    fn take_in(&mut self, row: &Sparse)
        ensures low { self.new.low ≤ self.old.low }
        ensures high { self.old.high ≤ self.new.high }
        ensures between { (p : ℕ) → IsReduced ◌<◌ p row.now → AllBetween self.new.low self.new.high row.now }
    {
        let Some(first) = row.leading() else {
            return;
        };
        let last = row.term(row.len() - 1);
        self.falls = self.falls && first.id < self.low;
        self.low = self.low.min(last.id);
        self.high = self.high.max(first.id);
        self.terms = self.terms.saturating_add(row.len());
    }
}
