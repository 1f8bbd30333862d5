//! Products along the words of a relator. What a word shares with the word before isn't traced again.

ghost use Rattle.std.specs.Prelude.{◌≡◌, ◌≤◌, ◌<◌, [], All, IfOk, OnOk, length, nat_eq, take};
ghost use Rattle.ve_theory.specs.Combinations.{IsReducedOf, unit};
ghost use Rattle.ve_vec.specs.Tracing.{AreReduced, CanTrace, CanTraceElement, PartialTable, vector_times_element};
ghost use Rattle.ve_trace.specs.Prefixes.{AreAllPrefixes, ArePrefixes};

use crate::times::times_letter;
use std::alloc::Global;
use ve_field::Field;
use ve_pres::FreeAlg;
use ve_vec::{Rows, Sparse};
use ve_word::Memory;

/// An id times the first letters of a word: times none, times the first, and so on.
#[derive(Drop)]
struct Walk {
    id: u32,
    products: Vec<Sparse>,
}

/// The vector of an id times a relator, word after word.
pub(crate) fn walk_relator<R: Rows>(
    alloc: Global,
    rows: &R,
    field: &Field,
    id: u32,
    relator: &FreeAlg,
) -> Result<Sparse, Memory>
    requires rows { AreReduced field.now (R.rows rows.now) }
    requires residues { All (λ t. t.1 < field.now) relator.now }
    requires found { CanTraceElement field.now (R.rows rows.now) (unit id) relator.now }
    ensures { IfOk result (λ v. IsReducedOf ◌<◌ nat_eq field.now v (vector_times_element (R.rows rows.now) (unit id) relator.now)) }
{
    let mut walk = start_walk(alloc, field, id)?;
    let mut before: &[u8] = &[];
    let mut sum = Sparse::zero(alloc);
    for at in 0..relator.term_count() {
        let letters = relator.word_at(at).as_slice();
        walk.products.truncate(shared(before, letters) + 1);
        walk.go_on(alloc, rows, field, letters)?;
        sum.add_scaled(field, relator.coef_at(at), &walk.products[letters.len()])?;
        before = letters;
    }
    Ok(sum)
}

/// An id times no letters.
fn start_walk(alloc: Global, field: &Field, id: u32) -> Result<Walk, Memory>
    ensures id { IfOk result (λ walk. walk.id ≡ id) }
    ensures products { IfOk result (λ walk. (rows : PartialTable) → AreAllPrefixes field.now rows (unit id) [] walk.products.items) }
{
    // One is an element of each field.
    field.has_prime();
    let mut products = Vec::new(alloc);
    products.push(Sparse::unit(alloc, id))?;
    Ok(Walk { id, products })
}

/// How many letters two words share at their front.
fn shared(before: &[u8], letters: &[u8]) -> usize
    ensures before { result ≤ length before.now }
    ensures letters { result ≤ length letters.now }
    ensures same { take result before.now ≡ take result letters.now }
{
    let mut at = 0;
    while at < before.len() && at < letters.len() && before[at] == letters[at] {
        at += 1;
    }
    at
}

impl Walk {
    /// Goes on from the products with first letters of a word to those with all its letters.
    fn go_on<R: Rows>(
        &mut self,
        alloc: Global,
        rows: &R,
        field: &Field,
        letters: &[u8],
    ) -> Result<(), Memory>
        requires rows { AreReduced field.now (R.rows rows.now) }
        requires found { CanTrace field.now (R.rows rows.now) (unit self.old.id) letters.now }
        requires products { ArePrefixes field.now (R.rows rows.now) (unit self.old.id) letters.now self.old.products.items }
        ensures id { self.new.id ≡ self.old.id }
        ensures products { OnOk result (AreAllPrefixes field.now (R.rows rows.now) (unit self.old.id) letters.now self.new.products.items) }
    {
        for at in self.products.len() - 1..letters.len() {
            let product = times_letter(alloc, rows, field, &self.products[at], letters[at])?;
            self.products.push(product)?;
        }
        Ok(())
    }
}
