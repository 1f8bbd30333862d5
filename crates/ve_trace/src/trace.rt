//! Products along the rows of a table.

ghost use Rattle.std.specs.Prelude.{◌≡◌, ◌<◌, ◌≤◌, ℕ, All, IfOk, length, nat_eq};
ghost use Rattle.ve_theory.specs.Combinations.{IsReduced, IsReducedOf, unit};
ghost use Rattle.ve_vec.specs.Tracing.{AreReduced, CanTrace, CanTraceElement, CanTraceRelation, vector_of, vector_times_element, vector_times_letters};
ghost use Rattle.ve_table.specs.Tables.{ActionTable};
ghost use Rattle.ve_trace.specs.Within.{IsTracedRelation, IsTracedRelator, IsTracedWord};

use crate::multiples::add_moved;
use crate::steps::add_product;
use crate::times::times_letters;
use crate::walk::walk_relator;
use std::alloc::Global;
use ve_field::Field;
use ve_pres::{FreeAlg, FreeMod};
use ve_theory::order::{reach_adds_up, words_are_ordered};
use ve_vec::{Rows, Sparse, Term};
use ve_word::Memory;

/// Up to how many words of a relator are traced each by itself, whatever they share.
const FEW: usize = 4;

/// The vector times letters, from the first to the last.
pub fn trace_word<R: Rows>(
    alloc: Global,
    rows: &R,
    field: &Field,
    start: &Sparse,
    letters: &[u8],
) -> Result<Sparse, Memory>
    requires rows { AreReduced field.now (R.rows rows.now) }
    requires start { IsReduced ◌<◌ field.now start.now }
    requires found { CanTrace field.now (R.rows rows.now) start.now letters.now }
    ensures traced { IfOk result (λ v. IsReducedOf ◌<◌ nat_eq field.now v (vector_times_letters (R.rows rows.now) start.now letters.now)) }
    ensures derived { IfOk result (λ v. (T : ActionTable) → IsTracedWord T field.now (R.rows rows.now) start.now letters.now v) }
{
    reach_adds_up();
    words_are_ordered();
    times_letters(alloc, rows, field, start, letters)
}

/// The vector of an id times a relator.
pub fn trace_relator<R: Rows>(
    alloc: Global,
    rows: &R,
    field: &Field,
    id: u32,
    relator: &FreeAlg,
) -> Result<Sparse, Memory>
    requires rows { AreReduced field.now (R.rows rows.now) }
    requires residues { All (λ t. t.1 < field.now) relator.now }
    requires found { CanTraceElement field.now (R.rows rows.now) (unit id) relator.now }
    ensures traced { IfOk result (λ v. IsReducedOf ◌<◌ nat_eq field.now v (vector_times_element (R.rows rows.now) (unit id) relator.now)) }
    ensures derived { IfOk result (λ v. (T : ActionTable) → IsTracedRelator T field.now (R.rows rows.now) id relator.now v) }
{
    reach_adds_up();
    words_are_ordered();
    if relator.term_count() > FEW {
        let sum = walk_relator(alloc, rows, field, id, relator)?;
        return Ok(sum);
    }
    // One is an element of each field.
    field.has_prime();
    let unit = Term { id, coef: 1 };
    let mut sum = Sparse::zero(alloc);
    for at in 0..relator.term_count() {
        let letters = relator.word_at(at);
        let coef = relator.coef_at(at);
        add_product(&mut sum, alloc, rows, field, coef, unit, letters)?;
    }
    Ok(sum)
}

/// The vector of a submodule relation: of each term the generator's image times the letters.
pub fn trace_sub<R: Rows>(
    alloc: Global,
    rows: &R,
    field: &Field,
    images: &Vec<Sparse>,
    relation: &FreeMod,
) -> Result<Sparse, Memory>
    requires rows { AreReduced field.now (R.rows rows.now) }
    requires images { All (IsReduced ◌<◌ field.now) images.now.items }
    requires residues { All (λ t. t.1 < field.now) relation.now }
    requires found { CanTraceRelation field.now (R.rows rows.now) images.now.items relation.now }
    ensures traced { IfOk result (λ v. IsReducedOf ◌<◌ nat_eq field.now v (vector_of (R.rows rows.now) images.now.items relation.now)) }
    ensures derived { IfOk result (λ v. (T : ActionTable) → IsTracedRelation T field.now (R.rows rows.now) images.now.items relation.now v) }
{
    reach_adds_up();
    words_are_ordered();
    let mut sum = Sparse::zero(alloc);
    for at in 0..relation.term_count() {
        let word = relation.word_at(at);
        let Some(image) = images.get(usize::from(word.root_of())) else {
            continue;
        };
        let traced = times_letters(alloc, rows, field, image, word.spelling())?;
        add_moved(&mut sum, field, relation.coef_at(at), traced)?;
    }
    Ok(sum)
}
