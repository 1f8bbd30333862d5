ghost use Rattle.std.specs.Prelude.{◌≡◌, ℕ, ◌+◌, ◌<◌, ◌≤◌, ◌++◌, ◌∷◌, [], IfNone, IfSome, OnOk, OnErr, drop, length, nat_eq};
ghost use Rattle.ve_theory.specs.Combinations.{AllBefore, IsReduced, IsReducedOf};
ghost use Rattle.ve_vec.specs.Terms.{pairs};

use crate::Term;
use crate::search::count_above;
use crate::terms::Terms;
use ve_field::Field;
use ve_word::Memory;

/// Adds a coefficient at an id, in place.
pub(crate) fn insert_term(terms: &mut Terms, field: &Field, id: u32, coef: u8) -> Result<(), Memory>
    requires terms { IsReduced ◌<◌ field.now (pairs terms.old) }
    requires nonzero { 0 < coef }
    requires residue { coef < field.now }
    ensures ok { OnOk result (IsReducedOf ◌<◌ nat_eq field.now (pairs terms.new) (pairs terms.old ++ (id, coef) ∷ [])) }
    ensures err { OnErr result (terms.new ≡ terms.old) }
{
    let at = count_above(terms.as_slice(), id);
    let Some(held) = coefficient_at(terms.as_slice(), at, id) else {
        terms.insert(at, Term { id, coef })?;
        return Ok(());
    };
    let sum = field.add(held, coef);
    if sum == 0 {
        terms.remove(at);
        return Ok(());
    }
    terms.set(at, Term { id, coef: sum });
    Ok(())
}

/// The coefficient of the term at a place, if it is one of `id`. No id from there on is above `id`.
fn coefficient_at(terms: &[Term], at: usize, id: u32) -> Option<u8>
    requires { AllBefore ◌≤◌ id (pairs (drop at terms.now)) }
    ensures here { IfSome result (λ coef. drop at terms.now ≡ (record { id = id; coef = coef }) ∷ drop (at + 1) terms.now) }
    ensures within { IfSome result (λ coef. at < length terms.now) }
    ensures below { IfNone result ((p : ℕ) → IsReduced ◌<◌ p (pairs (drop at terms.now)) → AllBefore ◌<◌ id (pairs (drop at terms.now))) }
{
    match terms.get(at) {
        Some(term) if term.id == id => Some(term.coef),
        _ => None,
    }
}
