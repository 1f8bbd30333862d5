ghost use Rattle.std.specs.Prelude.{◌≡◌, ℕ, ◌*◌, ◌%◌, ◌<◌, ◌++◌, IsTrue, OnOk, OnErr, map, nat_eq};
ghost use Rattle.ve_theory.specs.Combinations.{scaled, IsReduced, IsReducedOf};
ghost use Rattle.ve_vec.specs.Terms.{pairs};

use crate::Term;
use smallvec::SmallVec;
use ve_field::Field;
use ve_word::Memory;

/// How many terms a list holds without room of its own.
const FEW: usize = 4;

/// Whether each id of `others` is below each of `terms`.
pub(crate) fn comes_before(terms: &[Term], others: &[Term]) -> bool
    ensures { IsTrue result → (p : ℕ) → IsReduced ◌<◌ p (pairs terms.now) → IsReduced ◌<◌ p (pairs others.now)
        → IsReduced ◌<◌ p (pairs terms.now ++ pairs others.now) }
{
    match (terms.last(), others.first()) {
        (Some(last), Some(first)) => first.id < last.id,
        _ => true,
    }
}

/// Multiplies each coefficient by `by`.
pub(crate) fn scale_terms(terms: &mut [Term], field: &Field, by: u8)
    requires fits { IsReduced ◌<◌ field.now (pairs terms.old) }
    requires nonzero { 0 < by }
    requires residue { by < field.now }
    ensures fits { IsReduced ◌<◌ field.now (pairs terms.new) }
    ensures product { pairs terms.new ≡ map (λ t. (t.0, (by * t.1) % field.now)) (pairs terms.old) }
{
    for term in terms {
        term.coef = field.mul(by, term.coef);
    }
}

/// Appends `by` times the terms `right`, whose ids are below those of `sum`.
pub(crate) fn append_scaled(
    sum: &mut SmallVec<Term, 4>,
    field: &Field,
    by: u8,
    right: &[Term],
) -> Result<(), Memory>
    requires terms { IsReduced ◌<◌ field.now (pairs sum.old.items ++ pairs right.now) }
    requires nonzero { 0 < by }
    requires residue { by < field.now }
    ensures ok { OnOk result (IsReducedOf ◌<◌ nat_eq field.now (pairs sum.new.items) (pairs sum.old.items ++ scaled by (pairs right.now))) }
    ensures err { OnErr result (sum.new ≡ sum.old) }
{
    if by == 1 {
        sum.extend_from_slice(right)?;
        return Ok(());
    }
    sum.reserve(right.len())?;
    for term in right {
        sum.push_reserved(Term {
            id: term.id,
            coef: field.mul(by, term.coef),
        });
    }
    Ok(())
}

/// Takes room for a sum of so many terms and so many more, unless both are few: then ids that meet may keep it from taking memory.
fn make_room(sum: &mut SmallVec<Term, 4>, left: usize, right: usize) -> Result<(), Memory>
    ensures { sum.new.items ≡ sum.old.items }
{
    if left > FEW || right > FEW {
        sum.reserve(left.saturating_add(right))?;
    }
    Ok(())
}

/// Appends the sum of the terms `left` and `by` times the terms `right`, whose ids are below those of `sum`.
pub(crate) fn append_sum(
    sum: &mut SmallVec<Term, 4>,
    field: &Field,
    by: u8,
    mut left: &[Term],
    mut right: &[Term],
) -> Result<(), Memory>
    requires left { IsReduced ◌<◌ field.now (pairs sum.old.items ++ pairs left.now) }
    requires right { IsReduced ◌<◌ field.now (pairs sum.old.items ++ pairs right.now) }
    requires nonzero { 0 < by }
    requires residue { by < field.now }
    ensures ok { OnOk result (IsReducedOf ◌<◌ nat_eq field.now (pairs sum.new.items)
        (pairs sum.old.items ++ (pairs left.now ++ scaled by (pairs right.now)))) }
{
    make_room(sum, left.len(), right.len())?;
    loop {
        let Some((a, left_rest)) = left.split_first() else {
            return append_scaled(sum, field, by, right);
        };
        let Some((b, right_rest)) = right.split_first() else {
            sum.extend_from_slice(left)?;
            return Ok(());
        };
        if a.id > b.id {
            sum.push(*a)?;
            left = left_rest;
            continue;
        }
        let product = field.mul(by, b.coef);
        if a.id < b.id {
            sum.push(Term {
                id: b.id,
                coef: product,
            })?;
            right = right_rest;
            continue;
        }
        let coef = field.add(a.coef, product);
        if coef != 0 {
            sum.push(Term { id: a.id, coef })?;
        }
        left = left_rest;
        right = right_rest;
    }
}
