//! The sum of two lists of terms that are in order.

ghost use Rattle.std.specs.Prelude.{◌≡◌, ℕ, ◌+◌, ◌%◌, ◌<◌, ◌≤◌, [], ◌∷◌, ◌++◌, All, IfOk, OnOk, length, reverse, take};
ghost use Rattle.ve_theory.specs.Combinations.{AllBefore, IsReduced};
ghost use Rattle.ve_theory.specs.Words.{Shortlex};
ghost use Rattle.ve_theory.specs.Elements.{IsElementOf};
ghost use Rattle.ve_pres.specs.Terms.{pairs};

use crate::term::Term;
use std::alloc::Global;
use std::cmp::Ordering;
use ve_field::Field;
use ve_word::{Memory, shortlex};

/// The sum of terms in strictly falling shortlex order, where zeros are left out.
pub(crate) fn merge(
    alloc: Global,
    field: &Field,
    mut left: &[Term],
    mut right: &[Term],
) -> Result<Vec<Term>, Memory>
    requires left { IsReduced Shortlex field.now (pairs left.now) }
    requires right { IsReduced Shortlex field.now (pairs right.now) }
    ensures sum { IfOk result (λ sum. IsElementOf field.now (pairs sum.items) (pairs left.now ++ pairs right.now)) }
    ensures count { IfOk result (λ sum. length sum.items ≤ length left.now + length right.now) }
{
    let mut sum = Vec::with_capacity(alloc, left.len() + right.len())?;
    loop {
        let Some((a, left_rest)) = left.split_first() else {
            push_copies(&mut sum, right)?;
            return Ok(sum);
        };
        let Some((b, right_rest)) = right.split_first() else {
            push_copies(&mut sum, left)?;
            return Ok(sum);
        };
        match shortlex(&a.word, &b.word) {
            Ordering::Greater => {
                sum.push(a.copy()?)?;
                left = left_rest;
            }
            Ordering::Less => {
                sum.push(b.copy()?)?;
                right = right_rest;
            }
            Ordering::Equal => {
                push_sum(&mut sum, field, a.copy()?, b)?;
                left = left_rest;
                right = right_rest;
            }
        }
    }
}

/// The same sum, into which the terms are moved.
pub(crate) fn merge_moved(
    field: &Field,
    left: Vec<Term>,
    right: Vec<Term>,
) -> Result<Vec<Term>, Memory>
    requires left { IsReduced Shortlex field.now (pairs left.items) }
    requires right { IsReduced Shortlex field.now (pairs right.items) }
    ensures sum { IfOk result (λ sum. IsElementOf field.now (pairs sum.items) (pairs left.items ++ pairs right.items)) }
    ensures count { IfOk result (λ sum. length sum.items ≤ length left.items + length right.items) }
{
    // The terms that are greater than all of the right stay where they are.
    let above = count_above(&left, &right);
    let mut sum = left;
    let rest = sum.split_off(above)?;
    push_merged(&mut sum, field, rest, right)?;
    Ok(sum)
}

// How many terms are greater than all others, where both lists are in strictly falling shortlex order.
fn count_above(terms: &[Term], others: &[Term]) -> usize
    ensures bound { result ≤ length terms.now }
    ensures above { (p : ℕ) → IsReduced Shortlex p (pairs terms.now) → IsReduced Shortlex p (pairs others.now)
        → All (λ t. AllBefore Shortlex t.0 (pairs others.now)) (pairs (take result terms.now)) }
{
    match others.first() {
        Some(first) => terms.partition_point(|term| shortlex(&first.word, &term.word).is_lt()),
        None => terms.len(),
    }
}

// Moves the terms of two lists to the end of a sum, behind which each of them is in strictly falling shortlex order.
fn push_merged(
    sum: &mut Vec<Term>,
    field: &Field,
    mut left: Vec<Term>,
    mut right: Vec<Term>,
) -> Result<(), Memory>
    requires left { IsReduced Shortlex field.now (pairs sum.old.items ++ pairs left.items) }
    requires right { IsReduced Shortlex field.now (pairs sum.old.items ++ pairs right.items) }
    ensures sum { OnOk result (IsElementOf field.now (pairs sum.new.items) (pairs sum.old.items ++ (pairs left.items ++ pairs right.items))) }
    ensures count { OnOk result (length sum.new.items ≤ length sum.old.items + (length left.items + length right.items)) }
{
    // From here on the greatest terms stand at the end.
    left.reverse();
    right.reverse();
    loop {
        let Some(a) = left.pop() else {
            push_reversed(sum, right)?;
            return Ok(());
        };
        let Some(b) = right.pop() else {
            sum.push(a)?;
            push_reversed(sum, left)?;
            return Ok(());
        };
        match shortlex(&a.word, &b.word) {
            Ordering::Greater => {
                sum.push(a)?;
                right.push(b)?;
            }
            Ordering::Less => {
                sum.push(b)?;
                left.push(a)?;
            }
            Ordering::Equal => push_sum(sum, field, a, &b)?,
        }
    }
}

// Moves terms to the end of a list, the last one first.
fn push_reversed(terms: &mut Vec<Term>, mut others: Vec<Term>) -> Result<(), Memory>
    ensures { OnOk result (terms.new.items ≡ terms.old.items ++ reverse others.items) }
{
    others.reverse();
    terms.append(&mut others)?;
    Ok(())
}

// Adds the sum of two terms of one word to the end of a list, where it isn't zero.
fn push_sum(sum: &mut Vec<Term>, field: &Field, a: Term, b: &Term) -> Result<(), Memory>
    requires left { a.coef < field.now }
    requires right { b.now.coef < field.now }
    ensures cancelled { OnOk result ((a.coef + b.now.coef) % field.now ≡ 0 → sum.new.items ≡ sum.old.items) }
    ensures added { OnOk result (let coef = (a.coef + b.now.coef) % field.now in
        0 < coef → pairs sum.new.items ≡ pairs sum.old.items ++ (a.word, coef) ∷ []) }
{
    let coef = field.add(a.coef, b.coef);
    if coef != 0 {
        sum.push(Term { word: a.word, coef })?;
    }
    Ok(())
}

/// Adds copies of terms to the end of a list.
pub(crate) fn push_copies(terms: &mut Vec<Term>, others: &[Term]) -> Result<(), Memory>
    ensures { OnOk result (terms.new.items ≡ terms.old.items ++ others.now) }
{
    for term in others {
        terms.push(term.copy()?)?;
    }
    Ok(())
}
