ghost use Rattle.std.specs.Prelude.{◌≡◌, ◌<◌, ◌≤◌, ◌∷◌, ◌++◌, IfNone, IfSome, length, nat_eq, take, drop};
ghost use Rattle.ve_theory.specs.Combinations.{coefficient, AllBefore};
ghost use Rattle.ve_vec.specs.Terms.{pairs};
ghost use Rattle.ve_vec.specs.Vectors.{IsVector, without};

use crate::Term;

/// How many terms are looked at one by one, from the least id.
const FEW: usize = 16;

/// How many of the terms have an id above `id`. They stand by falling id.
pub(crate) fn count_above(terms: &[Term], id: u32) -> usize
    requires { IsVector (pairs terms.now) }
    ensures bound { result ≤ length terms.now }
    ensures above { AllBefore (λ j k. k < j) id (pairs (take result terms.now)) }
    ensures rest { AllBefore ◌≤◌ id (pairs (drop result terms.now)) }
{
    if terms.len() <= FEW {
        return count_from_end(terms, id);
    }
    terms.partition_point(|term| id < term.id)
}

/// The same, from the least id on, near which most terms find their places.
fn count_from_end(terms: &[Term], id: u32) -> usize
    requires { IsVector (pairs terms.now) }
    ensures bound { result ≤ length terms.now }
    ensures above { AllBefore (λ j k. k < j) id (pairs (take result terms.now)) }
    ensures rest { AllBefore ◌≤◌ id (pairs (drop result terms.now)) }
{
    let mut at = terms.len();
    while at > 0 && terms[at - 1].id <= id {
        at -= 1;
    }
    at
}

/// The terms of ids above `id`, and the rest. They stand by falling id.
pub(crate) fn split_at_id(terms: &[Term], id: u32) -> (&[Term], &[Term])
    requires { IsVector (pairs terms.now) }
    ensures whole { terms.now ≡ result.0.now ++ result.1.now }
    ensures above { AllBefore (λ j k. k < j) id (pairs result.0.now) }
    ensures rest { AllBefore ◌≤◌ id (pairs result.1.now) }
{
    terms.split_at(count_above(terms, id))
}

/// The terms above the term of `id`, its coefficient, and the terms below it, if there is such a term.
pub(crate) fn split_around(terms: &[Term], id: u32) -> Option<(&[Term], u8, &[Term])>
    requires { IsVector (pairs terms.now) }
    ensures whole { IfSome result (λ r. pairs terms.now ≡ pairs r.0.now ++ (id, r.1) ∷ pairs r.2.now) }
    ensures above { IfSome result (λ r. AllBefore (λ j k. k < j) id (pairs r.0.now)) }
    ensures no_coefficient { IfNone result (coefficient nat_eq (pairs terms.now) id ≡ 0) }
    ensures no_term { IfNone result (without id (pairs terms.now) ≡ pairs terms.now) }
{
    let (above, rest) = split_at_id(terms, id);
    let (term, below) = rest.split_first()?;
    if term.id == id {
        Some((above, term.coef, below))
    } else {
        None
    }
}
