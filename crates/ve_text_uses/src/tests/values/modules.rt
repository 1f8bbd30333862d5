use super::{presentation, tokens};
use std::alloc::Global;
use std::test::Fail;
use ve_pres::{FreeMod, Presentation};
use ve_value::{ValueFault, is_module_expression, module_difference_of};

// Submodule relations and the terms of their differences, each a coefficient, a generator and letters; or the first fault of
// the left side, or else of the right one; or none, where the left side is no expression of the module.
type Row = (
    &'static str,
    &'static str,
    Option<Result<&'static [(u8, u8, &'static [u8])], ValueFault>>,
);

const RELATIONS: &[Row] = &[
    ("e1", "e2", Some(Ok(&[(4, 1, &[]), (1, 0, &[])]))),
    ("- e1 + e2", "0", Some(Ok(&[(1, 1, &[]), (4, 0, &[])]))),
    ("2*e1*x - e2", "0", Some(Ok(&[(2, 0, &[0]), (4, 1, &[])]))),
    ("e1*(x + a)*x", "e1*a*x", Some(Ok(&[(1, 0, &[0, 0])]))),
    (
        "e2*x^-1*a",
        "0 + e2",
        Some(Ok(&[(1, 1, &[1, 2]), (4, 1, &[])])),
    ),
    ("7*e1", "2*e1", Some(Ok(&[]))),
    ("0*e1*a", "00", Some(Ok(&[]))),
    ("+ e1 - 3*e1", "0", Some(Ok(&[(3, 0, &[])]))),
    (
        "e1*2^2",
        "e1*(2 - x)",
        Some(Ok(&[(1, 0, &[0]), (2, 0, &[])])),
    ),
    ("e3", "0", Some(Err(ValueFault::UnknownName))),
    ("0", "e0", Some(Err(ValueFault::UnknownName))),
    ("e01", "0", Some(Err(ValueFault::UnknownName))),
    ("e", "0", Some(Err(ValueFault::UnknownName))),
    ("x", "0", Some(Err(ValueFault::UnknownName))),
    ("e1x", "0", Some(Err(ValueFault::UnknownName))),
    ("e1*y", "e1*x^1001", Some(Err(ValueFault::UnknownName))),
    ("e1*x^1001", "e1*y", Some(Err(ValueFault::ExponentTooLarge))),
    ("e1 + e2*a^-1", "e3", Some(Err(ValueFault::NoInverse))),
    ("", "0", None),
    ("2", "0", None),
    ("2 + e1", "0", None),
    ("e1 +", "0", None),
    ("2*2*e1", "0", None),
    ("(e1)", "0", None),
    ("e1^2", "0", None),
    ("e1*", "0", None),
    ("e1*-x", "0", None),
    ("e1*(x", "0", None),
    ("e1 e2", "0", None),
    ("2*", "0", None),
    ("0*", "0", None),
];

// The difference, where the sides are expressions of the module.
fn difference(
    alloc: Global,
    presentation: &Presentation,
    left: &str,
    right: &str,
) -> Option<Result<FreeMod, ValueFault>> {
    let left = tokens(alloc, left).ok()?;
    let right = tokens(alloc, right).ok()?;
    if !is_module_expression(&left) || !is_module_expression(&right) {
        return None;
    }
    Some(module_difference_of(alloc, presentation, &left, &right))
}

// Whether the element has these terms, in this order.
fn is(element: &FreeMod, terms: &[(u8, u8, &[u8])]) -> bool {
    element.term_count() == terms.len()
        && (0..element.term_count()).all(|at| {
            let word = element.word_at(at);
            element.coef_at(at) == terms[at].0
                && word.root_of() == terms[at].1
                && word.spelling().as_slice() == terms[at].2
        })
}

// Whether the difference is as the row says.
fn has_difference(alloc: Global, presentation: &Presentation, row: &Row) -> bool {
    let (left, right, expected) = row;
    match (difference(alloc, presentation, left, right), expected) {
        (None, None) => true,
        (Some(Ok(element)), Some(Ok(terms))) => is(&element, terms),
        (Some(Err(fault)), Some(Err(expected))) => fault == *expected,
        _ => false,
    }
}

#[test]
fn submodule_relations_have_these_differences(rt: HostRuntime) -> Result<(), Fail> {
    let presentation = presentation(rt.alloc()).ok_or("no presentation")?;
    for (at, row) in RELATIONS.iter().enumerate() {
        assert!(rt; has_difference(rt.alloc(), &presentation, row), "at {at}");
    }
    Ok(())
}
