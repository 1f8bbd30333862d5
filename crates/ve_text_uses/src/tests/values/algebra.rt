use super::{presentation, tokens};
use std::alloc::Global;
use std::test::Fail;
use ve_pres::{FreeAlg, Limit, Presentation};
use ve_value::{ValueFault, difference_of, is_expression};

// A relation and the terms of its difference, each a coefficient and letters; or the first fault of the left side, or else of
// the right one; or none, where the left side is no expression.
type Row = (
    &'static str,
    &'static str,
    Option<Result<&'static [(u8, &'static [u8])], ValueFault>>,
);

const RELATIONS: &[Row] = &[
    ("x*a", "a*x", Some(Ok(&[(4, &[2, 0]), (1, &[0, 2])]))),
    ("- x + a", "0", Some(Ok(&[(1, &[2]), (4, &[0])]))),
    ("+ x - a - a", "0", Some(Ok(&[(3, &[2]), (1, &[0])]))),
    ("-(x + a)*2 + x", "0", Some(Ok(&[(3, &[2]), (4, &[0])]))),
    ("x^-1", "0", Some(Ok(&[(1, &[1])]))),
    (
        "a*x^-2",
        "x^3",
        Some(Ok(&[(1, &[2, 1, 1]), (4, &[0, 0, 0])])),
    ),
    ("x*a^2", "0", Some(Ok(&[(1, &[0, 2, 2])]))),
    ("(x + 1)^2", "1", Some(Ok(&[(1, &[0, 0]), (2, &[0])]))),
    ("2*x - 3", "x", Some(Ok(&[(1, &[0]), (2, &[])]))),
    (
        "a - (x - 1)",
        "0",
        Some(Ok(&[(1, &[2]), (4, &[0]), (1, &[])])),
    ),
    ("x^0 + 7", "3", Some(Ok(&[]))),
    ("1^1000", "X^-0", Some(Ok(&[]))),
    ("((x))", "5*a", Some(Ok(&[(1, &[0])]))),
    ("x", "x", Some(Ok(&[]))),
    ("y", "0", Some(Err(ValueFault::UnknownName))),
    ("0", "e1", Some(Err(ValueFault::UnknownName))),
    ("x^1001", "y", Some(Err(ValueFault::ExponentTooLarge))),
    ("y", "x^1001", Some(Err(ValueFault::UnknownName))),
    ("y*x^1001", "0", Some(Err(ValueFault::UnknownName))),
    ("x^1001*y", "0", Some(Err(ValueFault::ExponentTooLarge))),
    ("(0 - y)^1001", "0", Some(Err(ValueFault::UnknownName))),
    ("a^-1", "0", Some(Err(ValueFault::NoInverse))),
    ("a^-1001", "0", Some(Err(ValueFault::ExponentTooLarge))),
    ("(x)^-1", "0", Some(Err(ValueFault::NoInverse))),
    ("2^-1", "0", Some(Err(ValueFault::NoInverse))),
    (
        "a^501*a^500*y",
        "0",
        Some(Err(ValueFault::Limit(Limit::Length { length: 1001 }))),
    ),
    (
        "x",
        "a^501*a^500",
        Some(Err(ValueFault::Limit(Limit::Length { length: 1001 }))),
    ),
    ("", "0", None),
    ("+", "0", None),
    ("x +", "0", None),
    ("(x", "0", None),
    ("x)", "0", None),
    ("()", "0", None),
    ("x^", "0", None),
    ("x^-", "0", None),
    ("x^y", "0", None),
    ("x x", "0", None),
    ("x^2^3", "0", None),
    ("- -x", "0", None),
    ("x*-x", "0", None),
    ("x = x", "0", None),
    ("x(a)", "0", None),
    ("2 x", "0", None),
];

// The difference, where the sides are expressions.
fn difference(
    alloc: Global,
    presentation: &Presentation,
    left: &str,
    right: &str,
) -> Option<Result<FreeAlg, ValueFault>> {
    let left = tokens(alloc, left).ok()?;
    let right = tokens(alloc, right).ok()?;
    if !is_expression(&left) || !is_expression(&right) {
        return None;
    }
    Some(difference_of(alloc, presentation, &left, &right))
}

// Whether the element has these terms, in this order.
fn is(element: &FreeAlg, terms: &[(u8, &[u8])]) -> bool {
    element.term_count() == terms.len()
        && (0..element.term_count()).all(|at| {
            element.coef_at(at) == terms[at].0 && element.word_at(at).as_slice() == terms[at].1
        })
}

// Whether the difference is as the row says.
fn has_difference(alloc: Global, presentation: &Presentation, row: &Row) -> bool {
    let (left, right, expected) = row;
    match (difference(alloc, presentation, left, right), expected) {
        (None, None) => true,
        (Some(Ok(element)), Some(Ok(terms))) => is(&element, terms),
        (Some(Err(fault)), Some(Err(expected))) => fault == *expected,
        _ => false,
    }
}

#[test]
fn relations_have_these_differences(rt: HostRuntime) -> Result<(), Fail> {
    let presentation = presentation(rt.alloc()).ok_or("no presentation")?;
    for (at, row) in RELATIONS.iter().enumerate() {
        assert!(rt; has_difference(rt.alloc(), &presentation, row), "at {at}");
    }
    Ok(())
}
