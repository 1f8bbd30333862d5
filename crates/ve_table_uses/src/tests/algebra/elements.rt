//! Calls on elements of the algebra, and the same calls in the module.

ghost use Rattle.std.specs.Prelude.{IfOk};
ghost use Rattle.ve_theory.specs.Combinations.{IsReduced};
ghost use Rattle.ve_theory.specs.Words.{ShortlexLetters};

use super::{Element, ONE, X, X_AND_Y, ZERO, has_terms, has_terms_in_module, in_module, power_of};
use std::alloc::Global;
use std::test::Fail;
use ve_field::Field;
use ve_pres::{FreeAlg, FreeMod, Limit, PresFault};

/// Of two elements. `Scale` and `Pow` take the first one alone.
#[derive(Clone, Copy)]
enum Call {
    Add,
    Plus,
    Mul,
    Scale(u8),
    Pow(u32),
}

/// What a call gives: these terms, some terms, or a refusal.
#[derive(Clone, Copy)]
enum Outcome {
    Is(Element),
    Stands,
    Exceeds(Limit),
}

/// A call on an element to a power and on another to a power.
type Case = (Call, (Element, u32), (Element, u32), Outcome);

const Y: Element = &[(1, &[1])];

const X_AND_ONE: Element = &[(1, &[0]), (1, &[])];

const SQUARE: Element = &[(1, &[0, 0]), (2, &[0]), (1, &[])];

const MODULO_3: &[Case] = &[
    (Call::Add, (X, 1), (ONE, 1), Outcome::Is(X_AND_ONE)),
    (Call::Add, (ONE, 1), (X, 1), Outcome::Is(X_AND_ONE)),
    (Call::Add, (X_AND_ONE, 1), (ZERO, 1), Outcome::Is(X_AND_ONE)),
    (
        Call::Add,
        (X_AND_ONE, 1),
        (X, 1),
        Outcome::Is(&[(2, &[0]), (1, &[])]),
    ),
    (
        Call::Add,
        (X_AND_Y, 1),
        (&[(2, &[1]), (1, &[])], 1),
        Outcome::Is(X_AND_ONE),
    ),
    (
        Call::Add,
        (X_AND_ONE, 1),
        (&[(2, &[0]), (2, &[])], 1),
        Outcome::Is(ZERO),
    ),
    (Call::Plus, (X, 1), (ONE, 1), Outcome::Is(X_AND_ONE)),
    (Call::Plus, (ONE, 1), (X, 1), Outcome::Is(X_AND_ONE)),
    (
        Call::Plus,
        (SQUARE, 1),
        (X_AND_ONE, 1),
        Outcome::Is(&[(1, &[0, 0]), (2, &[])]),
    ),
    (
        Call::Plus,
        (X_AND_ONE, 1),
        (Y, 1),
        Outcome::Is(&[(1, &[1]), (1, &[0]), (1, &[])]),
    ),
    (
        Call::Mul,
        (X_AND_ONE, 1),
        (X_AND_ONE, 1),
        Outcome::Is(SQUARE),
    ),
    (Call::Mul, (X, 1), (Y, 1), Outcome::Is(&[(1, &[0, 1])])),
    (Call::Mul, (X, 1), (ZERO, 1), Outcome::Is(ZERO)),
    (
        Call::Scale(2),
        (SQUARE, 1),
        (ZERO, 1),
        Outcome::Is(&[(2, &[0, 0]), (1, &[0]), (2, &[])]),
    ),
    (Call::Scale(0), (SQUARE, 1), (ZERO, 1), Outcome::Is(ZERO)),
    (Call::Pow(0), (ZERO, 1), (ZERO, 1), Outcome::Is(ONE)),
    (
        Call::Pow(1),
        (X_AND_ONE, 1),
        (ZERO, 1),
        Outcome::Is(X_AND_ONE),
    ),
    (Call::Pow(2), (X_AND_ONE, 1), (ZERO, 1), Outcome::Is(SQUARE)),
    (
        Call::Pow(3),
        (&[(2, &[0])], 1),
        (ZERO, 1),
        Outcome::Is(&[(2, &[0, 0, 0])]),
    ),
];

const MODULO_5: &[Case] = &[
    (Call::Add, (X_AND_Y, 12), (ZERO, 1), Outcome::Stands),
    (
        Call::Add,
        (X_AND_Y, 12),
        (X, 1),
        Outcome::Exceeds(Limit::Terms { count: 4097 }),
    ),
    (
        Call::Plus,
        (X_AND_Y, 12),
        (X, 1),
        Outcome::Exceeds(Limit::Terms { count: 4097 }),
    ),
    (Call::Mul, (X_AND_Y, 6), (X_AND_Y, 6), Outcome::Stands),
    (
        Call::Mul,
        (X_AND_Y, 12),
        (X_AND_Y, 1),
        Outcome::Exceeds(Limit::Terms { count: 8192 }),
    ),
    (
        Call::Mul,
        (X_AND_Y, 12),
        (X, 989),
        Outcome::Exceeds(Limit::Length { length: 1001 }),
    ),
    (Call::Mul, (X, 400), (X, 600), Outcome::Stands),
    (
        Call::Mul,
        (X, 400),
        (X, 601),
        Outcome::Exceeds(Limit::Length { length: 1001 }),
    ),
    (Call::Mul, (X, 1000), (ZERO, 1), Outcome::Stands),
    (Call::Pow(500), (X, 2), (ZERO, 1), Outcome::Stands),
    (
        Call::Pow(501),
        (X, 2),
        (ZERO, 1),
        Outcome::Exceeds(Limit::Length { length: 1002 }),
    ),
    (Call::Pow(12), (X_AND_Y, 1), (ZERO, 1), Outcome::Stands),
    (
        Call::Pow(13),
        (X_AND_Y, 1),
        (ZERO, 1),
        Outcome::Exceeds(Limit::Terms { count: 8192 }),
    ),
];

#[test]
fn calls_have_these_outcomes(rt: HostRuntime) -> Result<(), Fail> {
    for (prime, cases) in [(3, MODULO_3), (5, MODULO_5)] {
        let passed = count_passed(rt.alloc(), prime, cases)?;
        assert!(rt; passed == cases.len(), "at {passed} modulo {prime}");
    }
    Ok(())
}

/// How many cases pass before one that doesn't.
fn count_passed(alloc: Global, prime: u64, cases: &[Case]) -> Result<usize, PresFault> {
    let Some(field) = Field::new(prime) else {
        return Ok(0);
    };
    for (at, case) in cases.iter().enumerate() {
        if !passes(alloc, &field, *case)? {
            return Ok(at);
        }
    }
    Ok(cases.len())
}

fn passes(alloc: Global, field: &Field, case: Case) -> Result<bool, PresFault> {
    let (call, left, right, outcome) = case;
    let left = power_of(alloc, field, 2, left.0, left.1)?;
    let right = power_of(alloc, field, 2, right.0, right.1)?;
    Ok(
        gives(field, call, &left, &right, outcome)
            && gives_in_module(alloc, field, call, &left, &right, outcome),
    )
}

fn gives(field: &Field, call: Call, left: &FreeAlg, right: &FreeAlg, outcome: Outcome) -> bool
    requires left { IsReduced ShortlexLetters field.now left.now }
    requires right { IsReduced ShortlexLetters field.now right.now }
{
    match called(field, call, left, right) {
        Ok(element) => match outcome {
            Outcome::Is(terms) => has_terms(&element, terms),
            Outcome::Stands => true,
            Outcome::Exceeds(_) => false,
        },
        Err(fault) => exceeds(fault, outcome),
    }
}

fn gives_in_module(
    alloc: Global,
    field: &Field,
    call: Call,
    left: &FreeAlg,
    right: &FreeAlg,
    outcome: Outcome,
) -> bool
    requires left { IsReduced ShortlexLetters field.now left.now }
    requires right { IsReduced ShortlexLetters field.now right.now }
{
    match called_in_module(alloc, field, call, left, right) {
        Ok(element) => match outcome {
            Outcome::Is(terms) => has_terms_in_module(&element, terms),
            Outcome::Stands => true,
            Outcome::Exceeds(_) => false,
        },
        Err(fault) => exceeds(fault, outcome),
    }
}

fn exceeds(fault: PresFault, outcome: Outcome) -> bool {
    match outcome {
        Outcome::Exceeds(limit) => fault == PresFault::Limit(limit),
        _ => false,
    }
}

fn called(field: &Field, call: Call, left: &FreeAlg, right: &FreeAlg) -> Result<FreeAlg, PresFault>
    requires left { IsReduced ShortlexLetters field.now left.now }
    requires right { IsReduced ShortlexLetters field.now right.now }
    ensures { IfOk result (λ r. IsReduced ShortlexLetters field.now r) }
{
    field.has_prime();
    match call {
        Call::Add => left.add(field, right),
        // What is added is used up.
        Call::Plus => left.scale(field, 1)?.plus(field, right.scale(field, 1)?),
        Call::Mul => left.mul(field, right),
        Call::Scale(by) => Ok(left.scale(field, field.reduce(u128::from(by)))?),
        Call::Pow(exponent) => left.pow(field, exponent.min(1000)),
    }
}

/// The same with the first generator before the elements.
fn called_in_module(
    alloc: Global,
    field: &Field,
    call: Call,
    left: &FreeAlg,
    right: &FreeAlg,
) -> Result<FreeMod, PresFault>
    requires left { IsReduced ShortlexLetters field.now left.now }
    requires right { IsReduced ShortlexLetters field.now right.now }
{
    let first = in_module(alloc, field, left)?;
    match call {
        Call::Add => first.add(field, &in_module(alloc, field, right)?),
        Call::Plus => first.plus(field, in_module(alloc, field, right)?),
        Call::Mul => first.times(field, right),
        Call::Scale(by) => Ok(first.scale(field, field.reduce(u128::from(by)))?),
        Call::Pow(_) => in_module(alloc, field, &called(field, call, left, right)?),
    }
}
