//! Vectors, call by call.

ghost use Rattle.std.specs.Prelude.{◌≡◌, ◌<◌, All, IsTrue, length};
ghost use Rattle.ve_theory.specs.Combinations.{IsReduced};
ghost use Rattle.ve_vec.specs.Vectors.{numbered};

use super::terms::{Terms, has_row, is_vector, vector_of};
use std::alloc::Global;
use std::test::Fail;
use ve_field::Field;
use ve_vec::{DenseSum, Rows, Sparse, Term};
use ve_word::Memory;

/// A call on a vector, and the terms that it has to leave.
#[derive(Clone, Copy)]
enum Step {
    /// `add_scaled` of a number and a vector.
    Add(u8, Terms, Terms),
    /// `add_scaled_term` of a number and a term.
    AddTerm(u8, (u32, u8), Terms),
    Substitute(u32, Terms, Terms),
    Scale(u8, Terms),
    Copy(Terms),
    Rest(usize, Terms),
    TakeLeading(Terms),
    /// `renumber` by a number for each id.
    Renumber(&'static [u32], Terms),
    /// The units at 3, 5 and 7, each times a number, summed over a span; the vector stays.
    Span([u8; 3], Terms),
    /// The row of an id at a letter, where the vector is the one row that there is.
    Row(u32, u8, Option<Terms>),
}

// One step after another on the zero vector, modulo 5.
const STEPS: &[Step] = &[
    // Up to two terms and back.
    Step::AddTerm(1, (3, 1), &[(3, 1)]),
    Step::AddTerm(2, (3, 2), &[]),
    Step::AddTerm(3, (3, 2), &[(3, 1)]),
    Step::AddTerm(1, (5, 2), &[(5, 2), (3, 1)]),
    Step::AddTerm(3, (3, 1), &[(5, 2), (3, 4)]),
    Step::AddTerm(1, (5, 3), &[(3, 4)]),
    Step::Add(1, &[(1, 1)], &[(3, 4), (1, 1)]),
    Step::AddTerm(1, (1, 4), &[(3, 4)]),
    Step::AddTerm(1, (6, 1), &[(6, 1), (3, 4)]),
    // The third term stands between the others.
    Step::AddTerm(2, (5, 1), &[(6, 1), (5, 2), (3, 4)]),
    Step::AddTerm(1, (5, 1), &[(6, 1), (5, 3), (3, 4)]),
    Step::AddTerm(1, (0, 1), &[(6, 1), (5, 3), (3, 4), (0, 1)]),
    Step::AddTerm(1, (7, 2), &[(7, 2), (6, 1), (5, 3), (3, 4), (0, 1)]),
    Step::Scale(2, &[(7, 4), (6, 2), (5, 1), (3, 3), (0, 2)]),
    Step::Add(1, &[(7, 1), (6, 3), (3, 2)], &[(5, 1), (0, 2)]),
    Step::Scale(3, &[(5, 3), (0, 1)]),
    Step::Copy(&[(5, 3), (0, 1)]),
    Step::Add(2, &[(4, 1)], &[(5, 3), (4, 2), (0, 1)]),
    Step::Copy(&[(5, 3), (4, 2), (0, 1)]),
    Step::TakeLeading(&[(4, 2), (0, 1)]),
    Step::TakeLeading(&[(0, 1)]),
    Step::Add(1, &[(0, 4)], &[]),
    Step::TakeLeading(&[]),
    Step::Add(2, &[(5, 1), (4, 2), (2, 3)], &[(5, 2), (4, 4), (2, 1)]),
    Step::Rest(1, &[(4, 4), (2, 1)]),
    Step::Add(1, &[(1, 1), (0, 1)], &[(4, 4), (2, 1), (1, 1), (0, 1)]),
    Step::Rest(0, &[(4, 4), (2, 1), (1, 1), (0, 1)]),
    // The dead id itself stands in what replaces it.
    Step::Substitute(
        2,
        &[(3, 1), (2, 1)],
        &[(4, 4), (3, 1), (2, 1), (1, 1), (0, 1)],
    ),
    Step::Substitute(3, &[(4, 1), (2, 4), (1, 4)], &[(0, 1)]),
    Step::Substitute(3, &[(4, 1)], &[(0, 1)]),
    Step::Substitute(0, &[(9, 2), (8, 1)], &[(9, 2), (8, 1)]),
    Step::Substitute(8, &[(6, 1), (5, 1)], &[(9, 2), (6, 1), (5, 1)]),
    Step::Substitute(9, &[(6, 2)], &[(5, 1)]),
    Step::Scale(0, &[]),
    // Each id has its number.
    Step::Add(1, &[(2, 1)], &[(2, 1)]),
    Step::Renumber(&[4, 0, 1], &[(1, 1)]),
    Step::Scale(0, &[]),
    Step::Add(1, &[(5, 2), (3, 4), (1, 1)], &[(5, 2), (3, 4), (1, 1)]),
    Step::Renumber(&[9, 0, 9, 1, 9, 2], &[(2, 2), (1, 4), (0, 1)]),
    Step::Scale(0, &[]),
    Step::Add(
        1,
        &[(4, 1), (3, 2), (2, 3), (0, 4)],
        &[(4, 1), (3, 2), (2, 3), (0, 4)],
    ),
    Step::Renumber(&[0, 9, 2, 6, 7], &[(7, 1), (6, 2), (2, 3), (0, 4)]),
    Step::Span([2, 4, 3], &[(7, 3), (5, 4), (3, 2)]),
    Step::Span([0, 9, 5], &[(5, 4)]),
    Step::Scale(0, &[]),
    Step::Add(1, &[(4, 1)], &[(4, 1)]),
    Step::Row(3, 1, Some(&[(4, 1)])),
    Step::Row(3, 0, None),
    Step::Row(1, 3, None),
];

#[test]
fn vectors_take_these_steps(rt: HostRuntime) -> Result<(), Fail> {
    let field = Field::new(5).ok_or("no field")?;
    let passed = take_steps(rt.alloc(), &field, &mut Sparse::zero(rt.alloc()))?;
    assert!(rt; passed == STEPS.len(), "at {passed}");
    Ok(())
}

/// How many steps a vector takes before one that it answers otherwise.
fn take_steps(alloc: Global, field: &Field, v: &mut Sparse) -> Result<usize, Memory> {
    for (at, step) in STEPS.iter().enumerate() {
        if !passes(alloc, field, v, step)? {
            return Ok(at);
        }
    }
    Ok(STEPS.len())
}

fn passes(alloc: Global, field: &Field, v: &mut Sparse, step: &Step) -> Result<bool, Memory> {
    if !v.fits(field) {
        return Ok(false);
    }
    match *step {
        Step::Add(by, other, wanted) => adds(alloc, field, v, by, other, wanted),
        Step::AddTerm(by, term, wanted) => adds_term(field, v, by, term, wanted),
        Step::Substitute(dead, by, wanted) => substitutes(alloc, field, v, dead, by, wanted),
        Step::Scale(by, wanted) => Ok(scales(field, v, by, wanted)),
        Step::Copy(wanted) => is_copied(v, wanted),
        Step::Rest(from, wanted) => keeps_rest(v, from, wanted),
        Step::TakeLeading(wanted) => Ok(takes_leading(v, wanted)),
        Step::Renumber(numbers, wanted) => renumbers(alloc, field, v, numbers, wanted),
        Step::Span(by, wanted) => sums_units(alloc, field, by, wanted),
        Step::Row(id, letter, row) => is_only_row(v, id, letter, row),
    }
}

fn adds(
    alloc: Global,
    field: &Field,
    v: &mut Sparse,
    by: u8,
    other: Terms,
    wanted: Terms,
) -> Result<bool, Memory>
    requires { IsReduced ◌<◌ field.now v.old }
{
    let other = vector_of(alloc, field, other)?;
    v.add_scaled(field, field.reduce(u128::from(by)), &other)?;
    Ok(is_vector(v, wanted))
}

fn adds_term(
    field: &Field,
    v: &mut Sparse,
    by: u8,
    term: (u32, u8),
    wanted: Terms,
) -> Result<bool, Memory>
    requires { IsReduced ◌<◌ field.now v.old }
{
    let (id, coef) = term;
    let coef = field.reduce(u128::from(coef));
    v.add_scaled_term(field, field.reduce(u128::from(by)), Term { id, coef })?;
    Ok(is_vector(v, wanted))
}

fn substitutes(
    alloc: Global,
    field: &Field,
    v: &mut Sparse,
    dead: u32,
    by: Terms,
    wanted: Terms,
) -> Result<bool, Memory>
    requires { IsReduced ◌<◌ field.now v.old }
{
    let by = vector_of(alloc, field, by)?;
    v.substitute(field, dead, &by)?;
    Ok(is_vector(v, wanted))
}

fn scales(field: &Field, v: &mut Sparse, by: u8, wanted: Terms) -> bool
    requires { IsReduced ◌<◌ field.now v.old }
{
    v.scale(field, field.reduce(u128::from(by)));
    is_vector(v, wanted)
}

fn is_copied(v: &Sparse, wanted: Terms) -> Result<bool, Memory> {
    let copy = v.copy()?;
    Ok(is_vector(&copy, wanted))
}

fn takes_leading(v: &mut Sparse, wanted: Terms) -> bool {
    let leading = v.leading();
    v.take_leading() == leading && is_vector(v, wanted)
}

fn keeps_rest(v: &mut Sparse, from: usize, wanted: Terms) -> Result<bool, Memory> {
    if from > v.len() {
        return Ok(false);
    }
    *v = v.rest(from)?;
    Ok(is_vector(v, wanted))
}

/// Renumbers, where the wanted vector has the numbers of the ids.
fn renumbers(
    alloc: Global,
    field: &Field,
    v: &mut Sparse,
    numbers: &[u32],
    wanted: Terms,
) -> Result<bool, Memory> {
    let other = vector_of(alloc, field, wanted)?;
    if !has_numbers(&other, v, numbers) {
        return Ok(false);
    }
    v.renumber(numbers);
    Ok(is_vector(v, wanted))
}

/// Whether the vector is the other one with the number of each id in its place.
fn has_numbers(v: &Sparse, other: &Sparse, numbers: &[u32]) -> bool
    ensures numbers { IsTrue result → v.now ≡ numbered numbers.now other.now }
    ensures ids { IsTrue result → All (λ t. t.0 < length numbers.now) other.now }
{
    if v.len() != other.len() {
        return false;
    }
    for at in 0..v.len() {
        let Term { id, coef } = other.term(at);
        let Some(number) = numbers.get(id as usize) else {
            return false;
        };
        if v.term(at) != (Term { id: *number, coef }) {
            return false;
        }
    }
    true
}

/// Sums the units at 3, 5 and 7, each times a number.
fn sums_units(alloc: Global, field: &Field, by: [u8; 3], wanted: Terms) -> Result<bool, Memory> {
    let mut sum = DenseSum::new(alloc, 2, 7)?;
    sum.add_scaled(field, by[0], &Sparse::unit(alloc, 3));
    sum.add_scaled(field, by[1], &Sparse::unit(alloc, 5));
    sum.add_scaled(field, by[2], &Sparse::unit(alloc, 7));
    let vector = sum.into_sparse(field)?;
    Ok(is_vector(&vector, wanted))
}

/// A table with one row.
#[derive(Drop)]
struct OneRow {
    id: u32,
    letter: u8,
    vector: Sparse,
}

impl Rows for OneRow {
    ghost use Rattle.std.specs.Prelude.{Some, None, cond, nat_eq, ◌&&◌};

    ghost rows = { λ table id letter. cond (nat_eq table.id id && nat_eq table.letter letter) (Some table.vector) None };

    fn row(&self, id: u32, letter: u8) -> Option<&Sparse> {
        if self.id == id && self.letter == letter {
            Some(&self.vector)
        } else {
            None
        }
    }
}

fn is_only_row(vector: &Sparse, id: u32, letter: u8, row: Option<Terms>) -> Result<bool, Memory> {
    let table = OneRow {
        id: 3,
        letter: 1,
        vector: vector.copy()?,
    };
    Ok(has_row(&table, id, letter, row))
}
