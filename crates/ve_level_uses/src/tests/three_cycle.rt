//! Matrices and answers that are written down: the three-cycle, in order and out of it.

ghost use Rattle.std.specs.Prelude.{◌≡◌, ◌<◌, ◌≤◌, ◌↔◌, [], ◌∷◌, All, IfOk, IsTrue, length, map};
ghost use Rattle.ve_theory.specs.Combinations.{IsReduced, unit};
ghost use Rattle.ve_theory.specs.Words.{Shortlex, letters, start};
ghost use Rattle.ve_theory.specs.Presentations.{most_weight};
ghost use Rattle.ve_pres.specs.Terms.{HasWordsBelow};
ghost use Rattle.ve_matrix.specs.Answers.{IsAnswerValue};
ghost use Rattle.ve_matrix.specs.Matrices.{HasResidues};

use super::is_unit;
use std::alloc::Global;
use std::test::Fail;
use ve_field::Field;
use ve_matrix::{Answer, Disorder, Matrix};
use ve_pres::{FreeAlg, FreeMod, PresFault, Presentation};
use ve_table::Origin;
use ve_vec::Sparse;
use ve_word::{Memory, NameFault, Names, Word};

/// For each row the place of its 1.
type Places = [u32; 3];

/// What the letters of the three-cycle do to `e1`, `e1*x` and `e1*X`.
const NEXT: Places = [1, 2, 0];

const BEFORE: Places = [2, 0, 1];

/// Rows with a 1 at these places.
fn units(alloc: Global, places: &[u32]) -> Result<Vec<Sparse>, Memory>
    ensures { IfOk result (λ rows. rows.items ≡ map unit places.now) }
{
    let mut rows = Vec::new(alloc);
    for place in places {
        rows.push(Sparse::unit(alloc, *place))?;
    }
    Ok(rows)
}

fn matrix(alloc: Global, places: &[u32]) -> Result<Matrix, Memory>
    requires count { length places.now ≡ 3 }
    requires places { All (λ place. place < 3) places.now }
    ensures rows { IfOk result (λ matrix. matrix ≡ map unit places.now) }
    ensures residues { IfOk result (HasResidues 7) }
{
    let rows = units(alloc, places)?;
    Ok(Matrix::of_rows(rows))
}

fn names(alloc: Global) -> Result<Names, NameFault>
    ensures { IfOk result (λ names. names ≡ (120 ∷ []) ∷ (88 ∷ []) ∷ []) }
{
    let mut names = Names::new(alloc);
    names.add("x")?;
    names.add("X")?;
    Ok(names)
}

fn basis(alloc: Global) -> Result<Vec<Origin>, Memory>
    ensures { IfOk result (λ basis. basis.items ≡ Origin.Root 0 ∷ Origin.Child 0 0 ∷ Origin.Child 0 1 ∷ []) }
{
    let mut basis = Vec::new(alloc);
    basis.push(Origin::Root(0))?;
    basis.push(Origin::Child {
        parent: 0,
        letter: 0,
    })?;
    basis.push(Origin::Child {
        parent: 0,
        letter: 1,
    })?;
    Ok(basis)
}

fn matrices(alloc: Global, first: &[u32], second: &[u32]) -> Result<Vec<Matrix>, Memory>
    requires first_count { length first.now ≡ 3 }
    requires first { All (λ place. place < 3) first.now }
    requires second_count { length second.now ≡ 3 }
    requires second { All (λ place. place < 3) second.now }
    ensures { IfOk result (λ matrices. matrices.items ≡ map unit first.now ∷ map unit second.now ∷ []) }
{
    let mut matrices = Vec::new(alloc);
    matrices.push(matrix(alloc, first)?)?;
    matrices.push(matrix(alloc, second)?)?;
    Ok(matrices)
}

/// The answer on `e1`, `e1*x` and `e1*X` modulo 7 with the row of `e1` and the matrices of x and X.
fn answer(
    alloc: Global,
    field: Field,
    image: u32,
    first: &[u32],
    second: &[u32],
) -> Result<Answer, Fail>
    requires field { field ≡ 7 }
    requires image { image < 3 }
    requires first_count { length first.now ≡ 3 }
    requires first { All (λ place. place < 3) first.now }
    requires second_count { length second.now ≡ 3 }
    requires second { All (λ place. place < 3) second.now }
    ensures value { IfOk result IsAnswerValue }
    ensures field { IfOk result (λ answer. answer.field ≡ 7) }
    ensures basis { IfOk result (λ answer. length answer.basis.items ≡ 3) }
    ensures names { IfOk result (λ answer. answer.names ≡ (120 ∷ []) ∷ (88 ∷ []) ∷ []) }
    ensures generators { IfOk result (λ answer. answer.roots ≡ 1) }
{
    Ok(Answer {
        field,
        names: names(alloc)?,
        roots: 1,
        closed: 4,
        basis: basis(alloc)?,
        images: units(alloc, &[image])?,
        matrices: matrices(alloc, first, second)?,
    })
}

fn seven() -> Result<Field, Fail>
    ensures { IfOk result (λ field. field ≡ 7) }
{
    match Field::new(7) {
        Some(field) => Ok(field),
        None => Err(Memory.into()),
    }
}

#[test]
fn matrices_of_the_three_cycle(rt: HostRuntime) -> Result<(), Fail> {
    let alloc = rt.alloc();
    let field = seven()?;
    let next = matrix(alloc, &NEXT)?;
    let before = matrix(alloc, &BEFORE)?;
    let product = next.mul(&field, &before)?;
    let identity = Matrix::identity(alloc, 3)?;
    assert_eq!(rt; product.size(), 3);
    for place in 0..product.size() {
        assert!(rt; is_unit(Some(product.row(place)), place));
    }
    for place in 0..identity.size() {
        assert!(rt; is_unit(Some(identity.row(place)), place));
    }
    let row = next.apply(&field, &Sparse::unit(alloc, 1))?;
    assert!(rt; is_unit(Some(&row), 2));
    Ok(())
}

/// The generator times the first letter, so many times.
fn power(alloc: Global, exponent: usize) -> Result<Word, Memory>
    ensures root { IfOk result (λ word. start word ≡ 0) }
    ensures letters { IfOk result (λ word. All (λ letter. letter < 2) (letters word)) }
{
    let mut word = Word::root(alloc, 0);
    for _ in 0..exponent {
        word.push(0)?;
    }
    Ok(word)
}

/// `e1*x*x*x - e1`.
fn relation(alloc: Global, field: &Field) -> Result<FreeMod, PresFault>
    requires { field.now ≡ 7 }
    ensures residues { IfOk result (λ element. IsReduced Shortlex field.now element) }
    ensures words { IfOk result (HasWordsBelow 1 2) }
{
    let letter = FreeAlg::letter(alloc, 0)?;
    let root = FreeMod::root(alloc, 0)?;
    let one = root.times(field, &letter)?;
    let two = one.times(field, &letter)?;
    let three = two.times(field, &letter)?;
    let minus = root.scale(field, 6)?;
    let difference = three.add(field, &minus)?;
    Ok(difference)
}

fn value_of_power(alloc: Global, answer: &Answer, exponent: usize) -> Result<Sparse, Memory>
    requires value { IsAnswerValue answer.now }
    requires names { length answer.now.names ≡ 2 }
    requires generators { answer.now.roots ≡ 1 }
{
    let word = power(alloc, exponent)?;
    answer.eval_word(&word)
}

fn value_of_relation(alloc: Global, answer: &Answer) -> Result<Sparse, Fail>
    requires value { IsAnswerValue answer.now }
    requires field { answer.now.field ≡ 7 }
    requires names { length answer.now.names ≡ 2 }
    requires generators { answer.now.roots ≡ 1 }
{
    let relation = relation(alloc, &answer.field)?;
    let value = answer.eval_free(&relation)?;
    Ok(value)
}

#[test]
fn values_in_the_three_cycle(rt: HostRuntime) -> Result<(), Fail> {
    let alloc = rt.alloc();
    let answer = answer(alloc, seven()?, 0, &NEXT, &BEFORE)?;
    for (exponent, place) in [(0, 0), (1, 1), (2, 2), (3, 0)] {
        let row = value_of_power(alloc, &answer, exponent)?;
        assert!(rt; is_unit(Some(&row), place));
    }
    let zero = value_of_relation(alloc, &answer)?;
    assert_eq!(rt; zero.len(), 0);
    let last = answer.basis_word(2)?;
    assert_eq!(rt; (last.root_of(), last.len()), (0, 1));
    Ok(())
}

/// An answer, the weights of x and X, and what its disorder is.
struct Case {
    image: u32,
    first: Places,
    weights: [u8; 2],
    disorder: Option<Disorder>,
}

const CASES: &[Case] = &[
    Case {
        image: 0,
        first: NEXT,
        weights: [1, 1],
        disorder: None,
    },
    // X is lighter than x, so `e1*X` comes first.
    Case {
        image: 0,
        first: NEXT,
        weights: [2, 1],
        disorder: Some(Disorder::Rising { row: 3 }),
    },
    Case {
        image: 1,
        first: BEFORE,
        weights: [2, 1],
        disorder: Some(Disorder::Rising { row: 3 }),
    },
    Case {
        image: 1,
        first: BEFORE,
        weights: [1, 1],
        disorder: Some(Disorder::Above { letter: 0, row: 1 }),
    },
    Case {
        image: 0,
        first: BEFORE,
        weights: [1, 1],
        disorder: Some(Disorder::Above { letter: 1, row: 1 }),
    },
    // `e1*X` is lighter than `e1*x*x`, and heavier than `e1*x`.
    Case {
        image: 0,
        first: NEXT,
        weights: [1, 3],
        disorder: Some(Disorder::Above { letter: 1, row: 2 }),
    },
];

fn presentation(alloc: Global, weights: [u8; 2]) -> Result<Presentation, Fail>
    requires { All (λ weight. (0 < weight) × (weight ≤ most_weight)) weights }
    ensures prime { IfOk result (λ draft. draft.presentation.prime ≡ 7) }
    ensures names { IfOk result (λ draft. draft.presentation.names ≡ (120 ∷ []) ∷ (88 ∷ []) ∷ []) }
    ensures generators { IfOk result (λ draft. draft.presentation.generators ≡ 1) }
{
    let mut presentation = Presentation::weighted(alloc, seven()?);
    presentation.add_pair("x", "X")?;
    presentation.weigh(0, weights[0]);
    presentation.weigh(1, weights[1]);
    Ok(presentation)
}

fn are_places(places: &[u32]) -> bool
    ensures { IsTrue result ↔ All (λ place. place < 3) places.now }
{
    places.iter().all(|place| *place < 3)
}

fn are_weights(weights: &[u8]) -> bool
    ensures { IsTrue result ↔ All (λ weight. (0 < weight) × (weight ≤ most_weight)) weights.now }
{
    weights.iter().all(|weight| *weight > 0 && *weight <= 16)
}

fn disorder_of(alloc: Global, case: &Case) -> Result<Option<Disorder>, Fail> {
    if case.image >= 3 || !are_places(&case.first) || !are_weights(&case.weights) {
        return Err(Memory.into());
    }
    let answer = answer(alloc, seven()?, case.image, &case.first, &BEFORE)?;
    let presentation = presentation(alloc, case.weights)?;
    let disorder = answer.disorder(&presentation)?;
    Ok(disorder)
}

#[test]
fn first_disorders(rt: HostRuntime) -> Result<(), Fail> {
    for (at, case) in CASES.iter().enumerate() {
        assert_eq!(rt; disorder_of(rt.alloc(), case)?, case.disorder, "at {at}");
    }
    Ok(())
}
