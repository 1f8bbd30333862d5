ghost use Rattle.std.specs.Prelude.{◌≡◌, ◌<◌, ◌↔◌, [], ◌∷◌, All, IfOk, IsTrue, length, map};
ghost use Rattle.ve_theory.specs.Combinations.{unit};
ghost use Rattle.ve_matrix.specs.Answers.{IsAnswerValue};

use super::*;
use std::alloc::Global;
use std::test::Fail;
use ve_field::Field;
use ve_matrix::{Answer, Matrix};
use ve_pres::Presentation;
use ve_table::Origin;
use ve_vec::Sparse;
use ve_word::{Memory, NameFault, Names};

/// An answer on `e1` and `e1*x`: the prime, the place of the 1 in the row of `e1`, those in the rows of x, and what is said of
/// it over the field of 2 elements, where x is its own inverse.
struct Case {
    prime: u64,
    image: u32,
    rows: [u32; 2],
    verdict: Verdict,
}

const CASES: &[Case] = &[
    Case {
        prime: 2,
        image: 0,
        rows: [1, 0],
        verdict: Verdict::Yes,
    },
    // `e1*x*x` is `e1*x`.
    Case {
        prime: 2,
        image: 0,
        rows: [1, 1],
        verdict: Verdict::No(WhyNot::RelatorFails { number: 1, row: 1 }),
    },
    Case {
        prime: 3,
        image: 0,
        rows: [1, 0],
        verdict: Verdict::No(WhyNot::Shape),
    },
    // The value of `e1` is the row of `e1*x`.
    Case {
        prime: 2,
        image: 1,
        rows: [1, 0],
        verdict: Verdict::No(WhyNot::BasisWord { row: 1 }),
    },
];

fn two_cycle(alloc: Global) -> Result<Presentation, Fail> {
    let Some(field) = Field::new(2) else {
        return Err(Memory.into());
    };
    let mut presentation = Presentation::new(alloc, field);
    presentation.add_involution("x")?;
    Ok(presentation)
}

fn names(alloc: Global) -> Result<Names, NameFault>
    ensures { IfOk result (λ names. length names ≡ 1) }
{
    let mut names = Names::new(alloc);
    names.add("x")?;
    Ok(names)
}

fn basis(alloc: Global) -> Result<Vec<Origin>, Memory>
    ensures { IfOk result (λ basis. basis.items ≡ Origin.Root 0 ∷ Origin.Child 0 0 ∷ []) }
{
    let mut basis = Vec::new(alloc);
    basis.push(Origin::Root(0))?;
    basis.push(Origin::Child {
        parent: 0,
        letter: 0,
    })?;
    Ok(basis)
}

/// Rows with a 1 at these places.
fn units(alloc: Global, places: &[u32]) -> Result<Vec<Sparse>, Memory>
    ensures { IfOk result (λ rows. rows.items ≡ map unit places.now) }
{
    let mut rows = Vec::new(alloc);
    for place in places {
        rows.push(Sparse::unit(alloc, *place))?;
    }
    Ok(rows)
}

fn matrices(alloc: Global, places: &[u32]) -> Result<Vec<Matrix>, Memory>
    requires count { length places.now ≡ 2 }
    requires places { All (λ place. place < 2) places.now }
    ensures { IfOk result (λ matrices. matrices.items ≡ map unit places.now ∷ []) }
{
    let rows = units(alloc, places)?;
    let mut matrices = Vec::new(alloc);
    matrices.push(Matrix::of_rows(rows))?;
    Ok(matrices)
}

fn answer(alloc: Global, field: Field, image: u32, rows: &[u32]) -> Result<Answer, Fail>
    requires image { image < 2 }
    requires count { length rows.now ≡ 2 }
    requires rows { All (λ place. place < 2) rows.now }
    ensures { IfOk result IsAnswerValue }
{
    field.has_prime();
    Ok(Answer {
        field,
        names: names(alloc)?,
        roots: 1,
        closed: 3,
        basis: basis(alloc)?,
        images: units(alloc, &[image])?,
        matrices: matrices(alloc, rows)?,
    })
}

fn are_places(places: &[u32]) -> bool
    ensures { IsTrue result ↔ All (λ place. place < 2) places.now }
{
    places.iter().all(|place| *place < 2)
}

fn verdict_of(alloc: Global, case: &Case) -> Result<Verdict, Fail> {
    let Some(field) = Field::new(case.prime) else {
        return Err(Memory.into());
    };
    if case.image >= 2 || !are_places(&case.rows) {
        return Err(Memory.into());
    }
    let presentation = two_cycle(alloc)?;
    let answer = answer(alloc, field, case.image, &case.rows)?;
    let verdict = check(&presentation, &answer)?;
    Ok(verdict)
}

#[test]
fn answers_of_the_two_cycle(rt: HostRuntime) -> Result<(), Fail> {
    for (at, case) in CASES.iter().enumerate() {
        assert_eq!(rt; verdict_of(rt.alloc(), case)?, case.verdict, "at {at}");
    }
    Ok(())
}
