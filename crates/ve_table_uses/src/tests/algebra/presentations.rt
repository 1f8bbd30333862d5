//! Letters and relations of presentations.

ghost use Rattle.std.specs.Prelude.{◌≡◌, IfOk};
ghost use Rattle.ve_theory.specs.Combinations.{IsReduced};
ghost use Rattle.ve_theory.specs.Words.{ShortlexLetters};
ghost use Rattle.ve_pres.specs.Drafts.{IsOpen};
ghost use Rattle.ve_pres.specs.Terms.{HasLettersBelow};

use super::{
    Element, ONE, X, X_AND_Y, ZERO, element_of, has_terms, has_terms_in_module, in_module, power_of,
};
use std::alloc::Global;
use std::test::Fail;
use ve_field::Field;
use ve_pres::{FreeAlg, Limit, PresFault, Presentation};
use ve_word::NameFault;

// Tries to add letters. Those that stand are x with the inverse X, then a and b, which are their own inverses, and c.
#[tactic(auto, unfolding(ve_theory::specs::Validity::is_name))]
fn add_letters(p: &mut Presentation) -> [Result<u8, NameFault>; 7]
    requires { IsOpen p.old }
    ensures { IsOpen p.new }
{
    [
        p.add_pair("x", "X"),
        p.add_pair("y", "x"),
        p.add_involution("a"),
        p.add_involution("b"),
        p.add_letter("c"),
        p.add_letter("e1"),
        p.add_pair("z", "z"),
    ]
}

const ANSWERS: [Result<u8, NameFault>; 7] = [
    Ok(0),
    Err(NameFault::Taken(0)),
    Ok(2),
    Ok(3),
    Ok(4),
    Err(NameFault::Rooted),
    Err(NameFault::Taken(5)),
];

#[test]
fn letters_have_these_answers(rt: HostRuntime) -> Result<(), Fail> {
    let field = Field::new(2).ok_or("no field")?;
    let mut p = Presentation::new(rt.alloc(), field);
    assert!(rt; add_letters(&mut p) == ANSWERS && has_five_letters(&p));
    assert!(rt; bounds_generators(&mut p));
    assert!(rt; weighs(&mut Presentation::weighted(rt.alloc(), field)));
    Ok(())
}

fn has_five_letters(p: &Presentation) -> bool {
    p.names().count() == 5
        && p.names().find("y").is_none()
        && p.letter_relators() == 4
        && p.relator_count() == 4
}

fn bounds_generators(p: &mut Presentation) -> bool
    requires { IsOpen p.old }
{
    p.set_roots(256) == Err(PresFault::Limit(Limit::Roots))
        && p.roots() == 1
        && p.set_roots(255) == Ok(())
        && p.roots() == 255
}

// A letter of weight 3 and one of weight 1.
#[tactic(auto, unfolding(ve_theory::specs::Validity::is_name))]
fn weighs(p: &mut Presentation) -> bool
    requires open { IsOpen p.old }
    requires version { p.old.presentation.version ≡ 2 }
{
    if p.add_letter("x") != Ok(0) || p.add_letter("y") != Ok(1) {
        return false;
    }
    p.weigh(0, 3);
    p.weight_of(0) == 3 && p.weight_of(1) == 1 && p.greatest_weight() == 3 && p.d() == 3
}

/// An element, raised to a power and multiplied by a power of the first letter.
type Product = (Element, u32, u32);

/// Where an element is a relation: in the algebra, or behind the first generator in the module.
#[derive(Clone, Copy)]
enum Place {
    Algebra,
    Module,
}

/// A call on a presentation, and what it has to answer.
#[derive(Clone, Copy)]
enum Step {
    /// A relation is added, so many times.
    Relate(Place, Product, u32, Result<(), PresFault>),
    /// A relation and its half.
    Half(Element, Element),
    /// The presentation and its copy are those of `are_cosets`.
    AreCosets,
}

// Steps on balanced presentations modulo 3.
const CASES: &[&[Step]] = &[HALVES, COSETS, CELLS, MODULE_CELLS, RELATIONS];

const BRAID: Element = &[(1, &[2, 3, 2, 3, 2, 3]), (2, &[])];

const HALF_BRAID: Element = &[(2, &[3, 2, 3]), (1, &[2, 3, 2])];

const HALVES: &[Step] = &[
    Step::Half(BRAID, HALF_BRAID),
    Step::Half(HALF_BRAID, HALF_BRAID),
    Step::Half(&[(1, &[0, 0, 0]), (2, &[])], &[(1, &[0, 0]), (2, &[1])]),
    Step::Half(&[(1, &[4, 0, 2]), (1, &[3])], &[(1, &[4, 0]), (1, &[3, 2])]),
    // The letters that change sides stand in reversed order.
    Step::Half(
        &[(1, &[4, 4, 0, 2]), (2, &[])],
        &[(1, &[4, 4]), (2, &[2, 1])],
    ),
    // Both words of the half are equal.
    Step::Half(&[(1, &[2, 2]), (1, &[])], &[(2, &[2])]),
    Step::Half(&[(1, &[2, 2]), (2, &[])], ZERO),
    // There is no half: c has no inverse, and three terms are no relation between two words.
    Step::Half(&[(1, &[2, 4]), (2, &[])], &[(1, &[2, 4]), (2, &[])]),
    Step::Half(
        &[(1, &[2, 2]), (1, &[2]), (2, &[])],
        &[(1, &[2, 2]), (1, &[2]), (2, &[])],
    ),
];

// One reflection among the permutations of three points. Relations of which nothing is left are dropped.
const COSETS: &[Step] = &[
    Step::Relate(Place::Algebra, (ZERO, 1, 0), 1, Ok(())),
    Step::Relate(Place::Algebra, (BRAID, 1, 0), 1, Ok(())),
    Step::Relate(Place::Algebra, (&[(1, &[2, 2]), (2, &[])], 1, 0), 1, Ok(())),
    Step::Relate(Place::Module, (&[(1, &[2]), (2, &[])], 1, 0), 1, Ok(())),
    Step::Relate(Place::Module, (ZERO, 1, 0), 1, Ok(())),
    Step::AreCosets,
];

// With the relators of letters the first four take all cells that there are.
const CELLS: &[Step] = &[
    Step::Relate(Place::Algebra, (X_AND_Y, 12, 988), 2, Ok(())),
    Step::Relate(Place::Algebra, (X_AND_Y, 12, 32), 1, Ok(())),
    Step::Relate(Place::Algebra, (X_AND_Y, 4, 250), 1, Ok(())),
    Step::Relate(
        Place::Algebra,
        (ONE, 1, 0),
        1,
        Err(PresFault::Limit(Limit::Cells { cells: 8_388_609 })),
    ),
    Step::Relate(Place::Algebra, (ZERO, 1, 0), 1, Ok(())),
];

const MODULE_CELLS: &[Step] = &[
    Step::Relate(Place::Module, (X_AND_Y, 12, 988), 2, Ok(())),
    Step::Relate(Place::Module, (X_AND_Y, 12, 32), 1, Ok(())),
    Step::Relate(Place::Module, (X_AND_Y, 4, 250), 1, Ok(())),
    Step::Relate(
        Place::Module,
        (ONE, 1, 0),
        1,
        Err(PresFault::Limit(Limit::Cells { cells: 8_388_609 })),
    ),
    Step::Relate(Place::Module, (ZERO, 1, 0), 1, Ok(())),
];

// Relations that are dropped count.
const RELATIONS: &[Step] = &[
    Step::Relate(Place::Algebra, (ZERO, 1, 0), 2048, Ok(())),
    Step::Relate(Place::Module, (ZERO, 1, 0), 2048, Ok(())),
    Step::Relate(
        Place::Algebra,
        (ZERO, 1, 0),
        1,
        Err(PresFault::Limit(Limit::Relations)),
    ),
    Step::Relate(
        Place::Module,
        (ZERO, 1, 0),
        1,
        Err(PresFault::Limit(Limit::Relations)),
    ),
];

#[test]
fn relations_have_these_answers(rt: HostRuntime) -> Result<(), Fail> {
    let field = Field::new(3).ok_or("no field")?;
    for (at, steps) in CASES.iter().enumerate() {
        let passed = count_passed(rt.alloc(), field, steps)?;
        assert!(rt; passed == steps.len(), "step {passed} at {at}");
    }
    Ok(())
}

/// How many steps a balanced presentation takes before one that it answers otherwise.
fn count_passed(alloc: Global, field: Field, steps: &[Step]) -> Result<usize, PresFault> {
    let mut p = Presentation::weighted(alloc, field);
    p.balance();
    let _answers = add_letters(&mut p);
    take_steps(alloc, &mut p, steps)
}

fn take_steps(alloc: Global, p: &mut Presentation, steps: &[Step]) -> Result<usize, PresFault> {
    for (at, step) in steps.iter().enumerate() {
        if !passes(alloc, p, step)? {
            return Ok(at);
        }
    }
    Ok(steps.len())
}

fn passes(alloc: Global, p: &mut Presentation, step: &Step) -> Result<bool, PresFault> {
    match *step {
        Step::Relate(place, relation, times, answer) => {
            Ok(relates(alloc, p, place, relation, times, answer))
        }
        Step::Half(relation, half) => has_half(alloc, p, relation, half),
        Step::AreCosets => Ok(are_cosets(p) && are_cosets(&p.copy()?)),
    }
}

fn relates(
    alloc: Global,
    p: &mut Presentation,
    place: Place,
    relation: Product,
    times: u32,
    answer: Result<(), PresFault>,
) -> bool {
    for _ in 0..times {
        if relate(alloc, p, place, relation) != answer {
            return false;
        }
    }
    true
}

fn relate(
    alloc: Global,
    p: &mut Presentation,
    place: Place,
    relation: Product,
) -> Result<(), PresFault> {
    let element = product_of(alloc, p.field(), p.names().count(), relation)?;
    match place {
        Place::Algebra => p.add_relation(element),
        Place::Module => {
            let behind = in_module(alloc, p.field(), &element)?;
            p.add_sub(behind)
        }
    }
}

fn product_of(
    alloc: Global,
    field: &Field,
    count: u8,
    product: Product,
) -> Result<FreeAlg, PresFault>
    ensures reduced { IfOk result (λ r. IsReduced ShortlexLetters field.now r) }
    ensures letters { IfOk result (λ r. HasLettersBelow count r) }
{
    let (terms, power, more) = product;
    let front = power_of(alloc, field, count, terms, power)?;
    let back = power_of(alloc, field, count, X, more)?;
    front.mul(field, &back)
}

fn has_half(
    alloc: Global,
    p: &Presentation,
    relation: Element,
    half: Element,
) -> Result<bool, PresFault> {
    let element = element_of(alloc, p.field(), p.names().count(), relation)?;
    Ok(has_terms(&p.halved(&element)?, half))
}

fn are_cosets(p: &Presentation) -> bool {
    p.relator_count() == 5
        && has_terms(p.relator(0), &[(1, &[0, 1]), (2, &[])])
        && has_terms(p.relator(2), &[(1, &[2, 2]), (2, &[])])
        && has_terms(p.relator(4), HALF_BRAID)
        && p.sub_count() == 1
        && has_terms_in_module(p.sub(0), &[(1, &[2]), (2, &[])])
        && (p.d(), p.m()) == (3, 1)
}
