//! Vectors times words and relations, along the rows of tables that are written down.

ghost use Rattle.std.specs.Prelude.{◌<◌, All, IfOk};
ghost use Rattle.ve_theory.specs.Combinations.{IsReduced};
ghost use Rattle.ve_theory.specs.Words.{Shortlex};

use super::algebra::{Element, element_of};
use std::alloc::Global;
use std::test::Fail;
use ve_field::Field;
use ve_pres::{FreeMod, PresFault};
use ve_trace::{trace_relator, trace_sub, trace_word};
use ve_vec::{Rows, Sparse, Term};
use ve_word::Memory;

/// How many ids there are.
const IDS: usize = 1_000;

/// A table with the rows of the ids, letter by letter. Those that are missing are zero.
#[derive(Drop)]
struct Grid {
    rows: Vec<Sparse>,
    zero: Sparse,
}

impl Rows for Grid {
    ghost use Rattle.std.specs.Prelude.{Some, slice_index_or, ◌+◌, ◌*◌};
    ghost use Rattle.ve_table_uses.specs.declared.tests.tracing.TheConstants.{IDS};

    ghost rows = { λ grid id letter. Some (slice_index_or grid.rows.items (id + letter * IDS) grid.zero) };

    fn row(&self, id: u32, letter: u8) -> Option<&Sparse> {
        let place = id as usize + usize::from(letter) * IDS;
        match self.rows.get(place) {
            Some(row) => Some(row),
            None => Some(&self.zero),
        }
    }
}

/// What is traced.
enum Trace {
    /// The sum of these ids, along letters.
    Word(&'static [u8], &'static [u8]),
    /// A relator, at the id 0.
    Relator(Element),
    /// A relation between the ids 0 and 1 as generators.
    Relation(&'static [(u8, Element)]),
}

/// A table modulo a prime in which the first letter takes each of the ids below a count to the sum of those so far above it,
/// and all others to zero. What is traced has these coefficients at the ids from 0 on, and no others.
struct Case {
    prime: u64,
    count: u8,
    above: &'static [u8],
    trace: Trace,
    coefs: &'static [u8],
}

const CASES: &[Case] = &[
    // The ids are the words e1, e1*x and e1*x*x.
    Case {
        prime: 2,
        count: 2,
        above: &[1],
        trace: Trace::Word(&[0], &[]),
        coefs: &[1],
    },
    Case {
        prime: 2,
        count: 2,
        above: &[1],
        trace: Trace::Word(&[0], &[0]),
        coefs: &[0, 1],
    },
    Case {
        prime: 2,
        count: 2,
        above: &[1],
        trace: Trace::Word(&[0], &[0, 0]),
        coefs: &[0, 0, 1],
    },
    Case {
        prime: 2,
        count: 2,
        above: &[1],
        trace: Trace::Relator(&[(1, &[0, 0]), (1, &[])]),
        coefs: &[1, 0, 1],
    },
    // The ids are the words e1, e2, e1*x and e2*x, and the relation is e2 - e1*x.
    Case {
        prime: 3,
        count: 2,
        above: &[2],
        trace: Trace::Relation(&[(0, &[(2, &[0])]), (1, &[(1, &[])])]),
        coefs: &[0, 1, 2],
    },
    // A relator of more words than are traced each by itself.
    Case {
        prime: 3,
        count: 10,
        above: &[2, 1],
        trace: Trace::Relator(&[
            (1, &[0, 0, 0, 0]),
            (1, &[0, 0, 0]),
            (1, &[0, 0]),
            (1, &[0]),
            (1, &[]),
        ]),
        coefs: &[1, 1, 2, 0, 2, 1, 1, 1, 1],
    },
    // Of forty rows that overlap, halves are added up first.
    Case {
        prime: 3,
        count: 40,
        above: &[2, 1],
        trace: Trace::Word(
            &[
                0, 1, 2, 3, 4, 5, 6, 7, 8, 9, 10, 11, 12, 13, 14, 15, 16, 17, 18, 19, 20, 21, 22,
                23, 24, 25, 26, 27, 28, 29, 30, 31, 32, 33, 34, 35, 36, 37, 38, 39,
            ],
            &[0],
        ),
        coefs: &[
            0, 1, 2, 2, 2, 2, 2, 2, 2, 2, 2, 2, 2, 2, 2, 2, 2, 2, 2, 2, 2, 2, 2, 2, 2, 2, 2, 2, 2,
            2, 2, 2, 2, 2, 2, 2, 2, 2, 2, 2, 2, 1, 0,
        ],
    },
];

#[test]
fn traces_have_these_coefficients(rt: HostRuntime) -> Result<(), Fail> {
    for (at, case) in CASES.iter().enumerate() {
        assert!(rt; passes(rt.alloc(), case)?, "at {at}");
    }
    Ok(())
}

fn passes(alloc: Global, case: &Case) -> Result<bool, PresFault> {
    let Some(field) = Field::new(case.prime) else {
        return Ok(false);
    };
    let grid = Grid {
        rows: sums_above(alloc, &field, case.count, case.above)?,
        zero: Sparse::zero(alloc),
    };
    match case.trace {
        Trace::Word(start, letters) => traces_word(
            alloc, &field, &grid, start, letters, case.coefs,
        ),
        Trace::Relator(relator) => traces_relator(alloc, &field, &grid, relator, case.coefs),
        Trace::Relation(parts) => traces_relation(alloc, &field, &grid, parts, case.coefs),
    }
}

/// For each id below the count, the sum of the ids that are so far above it.
fn sums_above(alloc: Global, field: &Field, count: u8, above: &[u8]) -> Result<Vec<Sparse>, Memory>
    ensures { IfOk result (λ rows. All (IsReduced ◌<◌ field.now) rows.items) }
{
    let mut rows = Vec::new(alloc);
    for id in 0..count {
        rows.push(sum_above(alloc, field, id, above)?)?;
    }
    Ok(rows)
}

fn sum_above(alloc: Global, field: &Field, id: u8, above: &[u8]) -> Result<Sparse, Memory>
    ensures { IfOk result (λ v. IsReduced ◌<◌ field.now v) }
{
    field.has_prime();
    let mut sum = Sparse::zero(alloc);
    for distance in above {
        let term = Term {
            id: u32::from(id) + u32::from(*distance),
            coef: 1,
        };
        sum.add_scaled_term(field, 1, term)?;
    }
    Ok(sum)
}

/// The sum of generators, each times an element of the algebra.
fn module_element(
    alloc: Global,
    field: &Field,
    parts: &[(u8, Element)],
) -> Result<FreeMod, PresFault>
    ensures { IfOk result (λ q. IsReduced Shortlex field.now q) }
{
    field.has_prime();
    let mut sum = FreeMod::zero(alloc);
    for (root, terms) in parts {
        sum = sum.plus(field, module_part(alloc, field, *root, terms)?)?;
    }
    Ok(sum)
}

/// A generator times an element of the algebra.
fn module_part(alloc: Global, field: &Field, root: u8, terms: Element) -> Result<FreeMod, PresFault>
    ensures { IfOk result (λ q. IsReduced Shortlex field.now q) }
{
    field.has_prime();
    let element = element_of(alloc, field, 2, terms)?;
    FreeMod::root(alloc, root)?.times(field, &element)
}

fn traces_word(
    alloc: Global,
    field: &Field,
    grid: &Grid,
    start: &[u8],
    letters: &[u8],
    coefs: &[u8],
) -> Result<bool, PresFault>
    requires rows { All (IsReduced ◌<◌ field.now) grid.now.rows.items }
    requires zero { IsReduced ◌<◌ field.now grid.now.zero }
{
    let sum = sum_above(alloc, field, 0, start)?;
    let traced = trace_word(alloc, grid, field, &sum, letters)?;
    Ok(has_coefs(&traced, coefs))
}

fn traces_relator(
    alloc: Global,
    field: &Field,
    grid: &Grid,
    terms: Element,
    coefs: &[u8],
) -> Result<bool, PresFault>
    requires rows { All (IsReduced ◌<◌ field.now) grid.now.rows.items }
    requires zero { IsReduced ◌<◌ field.now grid.now.zero }
{
    let relator = element_of(alloc, field, 2, terms)?;
    let traced = trace_relator(alloc, grid, field, 0, &relator)?;
    Ok(has_coefs(&traced, coefs))
}

fn traces_relation(
    alloc: Global,
    field: &Field,
    grid: &Grid,
    parts: &[(u8, Element)],
    coefs: &[u8],
) -> Result<bool, PresFault>
    requires rows { All (IsReduced ◌<◌ field.now) grid.now.rows.items }
    requires zero { IsReduced ◌<◌ field.now grid.now.zero }
{
    let images = sums_above(alloc, field, 2, &[0])?;
    let relation = module_element(alloc, field, parts)?;
    let traced = trace_sub(alloc, grid, field, &images, &relation)?;
    Ok(has_coefs(&traced, coefs))
}

fn has_coefs(vector: &Sparse, coefs: &[u8]) -> bool {
    vector.len() == coefs.iter().filter(|coef| **coef != 0).count()
        && coefs.iter().enumerate().all(|(id, coef)| match u32::try_from(id) {
            Ok(id) => vector.coef_of(id) == *coef,
            Err(_) => false,
        })
}
