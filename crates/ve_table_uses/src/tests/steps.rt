//! Tables, step by step.

ghost use Rattle.std.specs.Prelude.{◌≡◌, IsTrue, Some, [], length, slice_get};
ghost use Rattle.ve_theory.specs.Combinations.{unit};
ghost use Rattle.ve_theory.specs.Presentations.{relators};
ghost use Rattle.ve_theory.specs.Answers.{IsRow};
ghost use Rattle.ve_table.specs.Tables.{presented};

mod examples;
mod settling;
mod tables;

use super::terms::{Terms, has_row, is_vector, is_vector_at, vector_of};
use crate::imposing::{traced_relator, traced_submodule_relation};
use crate::{impose_relator, impose_submodule_relation};
use std::alloc::Global;
use std::test::Fail;
use ve_read::read;
use ve_settle::{delete, image_of, resolve, rewrite};
use ve_table::{Origin, Table};
use ve_vec::{Rows, Sparse};
use ve_word::Memory;

/// A text, and the steps that its table takes from level 0 on.
struct Case {
    text: &'static str,
    steps: &'static [Step],
}

/// A call, and what it has to answer.
#[derive(Clone, Copy)]
enum Step {
    Shows(Look),
    /// `next_size` tells each of these sizes, and `grow_level` leaves so many ids, all live.
    Grow(&'static [u32]),
    /// The vector of an id times a relator, and which id dies of it.
    Relator(u32, u32, Terms, Option<u32>),
    /// The vector of a submodule relation, and which id dies of it.
    Submodule(u32, Terms, Option<u32>),
    /// `delete` of a vector answers this id, and this is the id's forward.
    Delete(Terms, Option<u32>, Terms),
    /// A vector, and what it is resolved to.
    Resolve(Terms, Terms),
    /// `image_of` answers this vector at a dead id and the first letter.
    Image(u32, Terms),
    /// `rewrite` answers this at an id and the first letter, and this is the row.
    Rewrite(u32, bool, Terms),
    /// The copy of a row takes its place.
    PutBack(u32, u8),
    /// `drop_dead` where no id is dead.
    DropNone,
}

/// What is seen of a table.
#[derive(Clone, Copy)]
enum Look {
    /// The level, the number of ids, and that of live ones.
    Counts(u32, u32, u32),
    /// How many ids the next level has.
    NextSize(u64),
    LeastDead(Option<u32>),
    /// A reach, and the first id of it.
    FirstOfReach(u64, u32),
    /// The reach and the length of an id's word.
    Reach(u32, u32, u32),
    /// The parent and the letter of an id.
    Origin(u32, u32, u8),
    /// The row of an id at a letter.
    Row(u32, u8, Option<Terms>),
    /// The vector that stands for an id.
    Forward(u32, Option<Terms>),
}

#[test]
fn tables_take_these_steps(rt: HostRuntime) -> Result<(), Fail> {
    for cases in [examples::CASES, tables::CASES, settling::CASES] {
        for case in cases {
            let passed = count_passed(rt.alloc(), case)?;
            assert!(rt;
                passed == case.steps.len(),
                "step {passed} of {}",
                case.text
            );
        }
    }
    Ok(())
}

/// How many steps the table of a text takes before one that it answers otherwise.
fn count_passed(alloc: Global, case: &Case) -> Result<usize, Memory> {
    match opened(alloc, case.text) {
        Some(mut table) => take_steps(alloc, &mut table, case.steps),
        None => Ok(0),
    }
}

fn take_steps(alloc: Global, table: &mut Table, steps: &[Step]) -> Result<usize, Memory> {
    for (at, step) in steps.iter().enumerate() {
        if !passes(alloc, table, step)? {
            return Ok(at);
        }
    }
    Ok(steps.len())
}

fn opened(alloc: Global, text: &str) -> Option<Table> {
    let presentation = read(alloc, text.as_bytes()).ok()?;
    Table::open(alloc, presentation).ok()
}

fn passes(alloc: Global, table: &mut Table, step: &Step) -> Result<bool, Memory> {
    match *step {
        Step::Shows(look) => Ok(shows(table, look)),
        Step::Grow(sizes) => grows(table, sizes),
        Step::Relator(id, number, vector, dies) => relates(alloc, table, id, number, vector, dies),
        Step::Submodule(number, vector, dies) => relates_in_module(
            alloc, table, number, vector, dies,
        ),
        Step::Delete(vector, dies, forward) => deletes(alloc, table, vector, dies, forward),
        Step::Resolve(vector, resolved) => resolves(alloc, table, vector, resolved),
        Step::Image(dead, image) => has_image(alloc, table, dead, image),
        Step::Rewrite(id, had, row) => rewrites(alloc, table, id, had, row),
        Step::PutBack(id, letter) => put_back(table, id, letter),
        Step::DropNone => drop_none(table),
    }
}

fn shows(table: &Table, look: Look) -> bool {
    let ids = table.id_count();
    match look {
        Look::Counts(level, count, live) => {
            (table.level(), ids, table.live_count()) == (level, count, live)
        }
        Look::NextSize(size) => table.next_size() == size,
        Look::LeastDead(dead) => table.least_dead() == dead,
        Look::FirstOfReach(reach, id) => table.first_of_reach(reach) == id,
        Look::Reach(id, reach, length) => {
            id < ids && table.reach(id) == reach && table.length(id) == length
        }
        Look::Origin(id, parent, letter) => {
            id < ids && table.origin(id) == (Origin::Child { parent, letter })
        }
        Look::Row(id, letter, row) => {
            table.has_row(id, letter) == row.is_some() && has_row(table, id, letter, row)
        }
        Look::Forward(id, forward) => id < ids && is_vector_at(table.forward(id), forward),
    }
}

fn grows(table: &mut Table, sizes: &[u32]) -> Result<bool, Memory> {
    for size in sizes {
        if table.live_count() != table.id_count()
            || table.next_size() != u64::from(*size)
            || table.level() > 1_000
        {
            return Ok(false);
        }
        table.grow_level()?;
        if (table.id_count(), table.live_count()) != (*size, *size) {
            return Ok(false);
        }
    }
    Ok(true)
}

fn relates(
    alloc: Global,
    table: &mut Table,
    id: u32,
    number: u32,
    vector: Terms,
    dies: Option<u32>,
) -> Result<bool, Memory> {
    if id >= table.id_count() || number >= table.presentation().relator_count() {
        return Ok(false);
    }
    if table.due(id, number) > u64::from(table.level()) {
        return Ok(false);
    }
    let traced = traced_relator(alloc, table, id, number)?;
    Ok(is_vector(&traced, vector) && impose_relator(alloc, table, id, number)? == dies)
}

fn relates_in_module(
    alloc: Global,
    table: &mut Table,
    number: u32,
    vector: Terms,
    dies: Option<u32>,
) -> Result<bool, Memory> {
    if number >= table.presentation().sub_count() {
        return Ok(false);
    }
    if table.due_sub(number) > u64::from(table.level()) {
        return Ok(false);
    }
    let traced = traced_submodule_relation(alloc, table, number)?;
    Ok(is_vector(&traced, vector) && impose_submodule_relation(alloc, table, number)? == dies)
}

fn deletes(
    alloc: Global,
    table: &mut Table,
    vector: Terms,
    answer: Option<u32>,
    forward: Terms,
) -> Result<bool, Memory> {
    table.is_sound();
    let vector = vector_of(alloc, table.presentation().field(), vector)?;
    if !is_row(table, &vector) || !table.has_live_ids(&vector) || !has_relator_one(table) {
        return Ok(false);
    }
    if delete(table, vector) != answer {
        return Ok(false);
    }
    Ok(match answer {
        Some(id) => id < table.id_count() && is_vector_at(table.forward(id), Some(forward)),
        None => true,
    })
}

fn resolves(alloc: Global, table: &Table, vector: Terms, resolved: Terms) -> Result<bool, Memory> {
    let vector = vector_of(alloc, table.presentation().field(), vector)?;
    if !is_row(table, &vector) {
        return Ok(false);
    }
    let found = resolve(alloc, table, &vector)?;
    Ok(is_vector(&found, resolved))
}

fn has_image(alloc: Global, table: &Table, dead: u32, image: Terms) -> Result<bool, Memory> {
    if !table.has_row(dead, 0) || table.forward(dead).is_none() {
        return Ok(false);
    }
    let found = image_of(alloc, table, dead, 0)?;
    Ok(is_vector(&found, image))
}

fn rewrites(
    alloc: Global,
    table: &mut Table,
    id: u32,
    had: bool,
    row: Terms,
) -> Result<bool, Memory> {
    if !table.has_row(id, 0) {
        return Ok(false);
    }
    let answer = rewrite(alloc, table, id, 0)?;
    Ok(answer == had && has_row(table, id, 0, Some(row)))
}

fn put_back(table: &mut Table, id: u32, letter: u8) -> Result<bool, Memory> {
    table.is_sound();
    let Some(row) = table.row(id, letter) else {
        return Ok(false);
    };
    let copy = row.copy()?;
    table.set_row(id, letter, copy);
    Ok(true)
}

fn drop_none(table: &mut Table) -> Result<bool, Memory> {
    table.is_sound();
    if table.live_count() != table.id_count() {
        return Ok(false);
    }
    table.drop_dead()?;
    Ok(true)
}

/// Whether the ids are the table's and the coefficients residues.
fn is_row(table: &Table, vector: &Sparse) -> bool
    ensures { IsTrue result → IsRow (presented table.now).prime (length table.now.words) vector.now }
{
    let Some(greatest) = vector.leading() else {
        return true;
    };
    greatest.id < table.id_count() && vector.fits(table.presentation().field())
}

/// Whether the first relator is 1, so that every vector vanishes.
fn has_relator_one(table: &Table) -> bool
    ensures { IsTrue result → slice_get (relators (presented table.now)) 0 ≡ Some (unit []) }
{
    let presentation = table.presentation();
    if presentation.relator_count() == 0 {
        return false;
    }
    let relator = presentation.relator(0);
    relator.term_count() == 1 && relator.coef_at(0) == 1 && relator.word_at(0).is_empty()
}
