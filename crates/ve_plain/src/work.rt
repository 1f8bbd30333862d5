//! A level at work.

ghost use Rattle.std.specs.Prelude.{◌≡◌, ◌++◌, ◌∷◌, [], IfOk, OnErr, OnOk, length};
ghost use Rattle.ve_theory.specs.Answers.{IsRow};
ghost use Rattle.ve_theory.specs.Derivations.{DerivedWithin};
ghost use Rattle.ve_table.specs.Tables.{IsDead, element_of, presented};
ghost use Rattle.ve_table.specs.Sound.{IsSound};
ghost use Rattle.ve_plain.specs.Working.{Continues, Vanishes};

use std::alloc::Global;
use ve_machine::forwards::{deaths_keep, forwardings_are_a_space};
use ve_machine::work::stays_under_way;
use ve_settle::{delete, into_resolved, rewrite};
use ve_table::{Origin, Table};
use ve_theory::derivations::levels_are_closed;
use ve_theory::elements::sums_add_coefficients;
use ve_theory::order::reach_adds_up;
use ve_vec::Sparse;
use ve_word::Memory;

/// The table of a level, and dead ids whose image jobs are to be done, the next one last.
#[derive(Drop)]
pub(crate) struct Work {
    pub(crate) alloc: Global,
    pub(crate) table: Table,
    pub(crate) waiting: Vec<u32>,
}

impl Work {
    ghost use Rattle.ve_plain.specs.Works.{Imposes};

    /// Nothing waits yet.
    pub(crate) fn new(alloc: Global, table: Table) -> Work
        ensures table { result.table ≡ table }
        ensures idle { result.waiting.items ≡ [] }
    {
        Work {
            alloc,
            table,
            waiting: Vec::new(alloc),
        }
    }

    /// Makes the greatest id of a vanishing vector dead, once the vector has live ids alone.
    pub(crate) fn impose(&mut self, vector: Sparse) -> Result<(), Memory>
        requires row { IsRow (presented self.old.table).prime (length self.old.table.words) vector }
        requires vanishes { DerivedWithin (presented self.old.table) self.old.table.level (element_of self.old.table vector) }
        ensures continues { Continues self.old.table self.new.table }
        ensures ok { OnOk result (Imposes self.old vector self.new) }
    {
        if let Some(id) = delete_resolved(self.alloc, &mut self.table, vector)? {
            self.waiting.push(id)?;
            rewrite_parent(self.alloc, &mut self.table, id)?;
        }
        Ok(())
    }
}

/// Resolves a vector that vanishes and deletes it. The id that died, if one did.
fn delete_resolved(alloc: Global, table: &mut Table, vector: Sparse) -> Result<Option<u32>, Memory>
    requires row { IsRow (presented table.old).prime (length table.old.words) vector }
    requires vanishes { DerivedWithin (presented table.old) table.old.level (element_of table.old vector) }
    ensures ok { IfOk result (λ died. Vanishes table.old vector died table.new) }
    ensures err { OnErr result (table.new ≡ table.old) }
    ensures sound { IsSound table.new }
{
    levels_are_closed();
    sums_add_coefficients();
    forwardings_are_a_space();
    deaths_keep();
    stays_under_way();
    table.is_sound();
    let resolved = into_resolved(alloc, table, vector)?;
    Ok(delete(table, resolved))
}

// Until a relation brings it elsewhere, an id stands in the row of its parent alone.
fn rewrite_parent(alloc: Global, table: &mut Table, id: u32) -> Result<(), Memory>
    requires { IsDead table.old id }
    ensures continues { Continues table.old table.new }
    ensures forwards { table.new.forwards ≡ table.old.forwards }
{
    reach_adds_up();
    stays_under_way();
    table.is_sound();
    if let Origin::Child { parent, letter } = table.origin(id) {
        if table.is_live(parent) {
            rewrite(alloc, table, parent, letter)?;
        }
    }
    Ok(())
}
