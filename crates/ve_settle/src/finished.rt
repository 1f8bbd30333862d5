//! Tables whose level is finished.

ghost use Rattle.std.specs.Prelude.{◌≡◌, ◌+◌, ◌≤◌, ◌↔◌, IsTrue};
ghost use Rattle.ve_theory.specs.Words.{Word};
ghost use Rattle.ve_theory.specs.Presentations.{reach, relator_bound};
ghost use Rattle.ve_theory.specs.Levels.{Closes, IsNormal};
ghost use Rattle.ve_table.specs.Tables.{presented};
ghost use Rattle.ve_machine.specs.Finished.{IsFinishedTable, IsPacked};
ghost use Rattle.ve_settle.specs.NormalWords.{FinishedTablesSettle};

use crate::live::greatest_live_id;
use std::marker::Model;
use ve_table::Table;

/// A table whose level is finished: its live words are the level's normal words, and a combination of words up to the level
/// resolves to zero exactly where it is derived within it.
#[derive(Drop)]
pub struct Finished {
    table: Table,
}

impl Model for Finished {
    ghost use Rattle.ve_table.specs.Tables.{ActionTable, table_code};
    ghost use Rattle.ve_machine.specs.Finished.{IsFinishedTable};

    ghost Value = { ActionTable };

    ghost coded = { table_code };

    ghost view = { λ finished. finished.table };

    ghost invariant = { λ finished. IsFinishedTable finished.table };
}

/// A finished table, as one.
pub fn finish(table: Table) -> Finished
    requires { IsFinishedTable table }
    ensures { result ≡ table }
{
    Finished { table }
}

/// The live words of a finished table are the normal words of its level.
pub fn finished_tables_settle()
    ensures { FinishedTablesSettle }
{
    ve_theory::levels::finished_levels_settle();
}

impl Finished {
    /// The table.
    pub fn table(&self) -> &Table
        ensures { result.now ≡ self.now }
    {
        &self.table
    }

    /// The table, to be worked on.
    pub fn into_table(self) -> Table
        ensures { result ≡ self }
    {
        self.table
    }

    /// Whether no id is dead.
    pub fn is_packed(&self) -> bool
        ensures { IsTrue result ↔ IsPacked self.now }
    {
        self.table.live_count() == self.table.id_count()
    }

    /// Whether the level closes the enumeration.
    pub fn closes(&self) -> bool
        ensures { IsTrue result ↔ Closes (presented self.now) self.now.level }
    {
        self.table.presentation().m() <= self.table.level() && self.covers_relators()
    }

    /// Whether every relator was due at every normal word.
    fn covers_relators(&self) -> bool
        ensures { IsTrue result ↔ ((w : Word) → IsNormal (presented self.now) self.now.level w
            → reach (presented self.now) w + relator_bound (presented self.now) ≤ self.now.level) }
    {
        finished_tables_settle();
        ve_theory::order::words_are_ordered();
        // Ids are in the order of words, so no live word reaches further than the last one.
        match greatest_live_id(&self.table) {
            Some(id) => {
                let reach = u64::from(self.table.reach(id));
                let bound = u64::from(self.table.presentation().d());
                reach + bound <= u64::from(self.table.level())
            }
            None => true,
        }
    }

    /// What holds of every finished table, for proofs.
    pub fn is_finished(&self)
        ensures { IsFinishedTable self.now }
    {
        let _table = &self.table;
    }
}
