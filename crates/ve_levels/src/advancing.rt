ghost use Rattle.std.specs.Prelude.{◌≡◌, ℕ, ◌+◌, ◌<◌, ◌≤◌, ◌^◌, IfErr, IfOk};
ghost use Rattle.ve_theory.specs.Levels.{Closes, FitsLimit};
ghost use Rattle.ve_table.specs.Tables.{presented};
ghost use Rattle.ve_table.specs.Changes.{Grows, next_count};
ghost use Rattle.ve_machine.specs.Finished.{IsPacked};
ghost use Rattle.ve_levels.specs.Advancing.{Advances, most_limit};

use std::alloc::Global;
use ve_pack::{pack, packed_words_are_live};
use ve_settle::{Finished, finish};
use ve_table::Table;
use ve_theory::levels::{finished_levels_settle, open_levels_are_bounded};
use ve_theory::order::valid_reaches_are_small;
use ve_word::Memory;

/// What `advance` answers.
#[derive(Drop)]
pub enum Advanced {
    /// The level closes. The table is packed.
    Closed(Finished),
    /// The table of the next level, just opened.
    Next(Table),
    /// The next level is larger than the limit.
    Over {
        last: Finished,
        level: u32,
        size: u64,
    },
    /// Want of memory. The table is finished at the level as it was.
    Memory(Finished),
}

/// Closes the enumeration, or opens the next level where it is at most as large as the limit.
pub fn advance(alloc: Global, finished: Finished, limit: u32) -> Advanced
    requires limit { limit ≤ most_limit }
    requires fits { FitsLimit (presented finished) limit finished.level }
    ensures { Advances finished limit result }
{
    finished_levels_settle();
    open_levels_are_bounded();
    valid_reaches_are_small();
    finished.is_finished();
    if finished.closes() {
        return close(alloc, finished);
    }
    let size = finished.table().next_size();
    if size > u64::from(limit) {
        let level = finished.table().level() + 1;
        return Advanced::Over {
            last: finished,
            level,
            size,
        };
    }
    open_next(alloc, finished)
}

/// Packs the table of a level that closes.
fn close(alloc: Global, finished: Finished) -> Advanced
    requires { Closes (presented finished) finished.level }
    ensures { (limit : ℕ) → Advances finished limit result }
{
    match pack(alloc, finished) {
        Ok(packed) => Advanced::Closed(packed),
        Err(last) => Advanced::Memory(last),
    }
}

/// Opens the level after one that doesn't close.
fn open_next(alloc: Global, finished: Finished) -> Advanced
    requires is_open { ¬ Closes (presented finished) finished.level }
    requires ids { next_count finished < 2 ^ 32 }
    requires level { finished.level + 1 < 2 ^ 32 }
    ensures { (limit : ℕ) → next_count finished ≤ limit → Advances finished limit result }
{
    finished_levels_settle();
    packed_words_are_live();
    finished.is_finished();
    let packed = match pack(alloc, finished) {
        Ok(packed) => packed,
        Err(last) => return Advanced::Memory(last),
    };
    packed.is_finished();
    match grow(packed) {
        Ok(table) => Advanced::Next(table),
        Err(last) => Advanced::Memory(last),
    }
}

/// Grows a packed table by one level.
fn grow(packed: Finished) -> Result<Table, Finished>
    requires live { IsPacked packed }
    requires ids { next_count packed < 2 ^ 32 }
    requires level { packed.level + 1 < 2 ^ 32 }
    ensures ok { IfOk result (Grows packed) }
    ensures err { IfErr result (λ last. last ≡ packed) }
{
    packed.is_finished();
    let mut table = packed.into_table();
    match table.grow_level() {
        Ok(()) => Ok(table),
        Err(Memory) => Err(finish(table)),
    }
}
