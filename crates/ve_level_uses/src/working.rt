ghost use Rattle.std.specs.Prelude.{◌≤◌, IfOk};
ghost use Rattle.ve_levels.specs.Advancing.{most_limit};
ghost use Rattle.ve_level_uses.specs.Working.{IsReady, LeavesReady, Works};

use std::alloc::Global;
use ve_levels::{Advanced, advance};
use ve_plain::close_level;
use ve_table::Table;
use ve_word::Memory;

/// Does the work of a level, and advances.
pub fn work(alloc: Global, table: Table, limit: u32) -> Result<Advanced, Memory>
    requires limit { limit ≤ most_limit }
    requires ready { IsReady limit table }
    ensures works { IfOk result (Works table limit) }
    ensures ready { IfOk result (LeavesReady limit) }
{
    match close_level(alloc, table) {
        Ok(finished) => Ok(advance(alloc, finished, limit)),
        Err(_short) => Err(Memory),
    }
}
