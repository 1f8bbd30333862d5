//! Enumerating a module: level by level, until one closes or is outgrown.

ghost use Rattle.std.specs.Prelude.{◌≤◌};
ghost use Rattle.ve_levels.specs.Advancing.{most_limit};
ghost use Rattle.ve_main.specs.Endings.{EndsIn};

use std::alloc::Global;
use ve_levels::{Advanced, Opened, advance, start};
use ve_plain::close_level;
use ve_pres::Presentation;
use ve_settle::Finished;
use ve_theory::order::reaches_are_bounded;

/// How an enumeration ends.
#[derive(Drop)]
pub(crate) enum Ended {
    /// At the closing level, whose table is packed.
    Closed(Finished),
    /// At the first level that is larger than the limit.
    Over { level: u32, size: u64 },
    /// By want of memory.
    Memory,
}

/// Enumerates the presented module, with levels of at most `limit` vectors.
pub(crate) fn enumerate(alloc: Global, presentation: Presentation, limit: u32) -> Ended
    requires { limit ≤ most_limit }
    ensures { EndsIn presentation limit result }
{
    reaches_are_bounded();
    presentation.is_valid();
    let mut table = match start(alloc, presentation, limit) {
        Opened::Open(table) => table,
        Opened::Over { size } => return Ended::Over { level: 0, size },
        Opened::Memory => return Ended::Memory,
    };
    'levels: loop {
        let Ok(finished) = close_level(alloc, table) else {
            return Ended::Memory;
        };
        table = match advance(alloc, finished, limit) {
            Advanced::Next(next) => next,
            Advanced::Closed(last) => return Ended::Closed(last),
            Advanced::Over { level, size, .. } => return Ended::Over { level, size },
            Advanced::Memory(_) => return Ended::Memory,
        };
    }
}
