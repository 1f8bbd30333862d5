ghost use Rattle.ve_levels.specs.Opening.{Opens};

use std::alloc::Global;
use ve_pres::Presentation;
use ve_table::Table;
use ve_word::Memory;

/// What `start` answers.
#[derive(Drop)]
pub enum Opened {
    /// The table of level 0.
    Open(Table),
    /// Level 0 is larger than the limit.
    Over { size: u64 },
    /// Want of memory.
    Memory,
}

/// Opens the table of level 0, where it is at most as large as the limit.
pub fn start(alloc: Global, presentation: Presentation, limit: u32) -> Opened
    ensures { Opens presentation limit result }
{
    let size = u64::from(presentation.roots());
    if size > u64::from(limit) {
        return Opened::Over { size };
    }
    match Table::open(alloc, presentation) {
        Ok(table) => Opened::Open(table),
        Err(Memory) => Opened::Memory,
    }
}
