//! What is left of a level once its work is done.

use super::{TWO_CYCLE, is_unit, table_at};
use std::alloc::Global;
use std::test::Fail;
use ve_pack::pack;
use ve_plain::close_level;
use ve_settle::Finished;
use ve_table::Table;
use ve_vec::Rows;
use ve_word::Memory;

/// A text, a level, its live ids, and whether it closes. The row of an id at a letter is the unit of another id.
struct Case {
    text: &'static str,
    level: u32,
    live: &'static [u32],
    closes: bool,
    row: (u32, u8, u32),
}

const CASES: &[Case] = &[
    // The ids are e1, e1*x, e1*x*x.
    Case {
        text: TWO_CYCLE,
        level: 2,
        live: &[0, 1],
        closes: false,
        row: (1, 0, 0),
    },
    // The ids are e1, e1*x, e1*y.
    Case {
        text: "venum 1\nprime 2\nletter x\nletter y\nmodule 1\nrelation x^2 = 1\nrelation y^2 = 1\nsub e1*y = e1*x\nend\n",
        level: 1,
        live: &[0, 1],
        closes: false,
        row: (0, 1, 1),
    },
    // Of e1, e1*y, e1*x, e1*y*y the second relator at e1 kills e1*y, and its image job e1*y*y.
    Case {
        text: "venum 2\nprime 2\nletter x weight 2\nletter y\nmodule 1\nrelation x = y\nrelation x = 1\nend\n",
        level: 2,
        live: &[0],
        closes: true,
        row: (0, 1, 0),
    },
];

#[test]
fn levels_are_finished(rt: HostRuntime) -> Result<(), Fail> {
    for (at, case) in CASES.iter().enumerate() {
        assert!(rt; passes(rt.alloc(), case)?, "case {at}");
    }
    Ok(())
}

fn passes(alloc: Global, case: &Case) -> Result<bool, Fail> {
    let finished = finished_at(alloc, case.text, case.level)?;
    let (id, letter, image) = case.row;
    let table = finished.table();
    Ok(
        has_live_ids(table, case.live)
            && finished.closes() == case.closes
            && finished.is_packed() == (case.live.len() == table.id_count() as usize)
            && is_unit(table.row(id, letter), image),
    )
}

/// The table of two words that is left of the two-cycle at level 2.
#[test]
fn two_cycle_is_packed(rt: HostRuntime) -> Result<(), Fail> {
    let finished = finished_at(rt.alloc(), TWO_CYCLE, 2)?;
    assert!(rt; finished.table().id_count() == 3);
    let packed = match pack(rt.alloc(), finished) {
        Ok(packed) => packed,
        Err(_last) => return Err(Memory.into()),
    };
    assert!(rt; packed.is_packed());
    let table = packed.table();
    assert!(rt; table.id_count() == 2);
    assert!(rt; is_unit(table.row(0, 0), 1));
    assert!(rt; is_unit(table.row(1, 0), 0));
    Ok(())
}

/// A level of a text, once its work is done.
fn finished_at(alloc: Global, text: &str, level: u32) -> Result<Finished, Fail> {
    let Some(table) = table_at(alloc, text, 8, level)? else {
        return Err("no such level".into());
    };
    match close_level(alloc, table) {
        Ok(finished) => Ok(finished),
        Err(_short) => Err(Memory.into()),
    }
}

/// Whether these are the live ids.
fn has_live_ids(table: &Table, live: &[u32]) -> bool {
    (0..table.id_count()).all(|id| table.is_live(id) == live.contains(&id))
}
