//! Presentations by their texts, from level 0 to where the enumeration ends.

ghost use Rattle.std.specs.Prelude.{◌≤◌, IfOk, IfSome};
ghost use Rattle.ve_levels.specs.Advancing.{most_limit};
ghost use Rattle.ve_level_uses.specs.Working.{IsReady, StartsReady};

mod answers;
mod finished;
mod hands;
mod seats;
mod three_cycle;

use crate::work;
use std::alloc::Global;
use std::test::Fail;
use ve_levels::{Advanced, Opened, start};
use ve_read::read;
use ve_table::Table;
use ve_vec::{Sparse, Term};
use ve_word::Memory;

/// How an enumeration ends: at a closing level, or before a level that is too large.
#[derive(Clone, Copy, Debug, PartialEq, Eq)]
enum End {
    Closed { level: u32 },
    Over { level: u32, size: u64 },
}

/// A text, a limit, the sizes of the levels that are worked on, and the end.
struct Example {
    text: &'static str,
    limit: u32,
    sizes: &'static [u32],
    end: End,
}

const TWO_CYCLE: &str = "venum 1\nprime 2\nletter x\nmodule 1\nrelation x^2 = 1\nend\n";

const TRIANGLE_COSETS: &str =
    "venum 1\nprime 3\ninvolution a\ninvolution b\nmodule 1\nrelation (a*b)^3 = 1\nsub e1*a = e1\nend\n";

const FREE_PAIR: &str = "venum 1\nprime 2\nletter x\nmodule 2\nend\n";

const EXAMPLES: &[Example] = &[
    Example {
        text: TWO_CYCLE,
        limit: 3,
        sizes: &[1, 2, 3, 2],
        end: End::Closed { level: 3 },
    },
    Example {
        text: TWO_CYCLE,
        limit: 2,
        sizes: &[1, 2],
        end: End::Over { level: 2, size: 3 },
    },
    Example {
        text: TRIANGLE_COSETS,
        limit: 8,
        sizes: &[1, 3, 4, 5, 6, 7, 8, 3, 3],
        end: End::Closed { level: 8 },
    },
    Example {
        text: TRIANGLE_COSETS,
        limit: 7,
        sizes: &[1, 3, 4, 5, 6, 7],
        end: End::Over { level: 6, size: 8 },
    },
    // A three-cycle and its inverse.
    Example {
        text: "venum 1\nprime 7\nletter x inverse X\nmodule 1\nrelation x^3 = 1\nend\n",
        limit: 9,
        sizes: &[1, 3, 7, 9, 8],
        end: End::Closed { level: 4 },
    },
    // Tied generators.
    Example {
        text: "venum 1\nprime 3\nletter x\nmodule 2\nrelation x^2 = 1\nsub e2 = e1*x\nend\n",
        limit: 4,
        sizes: &[2, 4, 4],
        end: End::Closed { level: 2 },
    },
    // Proportional generators.
    Example {
        text: "venum 1\nprime 5\nletter x\nmodule 2\nrelation x = 1\nsub e2 = 3*e1\nend\n",
        limit: 2,
        sizes: &[2, 2],
        end: End::Closed { level: 1 },
    },
    // A zero module.
    Example {
        text: "venum 1\nprime 3\nletter x\nmodule 1\nrelation 1 = 0\nend\n",
        limit: 1,
        sizes: &[1],
        end: End::Closed { level: 0 },
    },
    // A pair of letters with weights.
    Example {
        text: "venum 2\nprime 3\nletter x weight 3\nletter y\nmodule 1\nrelation x = y^2\nrelation y^3 = 1\nend\n",
        limit: 5,
        sizes: &[1, 2, 3, 5, 4, 4],
        end: End::Closed { level: 5 },
    },
    // The triangle with halved relations.
    Example {
        text: "venum 2\nprime 3\ninvolution a\ninvolution b\nmodule 1\nbalance\nrelation (a*b)^3 = 1\nsub e1*a = e1\nend\n",
        limit: 5,
        sizes: &[1, 3, 4, 5, 3, 3],
        end: End::Closed { level: 5 },
    },
    Example {
        text: FREE_PAIR,
        limit: 1,
        sizes: &[],
        end: End::Over { level: 0, size: 2 },
    },
    Example {
        text: FREE_PAIR,
        limit: 2,
        sizes: &[2],
        end: End::Over { level: 1, size: 4 },
    },
];

#[test]
fn examples(rt: HostRuntime) -> Result<(), Fail> {
    for (at, example) in EXAMPLES.iter().enumerate() {
        assert!(rt; passes(rt.alloc(), example)?, "at {at}");
    }
    Ok(())
}

/// Whether the levels have the sizes and the end of the example.
fn passes(alloc: Global, example: &Example) -> Result<bool, Fail> {
    let limit = example.limit;
    if limit > 1_000_000 {
        return Ok(false);
    }
    let mut table = match opened(alloc, example.text, limit)? {
        Opened::Open(table) => table,
        Opened::Over { size } => {
            return Ok(example.sizes.is_empty() && example.end == End::Over { level: 0, size });
        }
        Opened::Memory => return Err(Memory.into()),
    };
    for (at, size) in example.sizes.iter().enumerate() {
        if table.id_count() != *size {
            return Ok(false);
        }
        table = match work(alloc, table, limit)? {
            Advanced::Next(next) => next,
            last => return Ok(ends(&last, example.end) && at + 1 == example.sizes.len()),
        };
    }
    Ok(false)
}

fn ends(last: &Advanced, end: End) -> bool {
    match last {
        Advanced::Closed(last) => {
            let level = last.table().level();
            end == End::Closed { level }
        }
        Advanced::Over { level, size, .. } => {
            let (level, size) = (*level, *size);
            end == End::Over { level, size }
        }
        _ => false,
    }
}

/// The table of a text whose level's work can begin.
fn table_at(alloc: Global, text: &str, limit: u32, level: u32) -> Result<Option<Table>, Fail>
    requires { limit ≤ most_limit }
    ensures { IfOk result (λ table. IfSome table (IsReady limit)) }
{
    let mut table = match opened(alloc, text, limit)? {
        Opened::Open(table) => table,
        _ => return Ok(None),
    };
    for _level in 0..level {
        table = match work(alloc, table, limit)? {
            Advanced::Next(next) => next,
            _ => return Ok(None),
        };
    }
    Ok(Some(table))
}

fn opened(alloc: Global, text: &str, limit: u32) -> Result<Opened, Fail>
    ensures { IfOk result (StartsReady limit) }
{
    let presentation = read(alloc, text.as_bytes())?;
    Ok(start(alloc, presentation, limit))
}

fn is_unit(row: Option<&Sparse>, id: u32) -> bool {
    match row {
        Some(row) => row.len() == 1 && row.term(0) == (Term { id, coef: 1 }),
        None => false,
    }
}
