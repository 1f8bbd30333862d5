//! Hands that trace a job from its beginning to its sum.

ghost use Rattle.ve_table.specs.Tables.{presented};
ghost use Rattle.ve_hand.specs.Fits.{FitsHand};

use super::table_at;
use std::alloc::Global;
use std::test::Fail;
use ve_hand::{Hand, Job};
use ve_table::Table;
use ve_vec::{Sparse, Term};
use ve_word::Memory;

/// One letter that is its own inverse.
const INVOLUTION: &str = "venum 1\nprime 5\ninvolution x\nmodule 1\nend\n";

/// Up to how many times a hand is read for and goes on.
const MOST: u32 = 16;

/// The sums of x*x - 1 at ids of the words e1, e1*x, e1*x*x. The row of e1*x*x is beyond the level, and is read as zero.
const SUMS: [(u32, &[Term]); 2] = [
    (0, &[Term { id: 2, coef: 1 }, Term { id: 0, coef: 4 }]),
    (1, &[Term { id: 1, coef: 4 }]),
];

#[test]
fn relators_are_traced(rt: HostRuntime) -> Result<(), Fail> {
    let Some(table) = table_at(rt.alloc(), INVOLUTION, 3, 2)? else {
        return Err(Memory.into());
    };
    for (id, terms) in SUMS {
        let Some(sum) = relator_sum(rt.alloc(), &table, id, 0)? else {
            panic!(rt; "not all is summed at {id}");
        };
        assert_eq!(rt; sum.terms(), terms, "at {id}");
    }
    Ok(())
}

/// The sum of a relator at an id, where there is such a relator and all was summed.
fn relator_sum(
    alloc: Global,
    table: &Table,
    id: u32,
    number: u32,
) -> Result<Option<Sparse>, Memory> {
    if number >= table.presentation().relator_count() {
        return Ok(None);
    }
    let mut hand = Hand::of_job(alloc, table, Job::Relator { id, number })?;
    finish(alloc, table, &mut hand)?;
    Ok(hand.into_sum())
}

/// Reads for a hand and lets it go on, as long as it does.
fn finish(alloc: Global, table: &Table, hand: &mut Hand) -> Result<(), Memory>
    requires { FitsHand (presented table.now).prime hand.old }
{
    let field = *table.presentation().field();
    for _time in 0..MOST {
        hand.read(table)?;
        hand.repair(alloc, &field)?;
        if !hand.apply(alloc, &field)? {
            return Ok(());
        }
    }
    Ok(())
}
