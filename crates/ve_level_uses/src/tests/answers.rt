//! Answers of tables whose level closes.

use super::{TWO_CYCLE, is_unit, table_at, work};
use std::test::Fail;
use ve_levels::Advanced;
use ve_matrix::Answer;
use ve_word::Memory;

/// The rows are copied, and then taken: both answers have them.
#[test]
fn rows_are_copied_or_taken(rt: HostRuntime) -> Result<(), Fail> {
    let Some(table) = table_at(rt.alloc(), TWO_CYCLE, 3, 3)? else {
        return Err(Memory.into());
    };
    let Advanced::Closed(last) = work(rt.alloc(), table, 3)? else {
        return Err(Memory.into());
    };
    assert!(rt; last.is_packed() && last.closes());
    let copied = Answer::of(rt.alloc(), &last)?;
    assert!(rt; is_swap(&copied));
    let taken = Answer::from_finished(rt.alloc(), last)?;
    assert!(rt; is_swap(&taken));
    Ok(())
}

/// Whether the first letter exchanges two basis vectors.
fn is_swap(answer: &Answer) -> bool {
    match answer.matrices.first() {
        Some(letter) if letter.size() == 2 => {
            is_unit(Some(letter.row(0)), 1) && is_unit(Some(letter.row(1)), 0)
        }
        _ => false,
    }
}
