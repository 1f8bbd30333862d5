//! Rows, entry by entry.

ghost use Rattle.std.specs.Prelude.{◌≡◌, ℕ, ◌<◌, ◌≤◌, ◌^◌, ◌++◌, IfOk};
ghost use Rattle.ve_theory.specs.Answers.{IsRow};
ghost use Rattle.ve_formats.specs.AnswerText.{row_entries};
ghost use Rattle.ve_out.specs.Parts.{zero_entries};

use std::alloc::Global;
use ve_lines::{append, append_number};
use ve_vec::Sparse;
use ve_word::Memory;

/// As many entries that are 0, each after a space.
pub(crate) fn zero_entries(alloc: Global, count: usize) -> Result<Vec<u8>, Memory>
    ensures { IfOk result (λ zeros. zeros.items ≡ zero_entries count) }
{
    let mut zeros = Vec::new(alloc);
    for _at in 0..count {
        append(&mut zeros, b" 0")?;
    }
    Ok(zeros)
}

/// Appends entries that are 0, of which `zeros` has some.
fn append_zeros(line: &mut Vec<u8>, zeros: &[u8], count: usize) -> Result<(), Memory>
    requires zeros { (n : ℕ) × (zeros.now ≡ zero_entries n) × (count ≤ n) }
    requires room { count < 2 ^ 32 }
    ensures { IfOk result (λ _. line.new.items ≡ line.old.items ++ zero_entries count) }
{
    append(line, &zeros[..2 * count])
}

/// Appends the entries of a row of `count` places, each after a space.
pub(crate) fn append_entries(
    line: &mut Vec<u8>,
    count: usize,
    row: &Sparse,
    zeros: &[u8],
) -> Result<(), Memory>
    requires row { (p : ℕ) × IsRow p count row.now }
    requires zeros { zeros.now ≡ zero_entries count }
    requires room { count < 2 ^ 32 }
    ensures { IfOk result (λ _. line.new.items ≡ line.old.items ++ row_entries count row.now) }
{
    let terms = row.len();
    let mut next = 0;
    for written in 0..terms {
        let term = row.term(terms - 1 - written);
        let place = term.id as usize;
        append_zeros(line, zeros, place - next)?;
        append(line, b" ")?;
        append_number(line, u64::from(term.coef))?;
        next = place + 1;
    }
    append_zeros(line, zeros, count - next)
}
