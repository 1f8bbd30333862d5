//! Joints and coefficients.

ghost use Rattle.std.specs.Prelude.{◌≡◌, [], ◌++◌, IfOk, cond, nat_eq};
ghost use Rattle.ve_formats.specs.CanonicalText.{coefficient_text};

use ve_lines::{append, append_number};
use ve_word::Memory;

/// Appends what joins a piece to the pieces before it, of which there are `count`.
pub(crate) fn append_joint(line: &mut Vec<u8>, count: usize, joint: &[u8]) -> Result<(), Memory>
    ensures { IfOk result (λ _. line.new.items ≡ line.old.items ++ cond (nat_eq count 0) [] joint.now) }
{
    if count == 0 {
        return Ok(());
    }
    append(line, joint)
}

/// Appends a coefficient with its star, where it isn't 1.
pub(crate) fn append_coefficient(line: &mut Vec<u8>, coefficient: u8) -> Result<(), Memory>
    ensures { IfOk result (λ _. line.new.items ≡ line.old.items ++ coefficient_text coefficient) }
{
    if coefficient == 1 {
        return Ok(());
    }
    append_number(line, u64::from(coefficient))?;
    append(line, b"*")
}
