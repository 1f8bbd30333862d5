//! Lists of elements, once more.

ghost use Rattle.std.specs.Prelude.{◌≡◌, IfOk};

use crate::{FreeAlg, FreeMod};
use ve_word::Memory;

pub(crate) fn copy_relators(relators: &Vec<FreeAlg>) -> Result<Vec<FreeAlg>, Memory>
    ensures { IfOk result (λ copies. copies.items ≡ relators.now.items) }
{
    let mut copies = Vec::with_capacity(*relators.allocator(), relators.len())?;
    for relator in relators {
        copies.push(relator.copy()?)?;
    }
    Ok(copies)
}

pub(crate) fn copy_elements(elements: &Vec<FreeMod>) -> Result<Vec<FreeMod>, Memory>
    ensures { IfOk result (λ copies. copies.items ≡ elements.now.items) }
{
    let mut copies = Vec::with_capacity(*elements.allocator(), elements.len())?;
    for element in elements {
        copies.push(element.copy()?)?;
    }
    Ok(copies)
}
