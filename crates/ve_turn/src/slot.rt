//! The one slot of the table, as it is made and as it comes back.
ghost use Rattle.std.specs.Prelude.{◌≡◌, [], ◌∷◌, IfOk, IfErr, IsSome};

use std::alloc::{AllocFailed, Global};

// The slot with the value.
pub(crate) fn slot_of<T>(alloc: Global, value: T) -> Result<Vec<Option<T>>, T>
    ensures filled { IfOk result (λ slots. slots.items ≡ Some value ∷ []) }
    ensures refused { IfErr result (λ back. back ≡ value) }
{
    let mut slots = Vec::new(alloc);
    match slots.push(Some(value)) {
        Ok(()) => Ok(slots),
        Err(AllocFailed { value: slot }) => {
            slots.destroy_empty();
            Err(filled(slot))
        }
    }
}

pub(crate) fn value_of<T>(mut slots: Vec<Option<T>>) -> T
    requires { (value : T) × (slots.items ≡ Some value ∷ []) }
    ensures { slots.items ≡ Some result ∷ [] }
{
    match slots.pop() {
        Some(slot) => {
            slots.destroy_empty();
            filled(slot)
        }
        None => unreachable!(),
    }
}

pub(crate) fn filled<T>(slot: Option<T>) -> T
    requires { IsSome slot }
    ensures { slot ≡ Some result }
{
    match slot {
        Some(value) => value,
        None => unreachable!(),
    }
}
