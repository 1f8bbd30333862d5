//! The elements that vanish.

ghost use Rattle.std.specs.Prelude.{◌≡◌, ◌<◌, ◌≤◌, ◌-◌, [], ◌∷◌, IfOk};
ghost use Rattle.ve_theory.specs.Combinations.{IsReduced, unit};
ghost use Rattle.ve_theory.specs.Words.{Shortlex, ShortlexLetters, generator, times};
ghost use Rattle.ve_make.specs.Symmetric.{fixing_relation, order_relation, product_power};

use std::alloc::Global;
use ve_field::Field;
use ve_pres::{FreeAlg, FreeMod, PresFault};
use ve_theory::elements::reduced_lists_are_unique;
use ve_word::Memory;

/// The product of two swaps to the power of its order, less 1.
pub(crate) fn order_relation(
    alloc: Global,
    field: &Field,
    first: u8,
    second: u8,
) -> Result<FreeAlg, Memory>
    requires { first < second }
    ensures relation { IfOk result (λ r. r ≡ order_relation field.now first second) }
    ensures reduced { IfOk result (IsReduced ShortlexLetters field.now) }
{
    reduced_lists_are_unique();
    let opposite = FreeAlg::constant(alloc, field, field.prime() - 1)?;
    let order = if second == first + 1 { 3 } else { 2 };
    let power = product_power(alloc, field, first, second, order)?;
    match power.plus(field, opposite) {
        Ok(relation) => Ok(relation),
        Err(PresFault::Memory) => Err(Memory),
        Err(PresFault::Limit(_)) => unreachable!(),
    }
}

/// The product of two letters, so many times.
fn product_power(
    alloc: Global,
    field: &Field,
    first: u8,
    second: u8,
    order: u32,
) -> Result<FreeAlg, Memory>
    requires field { 1 < field.now }
    requires positive { 0 < order }
    requires small { order ≤ 3 }
    ensures { IfOk result (λ r. r ≡ unit (product_power first second order)) }
{
    reduced_lists_are_unique();
    let product = product(alloc, field, first, second)?;
    match product.pow(field, order) {
        Ok(power) => Ok(power),
        Err(PresFault::Memory) => Err(Memory),
        Err(PresFault::Limit(_)) => unreachable!(),
    }
}

/// The product of two letters.
fn product(alloc: Global, field: &Field, first: u8, second: u8) -> Result<FreeAlg, Memory>
    requires { 1 < field.now }
    ensures { IfOk result (λ r. r ≡ unit (first ∷ second ∷ [])) }
{
    reduced_lists_are_unique();
    let first = FreeAlg::letter(alloc, first)?;
    let second = FreeAlg::letter(alloc, second)?;
    match first.mul(field, &second) {
        Ok(product) => Ok(product),
        Err(PresFault::Memory) => Err(Memory),
        Err(PresFault::Limit(_)) => unreachable!(),
    }
}

/// The generator times a letter, less the generator.
pub(crate) fn fixing_relation(alloc: Global, field: &Field, letter: u8) -> Result<FreeMod, Memory>
    ensures relation { IfOk result (λ v. v ≡ fixing_relation field.now letter) }
    ensures reduced { IfOk result (IsReduced Shortlex field.now) }
{
    reduced_lists_are_unique();
    let opposite = FreeMod::root(alloc, 0)?.scale(field, field.prime() - 1)?;
    let moved = moved_generator(alloc, field, letter)?;
    match moved.plus(field, opposite) {
        Ok(relation) => Ok(relation),
        Err(PresFault::Memory) => Err(Memory),
        Err(PresFault::Limit(_)) => unreachable!(),
    }
}

/// The generator times a letter.
fn moved_generator(alloc: Global, field: &Field, letter: u8) -> Result<FreeMod, Memory>
    requires { 1 < field.now }
    ensures { IfOk result (λ v. v ≡ unit (times (generator 0) letter)) }
{
    reduced_lists_are_unique();
    let generator = FreeMod::root(alloc, 0)?;
    let letter = FreeAlg::letter(alloc, letter)?;
    match generator.times(field, &letter) {
        Ok(moved) => Ok(moved),
        Err(PresFault::Memory) => Err(Memory),
        Err(PresFault::Limit(_)) => unreachable!(),
    }
}
