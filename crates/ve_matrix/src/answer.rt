//! Answers.

mod copies;
mod evaluation;
mod moves;
mod of_table;
mod words;

use crate::Matrix;
pub use evaluation::answers_are_traced;
use ve_field::Field;
use ve_table::Origin;
use ve_vec::Sparse;
use ve_word::Names;

/// What the letters of an algebra do to a basis of a module over it.
#[derive(Drop)]
pub struct Answer {
    /// The field of the coefficients.
    pub field: Field,
    /// The names of the letters.
    pub names: Names,
    /// How many generators the module has.
    pub roots: u16,
    /// The level at which the enumeration closed.
    pub closed: u32,
    /// Where each basis word comes from: a generator, or an earlier basis word times a letter.
    pub basis: Vec<Origin>,
    /// For each generator its row vector over the basis.
    pub images: Vec<Sparse>,
    /// For each letter its matrix: the row of a place is the basis vector times the letter.
    pub matrices: Vec<Matrix>,
}
