//! Sparse vectors over a prime field.
#![tactic(auto)]

mod dense;
mod few;
mod insert;
mod merge;
mod number;
mod rows;
mod search;
mod sparse;
mod term;
mod terms;

pub use dense::DenseSum;
pub use rows::Rows;
pub use sparse::Sparse;
pub use term::Term;
