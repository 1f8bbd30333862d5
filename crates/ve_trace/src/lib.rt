//! Traces words, relators and submodule relations along the rows of a table.
#![tactic(auto)]

pub mod laws;
mod multiples;
mod spread;
mod steps;
mod sums;
mod times;
mod trace;
mod walk;

pub use times::{add_times_letter, times_letter};
pub use trace::{trace_relator, trace_sub, trace_word};
