//! Presentations, written as their canonical texts.
#![tactic(auto)]

mod letters;
mod pieces;
mod relations;
mod sums;
mod text;

pub use text::show;
