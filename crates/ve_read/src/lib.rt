//! Reads the text of a presentation, line by line.
#![tactic(auto)]

mod building;
mod cut;
mod draft;
mod form;
mod keyword;
mod lines;
mod why;

pub use cut::{split, texts_are_cut_once};
pub use lines::read;
pub use why::{ReadRefusal, Why};
