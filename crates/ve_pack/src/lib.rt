//! Packs finished tables: names live ids alone, and drops the dead ones.
#![tactic(auto)]

mod live;
mod packing;
mod resolving;
mod words;

pub use packing::pack;
pub use words::packed_words_are_live;
