//! Presentations that are made from numbers: symmetric groups with their modules on sets of points.
#![tactic(auto)]

mod elements;
mod lines;
mod symmetric;

pub use symmetric::make;
