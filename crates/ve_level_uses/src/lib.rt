//! Levels at work: the work of a level, and what follows it.
#![tactic(auto)]

mod working;

pub use working::work;

#[cfg(test)]
mod tests;
