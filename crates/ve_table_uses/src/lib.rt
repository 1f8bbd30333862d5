//! Tables at work: relations are traced where they are due, and what vanishes is deleted.
#![tactic(auto)]

mod imposing;

pub use imposing::{impose_relator, impose_submodule_relation};

#[cfg(test)]
mod tests;
