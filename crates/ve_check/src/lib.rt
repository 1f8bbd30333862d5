//! What is said of an answer: whether it is a quotient of the presented module, or how it fails first.
#![tactic(auto)]

mod relations;
mod shape;
mod verdict;
mod words;

pub use verdict::{Verdict, WhyNot, check};

#[cfg(test)]
mod tests;
