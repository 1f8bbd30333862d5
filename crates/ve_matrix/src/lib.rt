//! Matrices over a prime field, and answers: what the letters of an algebra do to a basis of a module.
#![tactic(auto)]

mod answer;
mod disorder;
mod matrix;

pub use answer::{Answer, answers_are_traced};
pub use disorder::Disorder;
pub use matrix::Matrix;
