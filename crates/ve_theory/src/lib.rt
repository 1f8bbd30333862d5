//! The mathematics that every answer is stated in: words, elements, presentations, what their relations derive, levels,
//! answers. The definitions stand in `specs/`. Each law about them is the contract of a function with an empty body.
#![tactic(auto)]

pub mod balance;
pub mod derivations;
pub mod elements;
pub mod levels;
pub mod order;
pub mod quotients;
pub mod residues;
pub mod uniqueness;
