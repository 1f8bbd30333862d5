//! Levels at work, as pure definitions: forwards and what they resolve, what is known, jobs, finished tables. The definitions stand in
//! `specs/`. Each law about them is the contract of a function with an empty body.
#![tactic(auto)]

pub mod finished;
pub mod forwards;
pub mod hands;
pub mod quiescence;
pub mod readings;
pub mod seats;
pub mod work;
