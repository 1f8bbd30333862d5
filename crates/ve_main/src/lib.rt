//! The commands of the program: what they read, do and write, and the status that they end with.
#![tactic(auto)]

mod claim;
mod enumeration;
mod input;
mod presentation;
mod refusal;
mod run;
mod stop;
mod verdict;
mod writing;

pub use run::run_alone;
pub use ve_words::{Command, WordsFault, read_words};
