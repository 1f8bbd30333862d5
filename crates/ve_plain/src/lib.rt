//! A level's work on one thread.
#![tactic(auto)]

mod closing;
mod due;
mod ids;
mod images;
mod relations;
mod tracing;
mod work;

pub use closing::close_level;
