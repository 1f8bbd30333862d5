//! What a seat holds of the job or relation on its desk: how far it is traced, and what was last read for it. A hand is read for
//! from a table, and goes on without one.
#![tactic(auto)]

mod found;
mod hand;
mod job;
mod lookup;
mod part;
mod read_vector;
mod stage;
mod starting;
mod sums;
mod tracing;

pub use hand::Hand;
pub use job::Job;
