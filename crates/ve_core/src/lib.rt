//! The pure machine that many seats share: a table at work, jobs and relations, a desk and a hand for each seat.
#![tactic(auto)]

mod concluding;
mod desk;
mod done;
mod entry;
mod event;
mod giving_back;
mod hands;
mod lifting;
mod reading;
mod rewriting;
mod run;
mod state;
mod step;
mod submitting;
mod sum;
mod taking;

pub use event::{Event, Local};
pub use state::CoreState;
pub use ve_hand::Job;
