//! A turnstile: a value with a journal that lies with one seat at a time. Seats take turns, in the order in which they
//! asked, and each finds in the journal all that it has seen, its own entries and no others of its own.
#![tactic(auto)]

mod journaled;
mod numbers;
mod pass;
mod plays;
mod slot;
mod steps;
mod turn;
mod turnstile;
mod view;

pub use journaled::Journaled;
pub use pass::Pass;
pub use turn::Turn;
pub use turnstile::Turnstile;
pub use view::{Knowledge, Place};
