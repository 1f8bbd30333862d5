//! From level to level: opening a presentation's first table, and what follows a finished level.
#![tactic(auto)]

mod advancing;
mod opening;

pub use advancing::{Advanced, advance};
pub use opening::{Opened, start};
