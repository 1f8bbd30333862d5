//! Seats that sign a roll under a turnstile, each with its own number.
#![tactic(auto)]

mod roll;
mod signing;
#[cfg(test)]
mod tests;

pub use roll::Roll;
pub use signing::{both_sign, close_both, sign, sign_all, three_sign};
