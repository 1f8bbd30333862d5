//! Elements of the free algebra and of its free module, and presentations by them, within fixed limits.
#![tactic(auto)]

mod free_alg;
mod free_mod;
mod limit;
mod merge;
mod presentation;
mod term;
mod weights;

pub use free_alg::FreeAlg;
pub use free_mod::FreeMod;
pub use limit::{Limit, PresFault};
pub use presentation::Presentation;
