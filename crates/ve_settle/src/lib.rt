//! Deletes vectors that vanish from a table, puts the vectors of deleted ids in their place, and keeps tables that are finished.
#![tactic(auto)]

mod deletion;
mod falling;
mod finished;
mod heap;
mod ids;
mod image;
mod live;
mod resolution;
mod rows;
mod span;
mod substitution;
mod terms;

pub use deletion::delete;
pub use finished::{Finished, finish, finished_tables_settle};
pub use ids::words_rise_with_ids;
pub use image::image_of;
pub use resolution::{
    forwardings_resolve_to_zero, into_resolved, resolutions_are_unique, resolutions_keep_words,
    resolve,
};
pub use substitution::rewrite;
