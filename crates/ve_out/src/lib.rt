//! Texts of answers, of outgrown levels and of summaries, written line by line.
#![tactic(auto)]

mod answer;
mod basis;
mod numbered;
mod over;
mod row;
mod summary;

pub use answer::write_answer;
pub use over::write_over;
pub use summary::write_summary;
