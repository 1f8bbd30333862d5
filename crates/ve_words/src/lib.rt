//! The words of the command line: the commands that they mean.
#![tactic(auto)]

mod command;
mod fault;
mod laws;
mod options;
mod reading;
mod words;

pub use command::Command;
pub use fault::WordsFault;
pub use laws::words_mean_once;
pub use words::read_words;
