//! Words over the letters of an algebra, their order, the names of letters, and want of memory.
#![tactic(auto)]

mod memory;
mod names;
mod order;
mod text;
mod word;

pub use memory::Memory;
pub use names::{NameFault, Names};
pub use order::{shortlex, weighted};
pub use text::write_word;
pub use word::Word;
