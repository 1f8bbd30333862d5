//! The action table: words by ids, and what letters do to them, every row a derived consequence of the relations.
#![tactic(auto)]

mod birth;
mod bounds;
mod by_letter;
mod entry;
mod origin;
mod parts;
mod reaches;
mod rows;
mod table;

pub use origin::Origin;
pub use parts::Parts;
pub use table::{Short, Table};
