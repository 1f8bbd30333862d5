//! The texts that the program reads and writes, as definitions in `specs/`: lines and tokens, presentations, words, answers,
//! messages.
//! Laws about them are the contracts of functions with empty bodies.
#![tactic(auto)]

mod answers;
mod canonical;
mod grammar;
mod lines;
mod pieces;
mod tokens;

pub use answers::answers_are_read_once;
pub use canonical::canonical_spells;
pub use grammar::{
    line_forms_once, readers_read_what_is_spelled, spelled_is_valid, text_spells_once,
    values_are_elements, values_are_unique,
};
pub use lines::text_of_lines_has_them;
pub use pieces::texts_split_once;
pub use tokens::{decimals_are_numbers, line_lexes_once, tokens_are_in_order};
