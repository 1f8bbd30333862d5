//! The lines of a text, and the tokens of a line: names, numbers and symbols with their places.
#![tactic(auto)]

mod bytes;
mod lexer;
mod lines;
mod token;

pub use lexer::{next_token, tokens};
pub use lines::next_line;
pub use token::{LexFault, Placed, Token};
