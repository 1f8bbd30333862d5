//! Answers, read from their texts.
#![tactic(auto)]

mod basis;
mod head;
mod lines;
mod read;
mod refusal;
mod rows;
mod texts;
mod words;

pub use read::read_answer;
pub use refusal::AnswerRefusal;
