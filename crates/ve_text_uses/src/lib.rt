//! Texts at work: streams of bytes, lines and their tokens, names and words, values, words of the command line, presentations,
//! and runs from bytes to bytes. All are tests over public contracts, which cost no crate its proofs once more.
#![tactic(auto)]

#[cfg(test)]
mod tests;
