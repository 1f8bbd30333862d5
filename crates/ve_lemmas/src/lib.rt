//! Lemmas over the definitions of `ve_theory` that several crates cite, each once, by theme. All stand in `proofs/`: there is no code.
#![tactic(auto)]
