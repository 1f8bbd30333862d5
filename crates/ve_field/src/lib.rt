//! Residues modulo the primes below 256.
#![tactic(auto)]

mod field;
mod primes;

pub use field::Field;
