//! Presentations that are worked out whole, as theorems: from the relations to the answer, with the sizes of all levels. So there
//! are presentations, closing levels and answers that meet the definitions of `ve_theory`.
#![tactic(auto)]

pub mod examples;
