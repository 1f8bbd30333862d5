//! What callers know where they trace. Each law is the contract of a function that does nothing.

ghost use Rattle.ve_trace.specs.Found.{AlikeVectorsTraceAlike, RelationsAreOwn, SoundTablesFindProducts};

use ve_theory::order::{reach_adds_up, words_are_ordered};

/// A sound table has each row that a product within its level needs.
pub fn products_are_found()
    ensures { SoundTablesFindProducts }
{
    reach_adds_up();
    words_are_ordered();
}

/// The relations of a presentation have its own letters, generators and residues.
pub fn relations_are_own()
    ensures { RelationsAreOwn }
{}

/// Alike vectors times letters are alike.
pub fn alike_vectors_trace_alike()
    ensures { AlikeVectorsTraceAlike }
{}
