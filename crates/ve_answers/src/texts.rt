ghost use Rattle.std.specs.Prelude.{◌≡◌, ◌↔◌, [], ◌∷◌, ◌++◌, Contains, IfOk, IsTrue, MatchOption, Some, slice_get};

use indexmap::IndexSet;
use std::alloc::Global;
use std::marker::Model;
use ve_word::Memory;

/// Different texts, in the order in which they were added. Places count from 0.
#[derive(Drop)]
pub(crate) struct Texts<'a> {
    list: IndexSet<&'a [u8]>,
}

impl<'a> Model for Texts<'a> {
    ghost use Rattle.std.specs.Prelude.{List, ℕ, map};

    ghost Value = { List (List ℕ) };

    ghost view = { λ texts. map (λ text. text.now) texts.list.keys };
}

impl<'a> Texts<'a> {
    /// No texts.
    pub(crate) fn new(alloc: Global) -> Texts<'a>
        ensures { result ≡ [] }
    {
        Texts {
            list: IndexSet::new(alloc),
        }
    }

    /// The place of a text.
    pub(crate) fn find(&self, text: &[u8]) -> Option<usize>
        ensures { MatchOption result (¬ Contains self.now text.now) (λ place. slice_get self.now place ≡ Some text.now) }
    {
        self.list.get_index_of(text)
    }

    /// Adds a text behind the others; `false` where it is one of them.
    pub(crate) fn add(&mut self, text: &'a [u8]) -> Result<bool, Memory>
        ensures new { IfOk result (λ is_new. IsTrue is_new ↔ (¬ Contains self.old text.now)) }
        ensures added { IfOk result (λ is_new. IsTrue is_new → self.new ≡ self.old ++ text.now ∷ []) }
    {
        let is_new = self.list.insert(text)?;
        Ok(is_new)
    }
}
