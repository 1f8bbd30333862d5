//! The letters of a presentation: their names, inverses and weights, and the relators that come from inverses.

ghost use Rattle.std.specs.Prelude.{◌≡◌, ◌*◌, ◌-◌, ◌≤◌, ◌<◌, [], ◌∷◌, ◌++◌, All, IfErr, IfOk, IsTrue, OnOk, length, max};
ghost use Rattle.ve_theory.specs.Elements.{algebra_weight};
ghost use Rattle.ve_theory.specs.Presentations.{greatest_of};
ghost use Rattle.ve_theory.specs.Validity.{is_name};
ghost use Rattle.ve_theory.specs.Presentations.{most_weight};
ghost use Rattle.ve_word.specs.NameList.{AreLetterNames};
ghost use Rattle.ve_pres.specs.Drafts.{IsNameFault, IsNewName, IsPairFault};

use crate::FreeAlg;
use crate::presentation::copies::copy_relators;
use std::alloc::Global;
use ve_field::Field;
use ve_word::{Memory, NameFault, Names};

/// Letters, with an inverse where they have one, and a weight each. The relators say that inverses are inverses.
#[derive(Drop)]
pub(crate) struct Letters {
    pub(crate) names: Names,
    pub(crate) inverses: Vec<Option<u8>>,
    pub(crate) weights: Vec<u8>,
    pub(crate) relators: Vec<FreeAlg>,
}

impl Letters {
    ghost use Rattle.ve_pres.specs.Letters.{AreSame, IsPairPushed};

    /// No letters.
    pub(crate) fn new(alloc: Global) -> Letters
        ensures names { result.names ≡ [] }
        ensures inverses { result.inverses.items ≡ [] }
        ensures weights { result.weights.items ≡ [] }
        ensures relators { result.relators.items ≡ [] }
    {
        Letters {
            names: Names::new(alloc),
            inverses: Vec::new(alloc),
            weights: Vec::new(alloc),
            relators: Vec::new(alloc),
        }
    }

    /// The same letters once more.
    pub(crate) fn copy(&self) -> Result<Letters, Memory>
        ensures { IfOk result (λ letters. AreSame letters self.now) }
    {
        let alloc = *self.weights.allocator();
        Ok(Letters {
            names: self.names.copy()?,
            inverses: Vec::from_slice(alloc, &self.inverses)?,
            weights: Vec::from_slice(alloc, &self.weights)?,
            relators: copy_relators(&self.relators)?,
        })
    }

    /// Adds a letter of weight 1. Where it is refused, the letters may hold a part of it.
    pub(crate) fn push(&mut self, name: &str, inverse: Option<u8>) -> Result<u8, NameFault>
        requires { IsTrue (is_name name.now) }
        ensures names { OnOk result (self.new.names ≡ self.old.names ++ name.now ∷ []) }
        ensures inverses { OnOk result (self.new.inverses.items ≡ self.old.inverses.items ++ inverse ∷ []) }
        ensures weights { OnOk result (self.new.weights.items ≡ self.old.weights.items ++ 1 ∷ []) }
        ensures relators { self.new.relators ≡ self.old.relators }
        ensures letter { IfOk result (λ letter. letter ≡ length self.old.names) }
        ensures letters { OnOk result (AreLetterNames self.new.names) }
        ensures fresh { OnOk result (IsNewName self.old.names name.now) }
        ensures fault { IfErr result (IsNameFault self.old.names name.now) }
    {
        self.names.add(name)?;
        self.inverses.push(inverse)?;
        self.weights.push(1)?;
        Ok(self.names.count() - 1)
    }

    /// Adds two letters of weight 1, each the inverse of the other, with their relators, and answers the first. Where one is
    /// refused, the letters may hold a part of them.
    pub(crate) fn push_pair(
        &mut self,
        field: &Field,
        name: &str,
        inverse: &str,
    ) -> Result<u8, NameFault>
        requires name { IsTrue (is_name name.now) }
        requires inverse { IsTrue (is_name inverse.now) }
        ensures pair { IfOk result (λ letter. IsPairPushed field.now self.old self.new name.now inverse.now letter) }
        ensures first { OnOk result (IsNewName self.old.names name.now) }
        ensures second { OnOk result (IsNewName (self.old.names ++ name.now ∷ []) inverse.now) }
        ensures fault { IfErr result (IsPairFault self.old.names name.now inverse.now) }
    {
        let first = self.names.count();
        let second = first + 1;
        self.push(name, Some(second))?;
        self.push(inverse, Some(first))?;
        self.push_relator(field, first, second)?;
        self.push_relator(field, second, first)?;
        Ok(first)
    }

    /// Adds the relator that says that one letter is the inverse of the other.
    pub(crate) fn push_relator(
        &mut self,
        field: &Field,
        letter: u8,
        inverse: u8,
    ) -> Result<(), NameFault>
        ensures relators { OnOk result (self.new.relators.items
            ≡ self.old.relators.items ++ ((letter ∷ inverse ∷ [], 1) ∷ ([], field.now - 1) ∷ []) ∷ []) }
        ensures names { self.new.names ≡ self.old.names }
        ensures inverses { self.new.inverses ≡ self.old.inverses }
        ensures weights { self.new.weights ≡ self.old.weights }
        ensures fault { IfErr result (λ fault. fault ≡ NameFault.Memory) }
    {
        let alloc = *self.relators.allocator();
        let Ok(relator) = FreeAlg::inverse_relator(alloc, field, letter, inverse) else {
            return Err(NameFault::Memory);
        };
        self.relators.push(relator)?;
        Ok(())
    }

    /// The greatest weight, and 1 where there are no letters.
    pub(crate) fn greatest_weight(&self) -> u8
        ensures { result ≡ max 1 (greatest_of (λ w. w) self.now.weights.items) }
    {
        let mut greatest = 1;
        for weight in &self.weights {
            greatest = greatest.max(*weight);
        }
        greatest
    }

    /// The greatest weight of a letter or a relator.
    pub(crate) fn bound(&self) -> u32
        requires letters { All (λ r. All (λ t. All (λ x. x < length self.now.weights.items) t.0) r) self.now.relators.items }
        requires weights { All (λ w. w ≤ most_weight) self.now.weights.items }
        ensures { result ≡ max
            (max 1 (greatest_of (λ w. w) self.now.weights.items))
            (greatest_of (algebra_weight self.now.weights.items) self.now.relators.items) }
    {
        let mut bound = u32::from(self.greatest_weight());
        for relator in &self.relators {
            bound = bound.max(relator.weight(&self.weights));
        }
        bound
    }
}
