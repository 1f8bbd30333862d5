//! The lines of a presentation before its relations: letters, weights, generators, balance.

ghost use Rattle.std.specs.Prelude.{◌≡◌, ◌<◌, ◌≤◌, [], ◌∷◌, None, Some, ◌+◌, ◌++◌, IfErr, IfOk, IsTrue, MatchResult, OnErr, OnOk, length};
ghost use Rattle.ve_theory.specs.Presentations.{letter_count};
ghost use Rattle.ve_theory.specs.Validity.{is_name, most_generators};
ghost use Rattle.ve_theory.specs.Presentations.{most_weight};
ghost use Rattle.ve_pres.specs.Drafts.{IsNameFault, IsNewName, IsOpen, IsPairFault, with_balance, with_generators, with_letters, with_weight};

use crate::Presentation;
use crate::limit::{Limit, PresFault};
use crate::presentation::letters::Letters;
use ve_word::NameFault;

/// The greatest number of generators.
const MOST_ROOTS: u64 = 255;

/// How much room the relator of an inverse takes.
const INVERSE_CELLS: u64 = 4;

impl Presentation {
    ghost use Rattle.ve_pres.specs.Letters.{AreLetters};

    /// Adds a letter without inverse, and answers it.
    pub fn add_letter(&mut self, name: &str) -> Result<u8, NameFault>
        requires name { IsTrue (is_name name.now) }
        requires open { IsOpen self.old }
        ensures ok { OnOk result (self.new ≡ with_letters self.old (name.now ∷ []) (None ∷ [])) }
        ensures letter { IfOk result (λ letter. letter ≡ letter_count self.old.presentation) }
        ensures fresh { OnOk result (IsNewName self.old.presentation.names name.now) }
        ensures fault { IfErr result (IsNameFault self.old.presentation.names name.now) }
        ensures err { OnErr result (self.new ≡ self.old) }
        ensures open { IsOpen self.new }
    {
        let Ok(mut letters) = self.letters.copy() else {
            return Err(NameFault::Memory);
        };
        let letter = letters.push(name, None)?;
        self.set_letters(letters);
        Ok(letter)
    }

    /// Adds two letters, each the inverse of the other, and answers the first. Where the second name is refused, the first
    /// isn't added either.
    pub fn add_pair(&mut self, name: &str, inverse: &str) -> Result<u8, NameFault>
        requires name { IsTrue (is_name name.now) }
        requires inverse { IsTrue (is_name inverse.now) }
        requires open { IsOpen self.old }
        ensures ok { OnOk result (let n = letter_count self.old.presentation in
            self.new ≡ with_letters self.old (name.now ∷ inverse.now ∷ []) (Some (n + 1) ∷ Some n ∷ [])) }
        ensures letter { IfOk result (λ letter. letter ≡ letter_count self.old.presentation) }
        ensures first { OnOk result (IsNewName self.old.presentation.names name.now) }
        ensures second { OnOk result (IsNewName (self.old.presentation.names ++ name.now ∷ []) inverse.now) }
        ensures fault { IfErr result (IsPairFault self.old.presentation.names name.now inverse.now) }
        ensures err { OnErr result (self.new ≡ self.old) }
        ensures open { IsOpen self.new }
    {
        let Ok(mut letters) = self.letters.copy() else {
            return Err(NameFault::Memory);
        };
        let first = letters.push_pair(&self.field, name, inverse)?;
        self.set_letters(letters);
        Ok(first)
    }

    /// Adds a letter that is its own inverse, and answers it.
    pub fn add_involution(&mut self, name: &str) -> Result<u8, NameFault>
        requires name { IsTrue (is_name name.now) }
        requires open { IsOpen self.old }
        ensures ok { OnOk result (self.new ≡ with_letters self.old (name.now ∷ []) (Some (letter_count self.old.presentation) ∷ [])) }
        ensures letter { IfOk result (λ letter. letter ≡ letter_count self.old.presentation) }
        ensures fresh { OnOk result (IsNewName self.old.presentation.names name.now) }
        ensures fault { IfErr result (IsNameFault self.old.presentation.names name.now) }
        ensures err { OnErr result (self.new ≡ self.old) }
        ensures open { IsOpen self.new }
    {
        let Ok(mut letters) = self.letters.copy() else {
            return Err(NameFault::Memory);
        };
        let letter = letters.names.count();
        letters.push(name, Some(letter))?;
        letters.push_relator(&self.field, letter, letter)?;
        self.set_letters(letters);
        Ok(letter)
    }

    /// Gives a letter a weight.
    pub fn weigh(&mut self, letter: u8, weight: u8)
        requires version { self.old.presentation.version ≡ 2 }
        requires open { IsOpen self.old }
        requires letter { letter < letter_count self.old.presentation }
        requires positive { 0 < weight }
        requires small { weight ≤ most_weight }
        ensures weight { self.new ≡ with_weight self.old letter weight }
        ensures open { IsOpen self.new }
    {
        self.letters.weights[usize::from(letter)] = weight;
        self.d = self.letters.bound();
    }

    /// Has relations halved from now on.
    pub fn balance(&mut self)
        requires version { self.old.presentation.version ≡ 2 }
        requires open { IsOpen self.old }
        ensures balanced { self.new ≡ with_balance self.old }
        ensures open { IsOpen self.new }
    {
        self.balanced = true;
    }

    /// Sets the number of generators of the module.
    pub fn set_roots(&mut self, count: u64) -> Result<(), PresFault>
        requires positive { 0 < count }
        requires open { self.old.presentation.submodule ≡ [] }
        ensures judged { MatchResult result (λ _. count ≤ most_generators) (λ fault. (fault ≡ PresFault.Limit Limit.Roots) × (most_generators < count)) }
        ensures ok { OnOk result (self.new ≡ with_generators self.old count) }
        ensures err { OnErr result (self.new ≡ self.old) }
        ensures open { self.new.presentation.submodule ≡ [] }
    {
        if count > MOST_ROOTS {
            return Err(PresFault::Limit(Limit::Roots));
        }
        self.roots = count as u16;
        Ok(())
    }

    // Puts other letters in the place of the letters.
    fn set_letters(&mut self, letters: Letters)
        requires open { IsOpen self.old }
        requires letters { AreLetters self.old.presentation.version self.old.presentation.prime letters }
        ensures { self.new ≡ record self.old {
          presentation = record self.old.presentation {
            names = letters.names;
            inverses = letters.inverses.items;
            weights = letters.weights.items;
          };
        } }
    {
        self.d = letters.bound();
        self.cells = INVERSE_CELLS * letters.relators.len() as u64;
        self.letters = letters;
    }
}
