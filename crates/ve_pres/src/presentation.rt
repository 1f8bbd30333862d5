//! Presentations: letters, generators and relations, within fixed limits.

ghost use Rattle.std.specs.Prelude.{◌≡◌, ◌+◌, ◌*◌, ◌<◌, ◌≤◌, ◌⊎◌, IfOk, IfSome, Some, length, slice_get};
ghost use Rattle.ve_theory.specs.Presentations.{greatest_step, most_weight, inverse_relators, letter_count, relator, relator_bound, relators, step};
ghost use Rattle.ve_theory.specs.Presentations.{submodule_bound, submodule_relation};
ghost use Rattle.ve_theory.specs.Validity.{IsValid, most_length, most_relations};
ghost use Rattle.ve_pres.specs.Drafts.{IsOpen, bare_draft};

mod copies;
mod halving;
mod letters;
mod lines;
mod relations;

use crate::{FreeAlg, FreeMod};
use copies::{copy_elements, copy_relators};
use letters::Letters;
use std::alloc::Global;
use std::marker::Model;
use ve_field::Field;
use ve_word::{Memory, Names};

/// A presentation of an algebra with a module over it, which is built line by line: letters, generators, relations. It is seen
/// as the presentation that stands, with the number of relations that were counted so far. It is valid at all times.
///
/// Letters, generators, relators and submodule relations count from 0. Relators are numbered in the order of the letters that
/// they come from, and then in that of the relations.
#[derive(Drop)]
pub struct Presentation {
    field: Field,
    version: u8,
    balanced: bool,
    letters: Letters,
    roots: u16,
    relations: Vec<FreeAlg>,
    submodule: Vec<FreeMod>,
    counted: u32,
    // Of all relators and submodule relations together.
    cells: u64,
    // The greatest weight of a letter or a relator, and of a submodule relation.
    d: u32,
    m: u32,
}

impl Model for Presentation {
    ghost use Rattle.ve_pres.specs.Drafts.{Draft, draft_code};

    ghost Value = { Draft };

    ghost coded = { draft_code };

    ghost use Rattle.ve_pres.specs.Built.{draft_of, IsBuilt};

    ghost view = { draft_of };

    ghost invariant = { IsBuilt };
}

impl Presentation {
    /// No letters, one generator, no relations. Letters have no weights, and relations are not balanced.
    pub fn new(alloc: Global, field: Field) -> Presentation
        ensures bare { result ≡ bare_draft 1 field }
        ensures open { IsOpen result }
    {
        Presentation::bare(alloc, field, 1)
    }

    /// The same, where letters may have weights, and relations may be balanced.
    pub fn weighted(alloc: Global, field: Field) -> Presentation
        ensures bare { result ≡ bare_draft 2 field }
        ensures open { IsOpen result }
    {
        Presentation::bare(alloc, field, 2)
    }

    /// The same presentation once more.
    pub fn copy(&self) -> Result<Presentation, Memory>
        ensures { IfOk result (λ copy. copy ≡ self.now) }
    {
        Ok(Presentation {
            field: self.field,
            version: self.version,
            balanced: self.balanced,
            letters: self.letters.copy()?,
            roots: self.roots,
            relations: copy_relators(&self.relations)?,
            submodule: copy_elements(&self.submodule)?,
            counted: self.counted,
            cells: self.cells,
            d: self.d,
            m: self.m,
        })
    }

    fn bare(alloc: Global, field: Field, version: u8) -> Presentation
        requires { (version ≡ 1) ⊎ (version ≡ 2) }
        ensures bare { result ≡ bare_draft version field }
        ensures open { IsOpen result }
    {
        field.has_prime();
        Presentation {
            field,
            version,
            balanced: false,
            letters: Letters::new(alloc),
            roots: 1,
            relations: Vec::new(alloc),
            submodule: Vec::new(alloc),
            counted: 0,
            cells: 0,
            d: 1,
            m: 0,
        }
    }

    /// The field of the coefficients.
    pub fn field(&self) -> &Field
        ensures field { result.now ≡ self.now.presentation.prime }
        ensures valid { IsValid self.now.presentation }
        ensures counted { length self.now.presentation.relations + length self.now.presentation.submodule ≤ self.now.counted }
        ensures limit { self.now.counted ≤ most_relations }
    {
        &self.field
    }

    /// The version of the text, 1 or 2.
    pub fn version(&self) -> u8
        ensures { result ≡ self.now.presentation.version }
    {
        self.version
    }

    /// Whether relations are halved.
    pub fn is_balanced(&self) -> bool
        ensures { result ≡ self.now.presentation.is_balanced }
    {
        self.balanced
    }

    /// The names of the letters.
    pub fn names(&self) -> &Names
        ensures { result.now ≡ self.now.presentation.names }
    {
        &self.letters.names
    }

    /// The inverse of a letter, which may be the letter itself.
    pub fn inverse_of(&self, letter: u8) -> Option<u8>
        requires { letter < letter_count self.now.presentation }
        ensures inverse { slice_get self.now.presentation.inverses letter ≡ Some result }
        ensures exists { IfSome result (λ inverse. inverse < letter_count self.now.presentation) }
    {
        self.letters.inverses[usize::from(letter)]
    }

    /// The weight of a letter, 1 to 16.
    pub fn weight_of(&self, letter: u8) -> u8
        requires { letter < letter_count self.now.presentation }
        ensures weight { result ≡ step self.now.presentation letter }
        ensures place { slice_get self.now.presentation.weights letter ≡ Some result }
    {
        self.letters.weights[usize::from(letter)]
    }

    /// The weights of the letters.
    pub fn weights(&self) -> &Vec<u8>
        ensures { result.now.items ≡ self.now.presentation.weights }
    {
        &self.letters.weights
    }

    /// The greatest weight of a letter, and 1 where there is none.
    pub fn greatest_weight(&self) -> u8
        ensures { result ≡ greatest_step self.now.presentation }
    {
        self.letters.greatest_weight()
    }

    /// How many generators the module has.
    pub fn roots(&self) -> u16
        ensures { result ≡ self.now.presentation.generators }
    {
        self.roots
    }

    /// How many relators there are.
    pub fn relator_count(&self) -> u32
        ensures { result ≡ length (relators self.now.presentation) }
    {
        self.letter_relators() + self.relations.len() as u32
    }

    /// The relator of a number.
    pub fn relator(&self, number: u32) -> &FreeAlg
        requires { number < length (relators self.now.presentation) }
        ensures { result.now ≡ relator self.now.presentation number }
    {
        let letter_relators = self.letter_relators();
        if number < letter_relators {
            return &self.letters.relators[number as usize];
        }
        &self.relations[(number - letter_relators) as usize]
    }

    /// How many relators come from letters. They are the first ones.
    pub fn letter_relators(&self) -> u32
        ensures { result ≡ length (inverse_relators self.now.presentation.prime 0 self.now.presentation.inverses) }
    {
        self.letters.relators.len() as u32
    }

    /// How many submodule relations there are.
    pub fn sub_count(&self) -> u32
        ensures { result ≡ length self.now.presentation.submodule }
    {
        self.submodule.len() as u32
    }

    /// The submodule relation of a number.
    pub fn sub(&self, number: u32) -> &FreeMod
        requires { number < length self.now.presentation.submodule }
        ensures { result.now ≡ submodule_relation self.now.presentation number }
    {
        &self.submodule[number as usize]
    }

    /// How many relations were counted so far, zero ones among them.
    pub fn counted(&self) -> u32
        ensures { result ≡ self.now.counted }
    {
        self.counted
    }

    /// The greatest weight of a letter or a relator, at least 1.
    pub fn d(&self) -> u32
        ensures bound { result ≡ relator_bound self.now.presentation }
        ensures within { result ≤ most_weight * most_length }
    {
        ve_theory::order::valid_reaches_are_small();
        self.d
    }

    /// The greatest weight of a submodule relation, and 0 where there is none.
    pub fn m(&self) -> u32
        ensures bound { result ≡ submodule_bound self.now.presentation }
        ensures within { result ≤ most_weight * most_length }
    {
        ve_theory::order::valid_reaches_are_small();
        self.m
    }

    /// The presentation is valid, and its relations are among those that were counted.
    pub fn is_valid(&self)
        ensures valid { IsValid self.now.presentation }
        ensures counted { length self.now.presentation.relations + length self.now.presentation.submodule ≤ self.now.counted }
        ensures limit { self.now.counted ≤ most_relations }
    {
        self.field();
    }
}
