ghost use Rattle.std.specs.Prelude.{◌≡◌, ℕ, ◌<◌, ◌≤◌, All, IfOk, OnErr, OnOk, slice_index, take};
ghost use Rattle.ve_theory.specs.Words.{generator, letters, start, times, word_length};

use crate::Memory;
use std::alloc::Global;
use std::marker::Model;

/// A word of the free module: a generator times letters, from the first to the last. Generators and letters count from 0.
#[derive(Drop)]
pub struct Word {
    root: u8,
    spelling: Vec<u8>,
}

impl Model for Word {
    ghost use Rattle.ve_theory.specs.Words.{Word as FreeWord, generator, times_all, word_code};

    ghost Value = { FreeWord };

    ghost coded = { word_code };

    ghost view = { λ w. times_all (generator w.root) w.spelling.items };
}

#[tactic(auto, using(crate::proofs::Spellings::spellings))]
impl Word {
    /// The generator itself, without letters.
    pub fn root(alloc: Global, root: u8) -> Word
        ensures { result ≡ generator root }
    {
        Word {
            root,
            spelling: Vec::new(alloc),
        }
    }

    /// Multiplies the word by a letter.
    pub fn push(&mut self, letter: u8) -> Result<(), Memory>
        ensures ok { OnOk result (self.new ≡ times self.old letter) }
        ensures err { OnErr result (self.new ≡ self.old) }
    {
        self.spelling.push(letter)?;
        Ok(())
    }

    /// Another word of the same generator and letters.
    pub fn copy(&self) -> Result<Word, Memory>
        ensures { IfOk result (λ word. word ≡ self.now) }
    {
        Ok(Word {
            root: self.root,
            spelling: self.spelling.clone()?,
        })
    }

    /// The word of the same generator and the first `length` letters.
    pub fn prefix(&self, length: usize) -> Result<Word, Memory>
        requires { length ≤ word_length self.now }
        ensures root { IfOk result (λ word. start word ≡ start self.now) }
        ensures front { IfOk result (λ word. letters word ≡ take length (letters self.now)) }
    {
        let alloc = *self.spelling.allocator();
        Ok(Word {
            root: self.root,
            spelling: Vec::from_slice(alloc, &self.spelling[..length])?,
        })
    }

    /// How many letters the word has.
    pub fn len(&self) -> usize
        ensures count { result ≡ word_length self.now }
        ensures bytes { All (λ letter. letter < 256) (letters self.now) }
    {
        self.letters().len()
    }

    /// The generator that the word begins with.
    pub fn root_of(&self) -> u8
        ensures root { result ≡ start self.now }
        ensures byte { start self.now < 256 }
    {
        self.root
    }

    /// The letter at a place, counted from 0.
    pub fn letter_at(&self, at: usize) -> u8
        requires { at < word_length self.now }
        ensures { result ≡ slice_index (letters self.now) at }
    {
        self.spelling[at]
    }

    /// The letters as a list, from the first to the last.
    pub fn spelling(&self) -> &Vec<u8>
        ensures { result.now.items ≡ letters self.now }
    {
        &self.spelling
    }

    /// The letters, from the first to the last.
    pub(crate) fn letters(&self) -> &[u8]
        ensures value { result.now ≡ letters self.now }
        ensures bytes { All (λ letter. letter < 256) (letters self.now) }
    {
        let letters: &[u8] = &self.spelling;
        letters
    }
}
