ghost use Rattle.std.specs.Prelude.{◌≡◌, ℕ, ◌<◌, ◌↔◌, [], ◌∷◌, ◌++◌, Contains, IfOk, IsErrOf, IsFalse, IsNone, IsTrue, OnErr, OnOk, Some, length, slice_get};
ghost use Rattle.std.specs.List.{list_all};
ghost use Rattle.ve_theory.specs.Validity.{is_digit, is_name, is_rooted, most_letters};
ghost use Rattle.ve_word.specs.NameList.{AreLetterNames};

use crate::Memory;
use indexmap::IndexSet;
use std::alloc::{AllocError, AllocFailed, Global};
use std::marker::Model;
use thiserror::Error;

const MOST_LETTERS: u8 = 32;

/// Why a name was not added.
#[derive(Clone, Copy, Debug, PartialEq, Eq, Error)]
pub enum NameFault {
    /// It is `e` followed by digits alone, as generators are written.
    #[error("name of a generator")]
    Rooted,
    /// It is the name of this letter.
    #[error("name already taken")]
    Taken(u8),
    /// There are 32 other names.
    #[error("more than 32 letters")]
    Full,
    /// A growth was refused.
    #[error("out of memory")]
    Memory,
}

impl From<AllocError> for NameFault {
    ghost use Rattle.ve_word.specs.declared.names.NameFault.TheVariants.{Memory};

    ghost from_gives = { λ _ fault. fault ≡ Memory };

    fn from(_refusal: AllocError) -> NameFault {
        NameFault::Memory
    }
}

impl<T: Drop> From<AllocFailed<T>> for NameFault {
    ghost use Rattle.ve_word.specs.declared.names.NameFault.TheVariants.{Memory};

    ghost from_gives = { λ _ fault. fault ≡ Memory };

    fn from(_refusal: AllocFailed<T>) -> NameFault {
        NameFault::Memory
    }
}

/// The names of letters, different and at most 32, in the order in which they were added. Letters count from 0.
#[derive(Drop)]
pub struct Names {
    list: IndexSet<String>,
}

impl Model for Names {
    ghost use Rattle.std.specs.Prelude.{List, ℕ, map, string_bytes};
    ghost use Rattle.ve_word.specs.NameList.{AreLetterNames};

    ghost Value = { List (List ℕ) };

    ghost view = { λ n. map string_bytes n.list.keys };

    ghost invariant = { λ n. AreLetterNames (map string_bytes n.list.keys) };
}

impl Names {
    /// No names.
    pub fn new(alloc: Global) -> Names
        ensures { result ≡ [] }
    {
        Names {
            list: IndexSet::new(alloc),
        }
    }

    /// How many names there are.
    pub fn count(&self) -> u8
        ensures count { result ≡ length self.now }
        ensures names { AreLetterNames self.now }
    {
        self.list.len() as u8
    }

    /// The letter of a name.
    pub fn find(&self, name: &str) -> Option<u8>
        ensures found { (letter : ℕ) → (result ≡ Some letter) ↔ (slice_get self.now letter ≡ Some name.now) }
        ensures absent { IsNone result ↔ (¬ Contains self.now name.now) }
    {
        let letter = self.list.get_index_of(name)?;
        Some(letter as u8)
    }

    /// The name of a letter.
    pub fn name(&self, letter: u8) -> &str
        requires { letter < length self.now }
        ensures { slice_get self.now letter ≡ Some result.now }
    {
        self.list[usize::from(letter)].as_str()
    }

    /// The same names in the same order.
    pub fn copy(&self) -> Result<Names, Memory>
        ensures { IfOk result (λ names. names ≡ self.now) }
    {
        Ok(Names {
            list: self.list.clone()?,
        })
    }

    /// Adds a name behind the others, and answers its letter.
    pub fn add(&mut self, name: &str) -> Result<u8, NameFault>
        requires { IsTrue (is_name name.now) }
        ensures ok { OnOk result (self.new ≡ self.old ++ name.now ∷ []) }
        ensures letter { IfOk result (λ letter. letter ≡ length self.old) }

        ensures rooted { IsErrOf result NameFault.Rooted ↔ IsTrue (is_rooted name.now) }
        ensures taken { (letter : ℕ) → IsErrOf result (NameFault.Taken letter) ↔ (slice_get self.old letter ≡ Some name.now) }
        // A name that is rooted or taken is reported as such, also where the list is full.
        ensures full { IsErrOf result NameFault.Full
            ↔ (IsFalse (is_rooted name.now) × (¬ Contains self.old name.now) × (length self.old ≡ most_letters)) }
        ensures err { OnErr result (self.new ≡ self.old) }
    {
        let letter = self.count();
        if is_generator_name(name) {
            return Err(NameFault::Rooted);
        }
        if let Some(holder) = self.find(name) {
            return Err(NameFault::Taken(holder));
        }
        if letter == MOST_LETTERS {
            return Err(NameFault::Full);
        }
        let alloc = *self.list.allocator();
        self.list.insert(String::from_str(alloc, name)?)?;
        Ok(letter)
    }
}

// Whether the name is `e` followed by digits alone.
fn is_generator_name(name: &str) -> bool
    ensures { result ≡ is_rooted name.now }
{
    let bytes = name.as_bytes();
    bytes.len() > 1 && bytes[0] == b'e' && are_digits(&bytes[1..])
}

fn are_digits(text: &[u8]) -> bool
    ensures { result ≡ list_all is_digit text.now }
{
    text.iter().all(|byte| byte.is_ascii_digit())
}
