//! The table and its readers.

ghost use Rattle.std.specs.Prelude.{◌≡◌, ℕ, ◌+◌, ◌*◌, ◌<◌, ◌≤◌, ◌^◌, ◌↔◌, IsTrue, IsSome, Some, length, slice_get, count_by, nat_eq, sum_by, All};
ghost use Rattle.ve_theory.specs.Words.{word_length};
ghost use Rattle.ve_theory.specs.Presentations.{due, element_reach, greatest_step, reach, relator, relators, submodule_relation};
ghost use Rattle.ve_theory.specs.Answers.{Row};
ghost use Rattle.ve_theory.specs.Validity.{most_letters};
ghost use Rattle.ve_table.specs.Tables.{IsDue, IsId, presented, reach_at, row_at, word_at};
ghost use Rattle.ve_table.specs.Books.{IsOriginOf};
ghost use Rattle.ve_table.specs.Sound.{IsSound};
ghost use Rattle.ve_table.specs.Changes.{next_count};
ghost use Rattle.ve_table.specs.Steps.{live_steps};

mod changes;
mod copy;
mod drop_dead;
mod grow;
mod into_parts;
mod lists;
mod live;
mod open;

use crate::Origin;
use crate::birth::first_of_reach;
use crate::entry::Entry;
use crate::reaches::Reaches;
use std::marker::Model;
use ve_pres::Presentation;
use ve_vec::{Rows, Sparse};

/// Words of reach at most the level, numbered by ids in their order, and for each id and letter whose product is within the
/// level the vector of the product. A dead id has a vector of lower ids in its place.
#[derive(Drop)]
pub struct Table {
    presentation: Presentation,
    reaches: Reaches,
    level: u32,
    // In the order of their words.
    entries: Vec<Entry>,
    // The vectors that stand for dead ids, in the order in which they died. There is room for one of each id.
    forwards: Vec<Sparse>,
    // For each id and then letter. The last ids may have no places yet.
    rows: Vec<Sparse>,
    // For each letter, how many ids have a row. They are the first ones.
    bounds: Vec<u32>,
    // How many ids are live.
    live: u32,
    images: Vec<Sparse>,
}

impl Model for Table {
    ghost use Rattle.ve_table.specs.Tables.{ActionTable, table_code};

    ghost Value = { ActionTable };

    ghost coded = { table_code };

    ghost use Rattle.ve_table.specs.Kept.{table_of, IsKept};

    ghost view = { table_of };

    ghost invariant = { IsKept };
}

/// A table whose work ended for want of memory.
#[derive(Drop)]
pub struct Short {
    pub table: Table,
}

impl Table {
    /// The table is sound.
    pub fn is_sound(&self)
        ensures { IsSound self.now }
    {
        self.presentation();
    }

    /// The presentation.
    pub fn presentation(&self) -> &Presentation
        ensures value { result.now ≡ self.now.draft }
        ensures sound { IsSound self.now }
    {
        &self.presentation
    }

    /// The level, which no word's reach is above.
    pub fn level(&self) -> u32
        ensures { result ≡ self.now.level }
    {
        self.level
    }

    /// How many ids there are, live and dead.
    pub fn id_count(&self) -> u32
        ensures { result ≡ length self.now.words }
    {
        self.entries.len() as u32
    }

    /// Where the word of an id comes from.
    pub fn origin(&self, id: u32) -> Origin
        requires { IsId self.now id }
        ensures { IsOriginOf self.now.words id result (word_at self.now id) }
    {
        self.entries[id as usize].origin
    }

    /// How many letters the word of an id has.
    pub fn length(&self, id: u32) -> u32
        requires { IsId self.now id }
        ensures { result ≡ word_length (word_at self.now id) }
    {
        self.entries[id as usize].length
    }

    /// The reach of an id's word: the sum of the weights of its letters.
    pub fn reach(&self, id: u32) -> u32
        requires { IsId self.now id }
        ensures reach { result ≡ reach (presented self.now) (word_at self.now id) }
        ensures within { result ≤ self.now.level }
    {
        self.entries[id as usize].reach
    }

    /// The level at which an id and a relator meet.
    pub fn due(&self, id: u32, number: u32) -> u64
        requires id { IsId self.now id }
        requires number { number < length (relators (presented self.now)) }
        ensures { result ≡ due (presented self.now) (word_at self.now id) (relator (presented self.now) number) }
    {
        u64::from(self.reach(id)) + u64::from(self.reaches.relators[number as usize])
    }

    /// The level at which a submodule relation is due.
    pub fn due_sub(&self, number: u32) -> u64
        requires { number < length (presented self.now).submodule }
        ensures { result ≡ element_reach (presented self.now) (submodule_relation (presented self.now) number) }
    {
        u64::from(self.reaches.submodule[number as usize])
    }

    /// Whether an id has a row at a letter: whether there are such an id and letter, and their product is within the level.
    pub fn has_row(&self, id: u32, letter: u8) -> bool
        ensures row { IsTrue result ↔ IsSome (row_at self.now id letter) }
        ensures due { IsTrue result ↔ IsDue self.now id letter }
    {
        self.is_sound();
        self.row(id, letter).is_some()
    }

    /// The vector of a generator.
    pub fn image(&self, root: u8) -> &Sparse
        requires { root < (presented self.now).generators }
        ensures { slice_get self.now.images root ≡ Some result.now }
    {
        &self.images[usize::from(root)]
    }

    /// The vectors of all generators, in order.
    pub fn images(&self) -> &Vec<Sparse>
        ensures { result.now.items ≡ self.now.images }
    {
        &self.images
    }

    /// The first id of the reach or above. Ids are in the order of their words, so all from it on are.
    pub fn first_of_reach(&self, reach: u64) -> u32
        ensures bound { result ≤ length self.now.words }
        ensures below { (b : ℕ) → b < result → reach_at self.now b < reach }
        ensures rest { (b : ℕ) → result ≤ b → IsId self.now b → reach ≤ reach_at self.now b }
    {
        first_of_reach(&self.entries, reach) as u32
    }

    /// An id below which no row names the given id or a later one, since no word of a row reaches further than its product.
    pub fn first_naming(&self, id: u32) -> u32
        requires { IsId self.now id }
        ensures bound { result ≤ id }
        ensures below { (b x : ℕ) (v : Row) → b < result → row_at self.now b x ≡ Some v → All (λ t. t.0 < id) v }
        ensures near { (b : ℕ) → result ≤ b → IsId self.now b → reach_at self.now id ≤ reach_at self.now b + greatest_step (presented self.now) }
    {
        ve_theory::order::reaches_are_bounded();
        self.is_sound();
        let greatest = u32::from(self.presentation.greatest_weight());
        let reach = self.reach(id).saturating_sub(greatest);
        self.first_of_reach(u64::from(reach))
    }

    /// How many ids the next level has, where the dead ones are left out.
    pub fn next_size(&self) -> u64
        ensures { result ≡ next_count self.now }
    {
        ve_theory::order::reaches_are_bounded();
        let weights = self.presentation.weights();
        let next = u64::from(self.level) + 1;
        // Ids are in the order of words, so no letter takes an earlier one so far.
        let least = next.saturating_sub(u64::from(self.presentation.greatest_weight()));
        let first = first_of_reach(&self.entries, least);
        u64::from(self.live) + steps_to(&self.entries[first..], weights, next)
    }
}

/// How many pairs there are of a live id and a letter whose product has the reach.
fn steps_to(entries: &[Entry], weights: &[u8], reach: u64) -> u64
    requires count { length entries.now < 2 ^ 32 }
    requires letters { length weights.now ≤ most_letters }
    ensures steps { result ≡ sum_by (live_steps weights.now reach) entries.now }
    ensures within { result ≤ length entries.now * most_letters }
{
    let mut steps = 0;
    for entry in entries {
        if entry.is_live() {
            steps += letters_to(weights, entry.reach, reach);
        }
    }
    steps
}

/// How many letters take a word of one reach to another.
fn letters_to(weights: &[u8], from: u32, reach: u64) -> u64
    ensures letters { result ≡ count_by (λ step. nat_eq (from + step) reach) weights.now }
    ensures within { result ≤ length weights.now }
{
    let mut count = 0;
    for step in weights {
        if u64::from(from) + u64::from(*step) == reach {
            count += 1;
        }
    }
    count
}

impl Rows for Table {
    ghost rows = { row_at };

    fn row(&self, id: u32, letter: u8) -> Option<&Sparse> {
        let letters = self.bounds.len();
        let place = usize::from(letter);
        if place >= letters {
            return None;
        }
        if id >= self.bounds[place] {
            return None;
        }
        Some(&self.rows[id as usize * letters + place])
    }
}
