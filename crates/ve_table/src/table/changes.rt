//! The calls that change one vector of the table. They take no memory.

ghost use Rattle.std.specs.Prelude.{◌≡◌, ◌<◌, All, IsSome};
ghost use Rattle.ve_table.specs.Tables.{IsLive, presented, row_at};
ghost use Rattle.ve_table.specs.Sound.{HasLiveIds, IsForwardOf, IsImageOf, IsRowOf, IsSound};
ghost use Rattle.ve_table.specs.Changes.{with_forward, with_image, with_row};

use crate::Table;
use ve_vec::Sparse;

impl Table {
    /// Makes the id dead, with a vector in its place.
    pub fn kill(&mut self, id: u32, forward: Sparse)
        requires live { IsLive self.old id }
        requires live_ids { HasLiveIds self.old forward }
        requires forward { IsForwardOf self.old id forward }
        ensures dead { self.new ≡ with_forward self.old id forward }
        ensures sound { IsSound self.new }
    {
        self.live -= 1;
        self.forwards.push_reserved(forward);
        self.entries[id as usize].death = self.forwards.len() as u32;
    }

    /// Puts a vector in the place of a row.
    pub fn set_row(&mut self, id: u32, letter: u8, row: Sparse)
        requires exists { IsSome (row_at self.old id letter) }
        requires row { IsRowOf self.old id letter row }
        ensures row { self.new ≡ with_row self.old id letter row }
        ensures sound { IsSound self.new }
    {
        let letters = self.presentation.weights().len();
        let place = id as usize * letters + usize::from(letter);
        self.rows[place] = row;
    }

    /// Puts a vector in the place of a generator's image.
    pub fn set_image(&mut self, root: u8, image: Sparse)
        requires exists { root < (presented self.old).generators }
        requires image { IsImageOf self.old root image }
        ensures image { self.new ≡ with_image self.old root image }
        ensures sound { IsSound self.new }
    {
        self.images[usize::from(root)] = image;
    }
}
