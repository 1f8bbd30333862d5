ghost use Rattle.std.specs.Prelude.{◌≡◌, [], All, IfOk, length, map, vec_capacity};
ghost use Rattle.std.specs.List.{range_with_len};
ghost use Rattle.ve_theory.specs.Combinations.{unit};
ghost use Rattle.ve_table.specs.Sound.{IsSound};
ghost use Rattle.ve_table.specs.Changes.{opened};
ghost use Rattle.ve_table.specs.Roots.{AreRoots};

use crate::bounds::no_bounds;
use crate::entry::Entry;
use crate::reaches::Reaches;
use crate::table::lists::Lists;
use crate::{Origin, Table};
use std::alloc::Global;
use ve_pres::Presentation;
use ve_vec::Sparse;
use ve_word::Memory;

impl Table {
    /// The table of level 0: an id for each generator, which is its image.
    pub fn open(alloc: Global, presentation: Presentation) -> Result<Table, Memory>
        ensures opened { IfOk result (λ table. table ≡ opened presentation) }
        ensures sound { IfOk result IsSound }
    {
        ve_theory::order::reaches_are_bounded();
        presentation.is_valid();
        let reaches = Reaches::of(alloc, &presentation)?;
        let roots = presentation.roots() as u8;
        let letters = presentation.weights().len();
        let lists = root_lists(alloc, roots, letters)?;
        Ok(Table {
            presentation,
            reaches,
            level: 0,
            entries: lists.entries,
            forwards: lists.forwards,
            rows: lists.rows,
            bounds: lists.bounds,
            live: u32::from(roots),
            images: lists.images,
        })
    }
}

/// The lists of a table of level 0, with room for a forward of each id.
fn root_lists(alloc: Global, roots: u8, letters: usize) -> Result<Lists, Memory>
    ensures entries { IfOk result (λ l. AreRoots roots l.entries.items) }
    ensures forwards { IfOk result (λ l. l.forwards.items ≡ []) }
    ensures room { IfOk result (λ l. vec_capacity l.forwards ≡ roots) }
    ensures rows { IfOk result (λ l. l.rows.items ≡ []) }
    ensures letters { IfOk result (λ l. length l.bounds.items ≡ letters) }
    ensures zero { IfOk result (λ l. All (λ bound. bound ≡ 0) l.bounds.items) }
    ensures images { IfOk result (λ l. l.images.items ≡ map unit (range_with_len 0 roots)) }
{
    let entries = root_entries(alloc, roots)?;
    let forwards = Vec::with_capacity(alloc, usize::from(roots))?;
    let bounds = no_bounds(alloc, letters)?;
    let images = root_images(alloc, roots)?;
    Ok(Lists {
        entries,
        forwards,
        rows: Vec::new(alloc),
        bounds,
        images,
    })
}

fn root_entries(alloc: Global, roots: u8) -> Result<Vec<Entry>, Memory>
    ensures { IfOk result (λ entries. AreRoots roots entries.items) }
{
    let mut entries = Vec::with_capacity(alloc, usize::from(roots))?;
    for root in 0..roots {
        entries.push_reserved(Entry::new(Origin::Root(root), 0, 0));
    }
    Ok(entries)
}

fn root_images(alloc: Global, roots: u8) -> Result<Vec<Sparse>, Memory>
    ensures { IfOk result (λ images. images.items ≡ map unit (range_with_len 0 roots)) }
{
    let mut images = Vec::with_capacity(alloc, usize::from(roots))?;
    for root in 0..roots {
        images.push_reserved(Sparse::unit(alloc, u32::from(root)));
    }
    Ok(images)
}
