ghost use Rattle.std.specs.Prelude.{◌≡◌, ◌≤◌, IfOk, length, vec_capacity};

use crate::Table;
use crate::entry::Entry;
use crate::reaches::Reaches;
use crate::table::lists::Lists;
use ve_pres::Presentation;
use ve_vec::Sparse;
use ve_word::Memory;

impl Table {
    /// The same table once more.
    pub fn copy(&self) -> Result<Table, Memory>
        ensures { IfOk result (λ t. t ≡ self.now) }
    {
        let (presentation, reaches) = copy_relations(&self.presentation, &self.reaches)?;
        let lists = copy_lists(
            &self.entries,
            &self.forwards,
            &self.rows,
            &self.bounds,
            &self.images,
        )?;
        Ok(Table {
            presentation,
            reaches,
            level: self.level,
            entries: lists.entries,
            forwards: lists.forwards,
            rows: lists.rows,
            bounds: lists.bounds,
            live: self.live,
            images: lists.images,
        })
    }
}

/// The same presentation once more, and its reaches.
fn copy_relations(
    presentation: &Presentation,
    reaches: &Reaches,
) -> Result<(Presentation, Reaches), Memory>
    ensures presentation { IfOk result (λ r. r.0 ≡ presentation.now) }
    ensures relators { IfOk result (λ r. r.1.relators.items ≡ reaches.now.relators.items) }
    ensures submodule { IfOk result (λ r. r.1.submodule.items ≡ reaches.now.submodule.items) }
{
    let presentation = presentation.copy()?;
    let reaches = reaches.copy()?;
    Ok((presentation, reaches))
}

/// The same lists once more, with room for a forward of each id.
fn copy_lists(
    entries: &Vec<Entry>,
    forwards: &Vec<Sparse>,
    rows: &Vec<Sparse>,
    bounds: &Vec<u32>,
    images: &Vec<Sparse>,
) -> Result<Lists, Memory>
    requires { length forwards.now.items ≤ length entries.now.items }
    ensures entries { IfOk result (λ l. l.entries.items ≡ entries.now.items) }
    ensures forwards { IfOk result (λ l. l.forwards.items ≡ forwards.now.items) }
    ensures room { IfOk result (λ l. vec_capacity l.forwards ≡ length entries.now.items) }
    ensures rows { IfOk result (λ l. l.rows.items ≡ rows.now.items) }
    ensures bounds { IfOk result (λ l. l.bounds.items ≡ bounds.now.items) }
    ensures images { IfOk result (λ l. l.images.items ≡ images.now.items) }
{
    let (entries, forwards) = copy_ids(entries, forwards)?;
    let (rows, bounds) = copy_rows(rows, bounds)?;
    let images = copy_vectors(images, images.len())?;
    Ok(Lists {
        entries,
        forwards,
        rows,
        bounds,
        images,
    })
}

/// The same entries once more, and their forwards with room for one of each id.
fn copy_ids(
    entries: &Vec<Entry>,
    forwards: &Vec<Sparse>,
) -> Result<(Vec<Entry>, Vec<Sparse>), Memory>
    requires { length forwards.now.items ≤ length entries.now.items }
    ensures entries { IfOk result (λ r. r.0.items ≡ entries.now.items) }
    ensures forwards { IfOk result (λ r. r.1.items ≡ forwards.now.items) }
    ensures room { IfOk result (λ r. vec_capacity r.1 ≡ length entries.now.items) }
{
    let copies = Vec::from_slice(*entries.allocator(), entries)?;
    let forwards = copy_vectors(forwards, entries.len())?;
    Ok((copies, forwards))
}

/// The same rows once more, and how many ids have one.
fn copy_rows(rows: &Vec<Sparse>, bounds: &Vec<u32>) -> Result<(Vec<Sparse>, Vec<u32>), Memory>
    ensures rows { IfOk result (λ r. r.0.items ≡ rows.now.items) }
    ensures bounds { IfOk result (λ r. r.1.items ≡ bounds.now.items) }
{
    let rows = copy_vectors(rows, rows.len())?;
    let bounds = Vec::from_slice(*bounds.allocator(), bounds)?;
    Ok((rows, bounds))
}

/// Copies of vectors, in a list with room for as many as asked for.
fn copy_vectors(vectors: &Vec<Sparse>, room: usize) -> Result<Vec<Sparse>, Memory>
    requires { length vectors.now.items ≤ room }
    ensures copies { IfOk result (λ copies. copies.items ≡ vectors.now.items) }
    ensures room { IfOk result (λ copies. vec_capacity copies ≡ room) }
{
    let mut copies = Vec::with_capacity(*vectors.allocator(), room)?;
    for vector in vectors {
        copies.push_reserved(vector.copy()?);
    }
    Ok(copies)
}
