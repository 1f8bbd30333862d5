//! Rows and images that name live ids alone.

ghost use Rattle.std.specs.Prelude.{ℕ, ◌<◌, OnOk, length};
ghost use Rattle.ve_table.specs.Tables.{IsLive, presented};
ghost use Rattle.ve_table.specs.Sound.{NamesLiveIds};
ghost use Rattle.ve_machine.specs.Finished.{IsFinishedTable};
ghost use Rattle.ve_pack.specs.LiveVectors.{HasLiveImage, HasLiveRow};
ghost use Rattle.ve_pack.specs.Packing.{IsPartlyResolved};

use crate::live::has_live_ids;
use std::alloc::Global;
use ve_machine::finished::stays_finished;
use ve_machine::forwards::forwardings_are_a_space;
use ve_settle::{resolutions_keep_words, resolve};
use ve_table::Table;
use ve_vec::Rows;
use ve_word::Memory;

/// Resolves the rows of live ids and the images.
pub(crate) fn resolve_all(alloc: Global, table: &mut Table) -> Result<(), Memory>
    requires { IsFinishedTable table.old }
    ensures finished { IsFinishedTable table.new }
    ensures resolved { IsPartlyResolved table.old table.new }
    ensures live { OnOk result (NamesLiveIds table.new) }
{
    forwardings_are_a_space();
    stays_finished();
    let Some(dead) = table.least_dead() else {
        return Ok(());
    };
    resolve_rows(alloc, table, dead)?;
    resolve_images(alloc, table, dead)?;
    Ok(())
}

/// Resolves the rows of live ids, where the ids below `dead` are live.
fn resolve_rows(alloc: Global, table: &mut Table, dead: u32) -> Result<(), Memory>
    requires finished { IsFinishedTable table.old }
    requires id { dead < length table.old.words }
    requires below { (b : ℕ) → b < dead → IsLive table.old b }
    ensures finished { IsFinishedTable table.new }
    ensures resolved { IsPartlyResolved table.old table.new }
    ensures live { OnOk result ((b x : ℕ) → IsLive table.new b → HasLiveRow table.new b x) }
{
    forwardings_are_a_space();
    let first = table.first_naming(dead);
    for id in first..table.id_count() {
        if table.is_live(id) {
            resolve_rows_of(alloc, table, id, dead)?;
        }
    }
    Ok(())
}

/// Resolves the rows of a live id.
fn resolve_rows_of(alloc: Global, table: &mut Table, id: u32, dead: u32) -> Result<(), Memory>
    requires finished { IsFinishedTable table.old }
    requires live { IsLive table.old id }
    requires below { (b : ℕ) → b < dead → IsLive table.old b }
    ensures finished { IsFinishedTable table.new }
    ensures resolved { IsPartlyResolved table.old table.new }
    ensures live { OnOk result ((x : ℕ) → HasLiveRow table.new id x) }
{
    forwardings_are_a_space();
    let letters = table.presentation().weights().len() as u8;
    for letter in 0..letters {
        resolve_row(alloc, table, id, letter, dead)?;
    }
    Ok(())
}

/// Resolves a row, where there is one that has a dead id.
fn resolve_row(
    alloc: Global,
    table: &mut Table,
    id: u32,
    letter: u8,
    dead: u32,
) -> Result<(), Memory>
    requires finished { IsFinishedTable table.old }
    requires below { (b : ℕ) → b < dead → IsLive table.old b }
    ensures finished { IsFinishedTable table.new }
    ensures resolved { IsPartlyResolved table.old table.new }
    ensures live { OnOk result (HasLiveRow table.new id letter) }
{
    stays_finished();
    resolutions_keep_words();
    let Some(row) = table.row(id, letter) else {
        return Ok(());
    };
    if has_live_ids(table, row, dead) {
        return Ok(());
    }
    let resolved = resolve(alloc, table, row)?;
    table.set_row(id, letter, resolved);
    Ok(())
}

/// Resolves the images, where the ids below `dead` are live.
fn resolve_images(alloc: Global, table: &mut Table, dead: u32) -> Result<(), Memory>
    requires finished { IsFinishedTable table.old }
    requires below { (b : ℕ) → b < dead → IsLive table.old b }
    ensures finished { IsFinishedTable table.new }
    ensures resolved { IsPartlyResolved table.old table.new }
    ensures live { OnOk result ((i : ℕ) → HasLiveImage table.new i) }
{
    forwardings_are_a_space();
    let roots = table.presentation().roots() as u8;
    for root in 0..roots {
        resolve_image(alloc, table, root, dead)?;
    }
    Ok(())
}

/// Resolves an image, where it has a dead id.
fn resolve_image(alloc: Global, table: &mut Table, root: u8, dead: u32) -> Result<(), Memory>
    requires finished { IsFinishedTable table.old }
    requires below { (b : ℕ) → b < dead → IsLive table.old b }
    requires root { root < (presented table.old).generators }
    ensures finished { IsFinishedTable table.new }
    ensures resolved { IsPartlyResolved table.old table.new }
    ensures live { OnOk result (HasLiveImage table.new root) }
{
    stays_finished();
    resolutions_keep_words();
    let image = table.image(root);
    if has_live_ids(table, image, dead) {
        return Ok(());
    }
    let resolved = resolve(alloc, table, image)?;
    table.set_image(root, resolved);
    Ok(())
}
