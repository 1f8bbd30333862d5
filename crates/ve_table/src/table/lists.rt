use crate::entry::Entry;
use ve_vec::Sparse;

/// The lists of a table, apart from it.
#[derive(Drop)]
pub(crate) struct Lists {
    pub(crate) entries: Vec<Entry>,
    pub(crate) forwards: Vec<Sparse>,
    pub(crate) rows: Vec<Sparse>,
    pub(crate) bounds: Vec<u32>,
    pub(crate) images: Vec<Sparse>,
}
