use crate::Origin;
use ve_pres::Presentation;
use ve_vec::Sparse;

/// What a table is made of, apart.
#[derive(Drop)]
pub struct Parts {
    pub presentation: Presentation,
    pub level: u32,
    /// Where the word of each id comes from.
    pub origins: Vec<Origin>,
    /// For each generator its vector.
    pub images: Vec<Sparse>,
    /// For each letter the rows of all ids.
    pub rows: Vec<Vec<Sparse>>,
}
