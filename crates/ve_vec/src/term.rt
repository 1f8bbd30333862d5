/// A coefficient at a place of the basis.
#[derive(Clone, Copy, Debug, Default, PartialEq, Eq)]
pub struct Term {
    /// The place.
    pub id: u32,
    /// The coefficient.
    pub coef: u8,
}
