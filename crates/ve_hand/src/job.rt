/// A job of a level.
#[derive(Clone, Copy, Debug, PartialEq, Eq)]
pub enum Job {
    /// A relator at an id.
    Relator { id: u32, number: u32 },
    /// A submodule relation.
    Sub { number: u32 },
    /// The image of a dead id at a letter.
    Image { id: u32, letter: u8 },
}
