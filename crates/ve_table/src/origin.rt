/// Where the word of an id comes from.
#[derive(Clone, Copy, Debug, PartialEq, Eq)]
pub enum Origin {
    /// The word is a generator.
    Root(u8),
    /// The word is the word of an earlier id times a letter.
    Child { parent: u32, letter: u8 },
}
