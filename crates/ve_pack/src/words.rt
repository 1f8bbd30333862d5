ghost use Rattle.ve_pack.specs.Packing.{PackedWordsAreLive};

/// The words of a packed table are its live ones.
pub fn packed_words_are_live()
    ensures { PackedWordsAreLive }
{}
