//! The law of words.

ghost use Rattle.ve_words.specs.Meaning.{WordsMeanOnce};

/// Words mean one command at most.
pub fn words_mean_once()
    ensures { WordsMeanOnce }
{}
