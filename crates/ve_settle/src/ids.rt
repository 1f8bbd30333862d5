ghost use Rattle.ve_settle.specs.Ids.{WordsRiseWithIds};

/// The word of a lower id is not after that of a higher one, and reaches no further.
pub fn words_rise_with_ids()
    ensures { WordsRiseWithIds }
{
    ve_theory::order::words_are_ordered();
}
