//! The reach and the order of words.

ghost use Rattle.ve_theory.specs.Laws.{ReachAddsUp, ReachesAreBounded, WordsAreOrdered, LettersKeepOrder, FinitelyManyBefore, EqualWeightsAreShortlex, ValidReachesAreSmall};

/// A word without letters has reach 0, and a letter adds its step.
pub fn reach_adds_up()
    ensures { ReachAddsUp }
{}

/// Steps, relators and submodule relations reach no further than their bounds.
pub fn reaches_are_bounded()
    ensures { ReachesAreBounded }
{}

/// In a valid presentation they are at most 16,000.
pub fn valid_reaches_are_small()
    ensures { ValidReachesAreSmall }
{}

/// Words are in a strict total order, in which smaller reach comes first.
pub fn words_are_ordered()
    ensures { WordsAreOrdered }
{}

/// A letter on the right keeps the order.
pub fn letters_keep_order()
    ensures { LettersKeepOrder }
{}

/// Only finitely many words are before a word.
pub fn finitely_many_before()
    ensures { FinitelyManyBefore }
{}

/// Where all weights are 1 the weighted order is shortlex.
pub fn equal_weights_are_shortlex()
    ensures { EqualWeightsAreShortlex }
{}
