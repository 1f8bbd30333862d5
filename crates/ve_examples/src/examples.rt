//! The contract of each function says that a presentation is valid, what its answer is, and how large its levels are, up to the
//! closing one. Its body calls the laws that this rests on, and does nothing.

ghost use Rattle.std.specs.Prelude.{◌≡◌, [], ◌∷◌};
ghost use Rattle.ve_theory.specs.Validity.{IsValid};
ghost use Rattle.ve_theory.specs.Presentations.{IsPresentation, relators};
ghost use Rattle.ve_theory.specs.Laws.{IsBalanceOf};
ghost use Rattle.ve_theory.specs.Levels.{IsFinishedAt, IsOutgrown};
ghost use Rattle.ve_theory.specs.Answers.{IsAnswer, IsOrdered};
ghost use Rattle.ve_theory.specs.Verdicts.{IsVerdict, basis_word_fails, is_quotient, relator_fails, shape_differs, submodule_fails};
ghost use Rattle.ve_examples.specs.Sizes.{HaveSizes};
ghost use Rattle.ve_examples.specs.TwoCycle.{two_cycle, two_cycle_answer};
ghost use Rattle.ve_examples.specs.ZeroModule.{zero_module, zero_module_answer};
ghost use Rattle.ve_examples.specs.TiedGenerators.{tied_generators, tied_generators_answer};
ghost use Rattle.ve_examples.specs.ProportionalGenerators.{proportional_generators, proportional_generators_answer};
ghost use Rattle.ve_examples.specs.WeightedPair.{weighted_pair, weighted_pair_answer};
ghost use Rattle.ve_examples.specs.ThreeCycle.{three_cycle, three_cycle_relators};
ghost use Rattle.ve_examples.specs.Triangle.{balanced_triangle, triangle};
ghost use Rattle.ve_examples.specs.WrongAnswers.{other_field, other_multiple, vanishing_basis_word, x_is_no_cycle};

use ve_theory::levels::{closing_levels_settle, finished_levels_settle};

/// The group algebra of the group of two elements has dimension 2 and closes at level 3.
pub fn two_cycle_is_answered()
    ensures valid { IsValid two_cycle }
    ensures answer { IsAnswer two_cycle two_cycle_answer }
    ensures sizes { HaveSizes two_cycle (1 ∷ 2 ∷ 3 ∷ 2 ∷ []) }
{
    finished_levels_settle();
    closing_levels_settle();
}

/// It is finished where 3 vectors are allowed, and outgrown at level 2 where only 2 are.
pub fn two_cycle_ends()
    ensures finished { IsFinishedAt two_cycle 3 3 }
    ensures outgrown { IsOutgrown two_cycle 2 2 3 }
{
    two_cycle_is_answered();
}

/// Its answer is ordered.
pub fn two_cycle_is_ordered()
    ensures { IsOrdered two_cycle two_cycle_answer.action }
{
    finished_levels_settle();
    closing_levels_settle();
}

/// Each verdict is that of some answer.
pub fn verdicts_are_told()
    ensures quotient { IsVerdict two_cycle two_cycle_answer is_quotient }
    ensures shape { IsVerdict two_cycle other_field shape_differs }
    ensures relator { IsVerdict two_cycle x_is_no_cycle (relator_fails 0 0) }
    ensures submodule { IsVerdict proportional_generators other_multiple (submodule_fails 0) }
    ensures basis_word { IsVerdict two_cycle vanishing_basis_word (basis_word_fails 0) }
{
    finished_levels_settle();
    closing_levels_settle();
}

/// Where 1 is to vanish nothing is left, and level 0 closes.
pub fn zero_module_is_answered()
    ensures valid { IsValid zero_module }
    ensures answer { IsAnswer zero_module zero_module_answer }
    ensures sizes { HaveSizes zero_module (1 ∷ []) }
{
    finished_levels_settle();
    closing_levels_settle();
}

/// A later word of greater reach is reduced to an earlier generator.
pub fn tied_generators_are_answered()
    ensures valid { IsValid tied_generators }
    ensures answer { IsAnswer tied_generators tied_generators_answer }
    ensures sizes { HaveSizes tied_generators (2 ∷ 4 ∷ 4 ∷ []) }
{
    finished_levels_settle();
    closing_levels_settle();
}

/// A generator that is no basis word has its image.
pub fn proportional_generators_are_answered()
    ensures valid { IsValid proportional_generators }
    ensures answer { IsAnswer proportional_generators proportional_generators_answer }
    ensures sizes { HaveSizes proportional_generators (2 ∷ 2 ∷ []) }
{
    finished_levels_settle();
    closing_levels_settle();
}

/// A heavy letter is introduced late, at the level of its weight, and is no basis word.
pub fn weighted_pair_is_answered()
    ensures valid { IsValid weighted_pair }
    ensures answer { IsAnswer weighted_pair weighted_pair_answer }
    ensures sizes { HaveSizes weighted_pair (1 ∷ 2 ∷ 3 ∷ 5 ∷ 4 ∷ 4 ∷ []) }
{
    finished_levels_settle();
    closing_levels_settle();
}

/// The relators of a letter and its inverse come before the relation.
pub fn three_cycle_is_numbered()
    ensures valid { IsValid three_cycle }
    ensures relators { relators three_cycle ≡ three_cycle_relators }
{}

/// A relation between two words is halved.
pub fn triangle_is_balanced()
    ensures valid { IsValid triangle }
    ensures presentation { IsPresentation balanced_triangle }
    ensures balance { IsBalanceOf triangle balanced_triangle }
{}
