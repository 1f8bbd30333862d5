//! Actions that meet the relations: quotients, and when they are the whole module.

ghost use Rattle.ve_theory.specs.Laws.{RelationsMakeQuotients, DerivedExactlyWhereZero, OrderedBasisIsLeast, AnswersDecide};

/// An action that meets the relations is one of the presented module.
pub fn relations_make_quotients()
    ensures { RelationsMakeQuotients }
{}

/// Where its rows are derived too, an element is derived exactly where it evaluates to zero.
pub fn derived_exactly_where_zero()
    ensures { DerivedExactlyWhereZero }
{}

/// Where its rows are ordered too, its basis lists the least words.
pub fn ordered_basis_is_least()
    ensures { OrderedBasisIsLeast }
{}

/// The module's answer meets the relations, and decides what is derived.
pub fn answers_decide()
    ensures { AnswersDecide }
{}
