//! Balanced presentations.

ghost use Rattle.ve_theory.specs.Laws.{BalanceKeepsTheModule};

/// The same elements are derived with halved relations, and the module has the same answers.
pub fn balance_keeps_the_module()
    ensures { BalanceKeepsTheModule }
{}
