//! Residues modulo a prime.

ghost use Rattle.ve_theory.specs.Laws.{HasInverses};

/// Each residue other than 0 has an inverse.
pub fn has_inverses()
    ensures { HasInverses }
{}
