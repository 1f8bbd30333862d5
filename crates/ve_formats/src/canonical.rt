//! The law of canonical texts. It is the contract of a function that does nothing.

ghost use Rattle.ve_theory.specs.Presentations.{Presentation};
ghost use Rattle.ve_theory.specs.Validity.{IsValid};
ghost use Rattle.ve_formats.specs.PresentationText.{Spells};
ghost use Rattle.ve_formats.specs.CanonicalText.{canonical};

/// The canonical text of a presentation is read as that presentation.
pub fn canonical_spells()
    ensures { (P : Presentation) → IsValid P → Spells (canonical P) P }
{}
