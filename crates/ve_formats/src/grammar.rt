//! Laws of the texts of presentations. Each is the contract of a function that does nothing.

ghost use Rattle.std.specs.Prelude.{◌≡◌, ◌⊎◌, ◌↔◌, ℕ, List, Some, Ok};
ghost use Rattle.ve_theory.specs.Elements.{AlgebraElement, Element};
ghost use Rattle.ve_theory.specs.Presentations.{Presentation};
ghost use Rattle.ve_theory.specs.Validity.{IsValid};
ghost use Rattle.ve_formats.specs.Once.{ExactlyOne};
ghost use Rattle.ve_formats.specs.Causes.{Cause};
ghost use Rattle.ve_formats.specs.Tokens.{Token};
ghost use Rattle.ve_formats.specs.Expressions as algebra;
ghost use Rattle.ve_formats.specs.Expressions.{Expression, Spell};
ghost use Rattle.ve_formats.specs.ModuleExpressions as modules;
ghost use Rattle.ve_formats.specs.ModuleExpressions.{ModuleExpression, ModuleSpell};
ghost use Rattle.ve_formats.specs.Reading.{parsed};
ghost use Rattle.ve_formats.specs.ModuleReading.{module_parsed};
ghost use Rattle.ve_formats.specs.LineReading.{form_of};
ghost use Rattle.ve_formats.specs.Values.{IsReadable, IsAlgebraValue, HasValue};
ghost use Rattle.ve_formats.specs.ModuleValues.{IsModuleValue, HasModuleValue};
ghost use Rattle.ve_formats.specs.PresentationLines.{Line, SpellLine};
ghost use Rattle.ve_formats.specs.PresentationText.{Spells, IsRefusedAt};

use ve_theory::elements::reduced_lists_are_unique;

/// Tokens are a line of exactly one form, or of none.
pub fn line_forms_once()
    ensures formed { (tokens : List Token) → ((form : Line) × SpellLine tokens form) ⊎ ((form : Line) → ¬ SpellLine tokens form) }
    ensures same_form { (tokens : List Token) (form other : Line) → SpellLine tokens form → SpellLine tokens other → form ≡ other }
{}

/// The readers of expressions and lines read exactly what is spelled.
pub fn readers_read_what_is_spelled()
    ensures algebra { (tokens : List Token) (e : Expression) → (parsed tokens ≡ Some e) ↔ Spell algebra.whole tokens e }
    ensures modules { (tokens : List Token) (e : ModuleExpression) → (module_parsed tokens ≡ Some e) ↔ ModuleSpell modules.whole tokens e }
    ensures lines { (tokens : List Token) (form : Line) → (form_of tokens ≡ Some form) ↔ SpellLine tokens form }
{}

/// Each expression has exactly one value, or exactly one first fault in its place.
pub fn values_are_unique()
    ensures algebra { (P : Presentation) (e : Expression) → IsReadable P → ExactlyOne (HasValue P e) }
    ensures modules { (P : Presentation) (e : ModuleExpression) → IsReadable P → ExactlyOne (HasModuleValue P e) }
{
    reduced_lists_are_unique();
}

/// Values are lists of terms over the presentation's letters and generators, within the limits of elements.
pub fn values_are_elements()
    ensures algebra { (P : Presentation) (e : Expression) (v : AlgebraElement) → IsReadable P → HasValue P e (Ok v) → IsAlgebraValue P v }
    ensures modules { (P : Presentation) (e : ModuleExpression) (v : Element) → IsReadable P → HasModuleValue P e (Ok v) → IsModuleValue P v }
{
    reduced_lists_are_unique();
}

/// Each text spells exactly one presentation, or is refused at exactly one line for exactly one cause, and never both.
pub fn text_spells_once()
    ensures read { (text : List ℕ) → ((P : Presentation) × Spells text P) ⊎ ((line : ℕ) × (cause : Cause) × IsRefusedAt text line cause) }
    ensures same_presentation { (text : List ℕ) (P Q : Presentation) → Spells text P → Spells text Q → P ≡ Q }
    ensures same_refusal { (text : List ℕ) (line other : ℕ) (cause why : Cause) → IsRefusedAt text line cause → IsRefusedAt text other why → (line ≡ other) × (cause ≡ why) }
    ensures never_both { (text : List ℕ) (P : Presentation) (line : ℕ) (cause : Cause) → Spells text P → IsRefusedAt text line cause → ⊥ }
{
    reduced_lists_are_unique();
}

/// Presentations that a text spells are valid.
pub fn spelled_is_valid()
    ensures { (text : List ℕ) (P : Presentation) → Spells text P → IsValid P }
{
    reduced_lists_are_unique();
}
