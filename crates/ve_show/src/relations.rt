//! The lines of relations and of submodule relations.

ghost use Rattle.std.specs.Prelude.{◌≡◌, ◌<◌, ◌++◌, All, IfOk};
ghost use Rattle.ve_theory.specs.Presentations.{HasLetters};
ghost use Rattle.ve_theory.specs.Words.{letters};
ghost use Rattle.ve_formats.specs.Lines.{line_text};
ghost use Rattle.ve_formats.specs.CanonicalText.{relation_line, submodule_line};

use crate::sums::{append_algebra_sum, append_module_sum};
use ve_lines::append;
use ve_pres::{FreeAlg, FreeMod, Presentation};
use ve_word::Memory;

/// Appends the line of a relation with its line feed.
pub(crate) fn append_relation(
    line: &mut Vec<u8>,
    presentation: &Presentation,
    relation: &FreeAlg,
) -> Result<(), Memory>
    requires { All (λ t. HasLetters presentation.now.presentation t.0) relation.now }
    ensures { IfOk result (λ _. line.new.items ≡ line.old.items ++ line_text (relation_line presentation.now.presentation relation.now)) }
{
    append(line, b"relation ")?;
    append_algebra_sum(line, presentation.names(), relation)?;
    append(line, b" = 0\n")
}

/// Appends the line of a submodule relation with its line feed.
pub(crate) fn append_submodule_relation(
    line: &mut Vec<u8>,
    presentation: &Presentation,
    relation: &FreeMod,
) -> Result<(), Memory>
    requires { All (λ t. HasLetters presentation.now.presentation (letters t.0)) relation.now }
    ensures { IfOk result (λ _. line.new.items ≡ line.old.items ++ line_text (submodule_line presentation.now.presentation relation.now)) }
{
    append(line, b"sub ")?;
    append_module_sum(line, presentation.names(), relation)?;
    append(line, b" = 0\n")
}
