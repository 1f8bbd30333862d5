//! Sums of terms, joined by ` + `.

ghost use Rattle.std.specs.Prelude.{◌≡◌, ◌<◌, ◌++◌, All, IfOk, length, map};
ghost use Rattle.ve_theory.specs.Words.{letters as letters_of};
ghost use Rattle.ve_formats.specs.CanonicalText.{algebra_term_text, joined_terms, letters_text, term_text};

use crate::pieces::{append_coefficient, append_joint};
use ve_lines::{append, append_number};
use ve_pres::{FreeAlg, FreeMod};
use ve_word::{Memory, Names, Word, write_word};

/// Appends an element of the algebra.
pub(crate) fn append_algebra_sum(
    line: &mut Vec<u8>,
    names: &Names,
    element: &FreeAlg,
) -> Result<(), Memory>
    requires { All (λ t. All (λ x. x < length names.now) t.0) element.now }
    ensures { IfOk result (λ _. line.new.items ≡ line.old.items ++ joined_terms (map (algebra_term_text names.now) element.now)) }
{
    for at in 0..element.term_count() {
        append_joint(line, at, b" + ")?;
        append_algebra_term(line, names, element.word_at(at), element.coef_at(at))?;
    }
    Ok(())
}

/// Appends an element of the module.
pub(crate) fn append_module_sum(
    line: &mut Vec<u8>,
    names: &Names,
    element: &FreeMod,
) -> Result<(), Memory>
    requires { All (λ t. All (λ x. x < length names.now) (letters_of t.0)) element.now }
    ensures { IfOk result (λ _. line.new.items ≡ line.old.items ++ joined_terms (map (term_text names.now) element.now)) }
{
    for at in 0..element.term_count() {
        append_joint(line, at, b" + ")?;
        append_term(line, names, element.word_at(at), element.coef_at(at))?;
    }
    Ok(())
}

/// Appends a term of the algebra: the coefficient alone, where there are no letters.
fn append_algebra_term(
    line: &mut Vec<u8>,
    names: &Names,
    letters: &[u8],
    coefficient: u8,
) -> Result<(), Memory>
    requires { All (λ x. x < length names.now) letters.now }
    ensures { IfOk result (λ _. line.new.items ≡ line.old.items ++ algebra_term_text names.now (letters.now, coefficient)) }
{
    if letters.is_empty() {
        return append_number(line, u64::from(coefficient));
    }
    append_coefficient(line, coefficient)?;
    append_letters(line, names, letters)
}

/// Appends a term of the module.
fn append_term(
    line: &mut Vec<u8>,
    names: &Names,
    word: &Word,
    coefficient: u8,
) -> Result<(), Memory>
    requires { All (λ x. x < length names.now) (letters_of word.now) }
    ensures { IfOk result (λ _. line.new.items ≡ line.old.items ++ term_text names.now (word.now, coefficient)) }
{
    append_coefficient(line, coefficient)?;
    write_word(word, names, line)
}

/// Appends the letters' names, joined by `*`.
fn append_letters(line: &mut Vec<u8>, names: &Names, letters: &[u8]) -> Result<(), Memory>
    requires { All (λ x. x < length names.now) letters.now }
    ensures { IfOk result (λ _. line.new.items ≡ line.old.items ++ letters_text names.now letters.now) }
{
    for (at, letter) in letters.iter().enumerate() {
        append_joint(line, at, b"*")?;
        append(line, names.name(*letter).as_bytes())?;
    }
    Ok(())
}
