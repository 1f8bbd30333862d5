//! The forms of lines.

ghost use Rattle.std.specs.Prelude.{◌≡◌, ◌≢◌, ℕ, List, [], MatchOption, IfSome, None, Some, position};
ghost use Rattle.ve_formats.specs.LineReading as reading;
ghost use Rattle.ve_formats.specs.LineReading.{declared_alone, equation, form_behind, is_equals, letters_form, one_number, sides};
ghost use Rattle.ve_formats.specs.LineReading.{take_declared, take_weight, unweighted};
ghost use Rattle.ve_formats.specs.ModuleReading.{module_parsed};
ghost use Rattle.ve_formats.specs.PresentationLines as lines;
ghost use Rattle.ve_formats.specs.PresentationLines.{Declared as DeclaredLetter, Line};
ghost use Rattle.ve_formats.specs.Reading.{parsed};
ghost use Rattle.ve_lex.specs.Lexed.{token_of};
ghost use Rattle.ve_value.specs.Shapes.{AreWritten, tokens_in};
ghost use Rattle.ve_read.specs.Forms.{AreSidesIn, IsDeclaredIn, IsNamed, ReadsForm, declared_of, read_as};
ghost use Rattle.ve_read.specs.Fronts.{HasNoNumber, HasNoWord, IsNumberIn, IsWeightIn, IsWordIn};

use crate::keyword::{Keyword, keyword_of};
use ve_lex::{Placed, Token};
use ve_value::{is_expression, is_module_expression};

/// A letter that is declared: its name, and its weight where one is written.
#[derive(Clone, Copy)]
pub(crate) struct Declared<'a> {
    pub(crate) name: &'a [u8],
    pub(crate) weight: Option<u64>,
}

/// A line, with the tokens of its expressions.
#[derive(Clone, Copy)]
pub(crate) enum Form<'a, 't> {
    Version(u64),
    Prime(u64),
    Letter(Declared<'a>),
    Pair(Declared<'a>, Declared<'a>),
    Involution(Declared<'a>),
    Generators(u64),
    Balance,
    Relation(&'t [Placed<'a>], &'t [Placed<'a>]),
    Submodule(&'t [Placed<'a>], &'t [Placed<'a>]),
    End,
}

/// The form of a line of these tokens. `None` where they are of no form.
pub(crate) fn form_of<'a, 't>(tokens: &'t [Placed<'a>]) -> Option<Form<'a, 't>>
    requires { AreWritten tokens.now }
    ensures { ReadsForm (reading.form_of (tokens_in tokens.now)) result }
{
    let (first, rest) = tokens.split_first()?;
    let Token::Name(word) = first.token else {
        return None;
    };
    form_behind(keyword_of(word), rest)
}

// The form of a line that begins with a keyword, by the tokens behind it.
fn form_behind<'a, 't>(keyword: Keyword, tokens: &'t [Placed<'a>]) -> Option<Form<'a, 't>>
    requires { AreWritten tokens.now }
    ensures { ReadsForm (form_behind (read_as keyword) (tokens_in tokens.now)) result }
{
    match keyword {
        Keyword::Version => Some(Form::Version(only_number(tokens)?)),
        Keyword::Prime => Some(Form::Prime(only_number(tokens)?)),
        Keyword::Letter => letters(tokens),
        Keyword::Involution => Some(Form::Involution(only_declared(tokens)?)),
        Keyword::Generators => Some(Form::Generators(only_number(tokens)?)),
        Keyword::Balance => alone(Form::Balance, tokens),
        Keyword::Relation => relation(tokens),
        Keyword::Submodule => submodule_relation(tokens),
        Keyword::End => alone(Form::End, tokens),
        Keyword::Nothing => None,
    }
}

// The form, where no token is left.
fn alone<'a, 't>(form: Form<'a, 't>, tokens: &[Placed]) -> Option<Form<'a, 't>>
    ensures { MatchOption result (tokens.now ≢ []) (λ r. (r ≡ form.entry) × (tokens.now ≡ [])) }
{
    if tokens.is_empty() { Some(form) } else { None }
}

// The number that is the only token.
fn only_number(tokens: &[Placed]) -> Option<u64>
    requires { AreWritten tokens.now }
    ensures { (form : ℕ → Line) → MatchOption result (one_number form (tokens_in tokens.now) ≡ None)
        (λ n. one_number form (tokens_in tokens.now) ≡ Some (form n)) }
{
    let (value, behind) = take_number(tokens)?;
    if behind.is_empty() { Some(value) } else { None }
}

// The number at the front, and the tokens behind it.
fn take_number<'a, 't>(tokens: &'t [Placed<'a>]) -> Option<(u64, &'t [Placed<'a>])>
    requires { AreWritten tokens.now }
    ensures { MatchOption result (HasNoNumber (tokens_in tokens.now)) (λ (value, behind). IsNumberIn (tokens_in tokens.now) value behind.now) }
{
    let (first, rest) = tokens.split_first()?;
    let Token::Number { value, .. } = first.token else {
        return None;
    };
    Some((value, rest))
}

// The tokens behind a word at the front.
fn take_word<'a, 't>(tokens: &'t [Placed<'a>], word: &[u8]) -> Option<&'t [Placed<'a>]>
    requires { AreWritten tokens.now }
    ensures { MatchOption result (HasNoWord word.now (tokens_in tokens.now)) (λ behind. IsWordIn word.now (tokens_in tokens.now) behind.now) }
{
    let (first, rest) = tokens.split_first()?;
    let Token::Name(name) = first.token else {
        return None;
    };
    if name == word { Some(rest) } else { None }
}

// The weight at the front, and the tokens behind it.
fn take_weight<'a, 't>(tokens: &'t [Placed<'a>]) -> Option<(u64, &'t [Placed<'a>])>
    requires { AreWritten tokens.now }
    ensures { (x : List ℕ) → MatchOption result (take_weight x (tokens_in tokens.now) ≡ unweighted x (tokens_in tokens.now))
        (λ (value, behind). IsWeightIn x (take_weight x (tokens_in tokens.now)) value behind.now) }
{
    let behind = take_word(tokens, b"weight".as_slice())?;
    take_number(behind)
}

// A declared letter at the front, and the tokens behind it.
fn take_declared<'a, 't>(tokens: &'t [Placed<'a>]) -> Option<(Declared<'a>, &'t [Placed<'a>])>
    requires { AreWritten tokens.now }
    ensures { MatchOption result (take_declared (tokens_in tokens.now) ≡ None)
        (λ (x, behind). IsDeclaredIn (take_declared (tokens_in tokens.now)) x behind.now) }
{
    let (first, rest) = tokens.split_first()?;
    let Token::Name(name) = first.token else {
        return None;
    };
    match take_weight(rest) {
        Some((weight, behind)) => Some((
            Declared {
                name,
                weight: Some(weight),
            },
            behind,
        )),
        None => Some((Declared { name, weight: None }, rest)),
    }
}

// The declared letter that the tokens are.
fn only_declared<'a>(tokens: &[Placed<'a>]) -> Option<Declared<'a>>
    requires { AreWritten tokens.now }
    ensures only { (form : DeclaredLetter → Line) → MatchOption result (declared_alone form (take_declared (tokens_in tokens.now)) ≡ None)
        (λ x. declared_alone form (take_declared (tokens_in tokens.now)) ≡ Some (form (declared_of x))) }
    ensures named { IfSome result IsNamed }
{
    let (declared, behind) = take_declared(tokens)?;
    if behind.is_empty() {
        Some(declared)
    } else {
        None
    }
}

// A letter, or a letter and its inverse.
fn letters<'a, 't>(tokens: &'t [Placed<'a>]) -> Option<Form<'a, 't>>
    requires { AreWritten tokens.now }
    ensures { ReadsForm (letters_form (take_declared (tokens_in tokens.now))) result }
{
    let (first, behind) = take_declared(tokens)?;
    if behind.is_empty() {
        return Some(Form::Letter(first));
    }
    let behind = take_word(behind, b"inverse".as_slice())?;
    Some(Form::Pair(first, only_declared(behind)?))
}

// The tokens before and behind the first sign of equality.
fn sides<'a, 't>(tokens: &'t [Placed<'a>]) -> Option<(&'t [Placed<'a>], &'t [Placed<'a>])>
    requires { AreWritten tokens.now }
    ensures { MatchOption result (sides (tokens_in tokens.now) ≡ None)
        (λ (left, right). AreSidesIn (sides (tokens_in tokens.now)) left.now right.now) }
{
    let at = equals_in(tokens)?;
    Some((&tokens[..at], &tokens[at + 1..]))
}

// Where the first sign of equality stands.
fn equals_in(tokens: &[Placed]) -> Option<usize>
    ensures { result ≡ position (λ placed. is_equals (token_of placed.token)) tokens.now }
{
    tokens.iter().position(|placed| is_equals(placed))
}

fn is_equals(placed: &Placed) -> bool
    ensures { result ≡ is_equals (token_of placed.now.token) }
{
    match placed.token {
        Token::Name(_) => false,
        Token::Number { .. } => false,
        Token::Symbol(byte) => byte == b'=',
    }
}

fn relation<'a, 't>(tokens: &'t [Placed<'a>]) -> Option<Form<'a, 't>>
    requires { AreWritten tokens.now }
    ensures { ReadsForm (equation lines.relation parsed (sides (tokens_in tokens.now))) result }
{
    let (left, right) = sides(tokens)?;
    if is_expression(left) && is_expression(right) {
        Some(Form::Relation(left, right))
    } else {
        None
    }
}

fn submodule_relation<'a, 't>(tokens: &'t [Placed<'a>]) -> Option<Form<'a, 't>>
    requires { AreWritten tokens.now }
    ensures { ReadsForm (equation lines.submodule module_parsed (sides (tokens_in tokens.now))) result }
{
    let (left, right) = sides(tokens)?;
    if is_module_expression(left) && is_module_expression(right) {
        Some(Form::Submodule(left, right))
    } else {
        None
    }
}
