//! The values of expressions of the module, worked out from left to right.

ghost use Rattle.std.specs.Prelude.{◌≡◌, ℕ, Err, IfSome, IsTrue, MatchOption, MatchResult, None, Ok, Option, Some, is_some};
ghost use Rattle.ve_theory.specs.Combinations.{IsReduced};
ghost use Rattle.ve_theory.specs.Presentations as theory;
ghost use Rattle.ve_theory.specs.Words.{Shortlex};
ghost use Rattle.ve_formats.specs.Expressions.{Expression};
ghost use Rattle.ve_formats.specs.ModuleExpressions.{ModuleExpression, difference, generator as generated, product};
ghost use Rattle.ve_formats.specs.ModuleReading.{ModuleReader, module_expression_read, module_parsed, module_start};
ghost use Rattle.ve_formats.specs.ModuleValues.{IsModuleNegative, ModuleAddsUp, multiple};
ghost use Rattle.ve_formats.specs.Reading.{Reader, expression_read};
ghost use Rattle.ve_lex.specs.Lexed.{token_of};
ghost use Rattle.ve_value.specs.Evaluation.{IsWorkOf};
ghost use Rattle.ve_value.specs.Faults.{Tells};
ghost use Rattle.ve_value.specs.Given.{GivesModule, IsModuleWorth};
ghost use Rattle.ve_value.specs.ModuleEvaluation.{CanReadModule, IsModulePendingOf, IsModuleWorkOf, ReadsModuleOn};
ghost use Rattle.ve_value.specs.Shapes.{AreWritten, IsWritten, tokens_in};

use crate::ValueFault;
use crate::module_shape::is_joining;
use crate::names::generator_of;
use crate::sign::{Sign, sign_of};
use crate::value::Work;
use std::alloc::Global;
use ve_lex::{Placed, Token};
use ve_pres::{FreeMod, Presentation};

/// A sum that is not finished: what the next term belongs to.
#[derive(Drop)]
struct ModulePending {
    sum: Option<FreeMod>,
    is_negative: bool,
}

/// What stands of the last term.
#[derive(Drop)]
enum Term {
    /// Nothing.
    Wanted,
    /// A number, which is a term by itself where it is 0.
    Number(u64),
    /// A number and the sign of a product.
    Scaling(u64),
    /// A generator with its factors.
    Standing(FreeMod),
    /// The same, and the front of one more factor.
    Multiplying(FreeMod, Work),
}

/// The front of an expression of the module, worked out as far as it stands.
#[derive(Drop)]
struct ModuleWork {
    pending: ModulePending,
    term: Term,
}

impl ModulePending {
    // The sum, with its last term.
    fn total(self, presentation: &Presentation, term: FreeMod) -> Result<FreeMod, ValueFault>
        requires { (joins : ModuleExpression → ModuleExpression) × (m : ModuleExpression) × IsModulePendingOf presentation.now.presentation joins self
            × IsModuleWorth presentation.now.presentation m term }
        ensures { (joins : ModuleExpression → ModuleExpression) (m : ModuleExpression) → IsModulePendingOf presentation.now.presentation joins self
            → IsModuleWorth presentation.now.presentation m term → GivesModule presentation.now.presentation (joins m) result }
    {
        if self.is_negative {
            joined(presentation, self.sum, negative(presentation, term))
        } else {
            joined(presentation, self.sum, term)
        }
    }
}

impl ModuleWork {
    // Before an expression.
    fn start() -> ModuleWork
        ensures { (P : theory.Presentation) → IsModuleWorkOf P module_start result }
    {
        wanted(None, false)
    }

    // One token further.
    fn read(
        self,
        alloc: Global,
        presentation: &Presentation,
        token: &Token,
    ) -> Result<ModuleWork, ValueFault>
        requires written { IsWritten token.now }
        requires goes_on { CanReadModule presentation.now.presentation self (token_of token.now) }
        ensures { ReadsModuleOn presentation.now.presentation self (token_of token.now) result }
    {
        let ModuleWork { pending, term } = self;
        match term {
            Term::Wanted => begin(alloc, presentation, pending, token),
            Term::Number(number) => behind_number(alloc, presentation, pending, number, token),
            Term::Scaling(number) => scale(alloc, presentation, pending, number, token),
            Term::Standing(value) => behind_term(alloc, presentation, pending, value, token),
            Term::Multiplying(value, work) => {
                behind_factor(alloc, presentation, pending, value, work, token)
            }
        }
    }

    // The value of the expression that stands here.
    fn finish(self, alloc: Global, presentation: &Presentation) -> Result<FreeMod, ValueFault>
        requires { (r : ModuleReader) × IsModuleWorkOf presentation.now.presentation r self × IsTrue (is_some (module_expression_read r)) }
        ensures { (r : ModuleReader) (m : ModuleExpression) → IsModuleWorkOf presentation.now.presentation r self → module_expression_read r ≡ Some m
            → GivesModule presentation.now.presentation m result }
    {
        let ModuleWork { pending, term } = self;
        match term {
            Term::Number(_) => pending.total(presentation, FreeMod::zero(alloc)),
            Term::Standing(value) => pending.total(presentation, value),
            Term::Multiplying(value, work) => {
                let value = multiplied(presentation, value, work)?;
                pending.total(presentation, value)
            }
            Term::Wanted => unreachable!(),
            Term::Scaling(_) => unreachable!(),
        }
    }
}

fn wanted(sum: Option<FreeMod>, is_negative: bool) -> ModuleWork
    ensures { result ≡ record { pending = record { sum = sum; is_negative = is_negative }; term = Term.Wanted } }
{
    ModuleWork {
        pending: ModulePending { sum, is_negative },
        term: Term::Wanted,
    }
}

// A token where a term is wanted.
fn begin(
    alloc: Global,
    presentation: &Presentation,
    pending: ModulePending,
    token: &Token,
) -> Result<ModuleWork, ValueFault>
    requires written { IsWritten token.now }
    requires goes_on { CanReadModule presentation.now.presentation (record { pending = pending; term = Term.Wanted }) (token_of token.now) }
    ensures { ReadsModuleOn presentation.now.presentation (record { pending = pending; term = Term.Wanted }) (token_of token.now) result }
{
    let byte = match token {
        Token::Name(name) => {
            let value = generator(alloc, presentation, 1, name)?;
            return Ok(ModuleWork {
                pending,
                term: Term::Standing(value),
            });
        }
        Token::Number { value, .. } => {
            return Ok(ModuleWork {
                pending,
                term: Term::Number(*value),
            });
        }
        Token::Symbol(byte) => *byte,
    };
    match sign_of(byte) {
        Sign::Plus => Ok(wanted(None, false)),
        Sign::Minus => Ok(wanted(None, true)),
        Sign::Times | Sign::Power | Sign::Open | Sign::Close | Sign::Other => unreachable!(),
    }
}

// A token behind a number.
fn behind_number(
    alloc: Global,
    presentation: &Presentation,
    pending: ModulePending,
    number: u64,
    token: &Token,
) -> Result<ModuleWork, ValueFault>
    requires { CanReadModule presentation.now.presentation (record { pending = pending; term = Term.Number number }) (token_of token.now) }
    ensures { ReadsModuleOn presentation.now.presentation (record { pending = pending; term = Term.Number number }) (token_of token.now) result }
{
    let byte = match token {
        Token::Symbol(byte) => *byte,
        Token::Name(_) => unreachable!(),
        Token::Number { .. } => unreachable!(),
    };
    match sign_of(byte) {
        Sign::Times => Ok(ModuleWork {
            pending,
            term: Term::Scaling(number),
        }),
        // The number is 0.
        Sign::Plus | Sign::Minus => behind_term(
            alloc,
            presentation,
            pending,
            FreeMod::zero(alloc),
            token,
        ),
        Sign::Power | Sign::Open | Sign::Close | Sign::Other => unreachable!(),
    }
}

// A token behind a number and the sign of a product.
fn scale(
    alloc: Global,
    presentation: &Presentation,
    pending: ModulePending,
    number: u64,
    token: &Token,
) -> Result<ModuleWork, ValueFault>
    requires { CanReadModule presentation.now.presentation (record { pending = pending; term = Term.Scaling number }) (token_of token.now) }
    ensures { ReadsModuleOn presentation.now.presentation (record { pending = pending; term = Term.Scaling number }) (token_of token.now) result }
{
    match token {
        Token::Name(name) => {
            let value = generator(alloc, presentation, number, name)?;
            Ok(ModuleWork {
                pending,
                term: Term::Standing(value),
            })
        }
        Token::Number { .. } => unreachable!(),
        Token::Symbol(_) => unreachable!(),
    }
}

// A token behind a generator and its factors.
fn behind_term(
    alloc: Global,
    presentation: &Presentation,
    pending: ModulePending,
    value: FreeMod,
    token: &Token,
) -> Result<ModuleWork, ValueFault>
    requires { CanReadModule presentation.now.presentation (record { pending = pending; term = Term.Standing value }) (token_of token.now) }
    ensures { ReadsModuleOn presentation.now.presentation (record { pending = pending; term = Term.Standing value }) (token_of token.now) result }
{
    let byte = match token {
        Token::Symbol(byte) => *byte,
        Token::Name(_) => unreachable!(),
        Token::Number { .. } => unreachable!(),
    };
    match sign_of(byte) {
        Sign::Times => Ok(ModuleWork {
            pending,
            term: Term::Multiplying(value, Work::start(alloc)),
        }),
        Sign::Plus => {
            let sum = pending.total(presentation, value)?;
            Ok(wanted(Some(sum), false))
        }
        Sign::Minus => {
            let sum = pending.total(presentation, value)?;
            Ok(wanted(Some(sum), true))
        }
        Sign::Power | Sign::Open | Sign::Close | Sign::Other => unreachable!(),
    }
}

// A token within a factor, or behind it.
fn behind_factor(
    alloc: Global,
    presentation: &Presentation,
    pending: ModulePending,
    value: FreeMod,
    work: Work,
    token: &Token,
) -> Result<ModuleWork, ValueFault>
    requires written { IsWritten token.now }
    requires goes_on { CanReadModule presentation.now.presentation (record { pending = pending; term = Term.Multiplying value work }) (token_of token.now) }
    ensures { ReadsModuleOn presentation.now.presentation (record { pending = pending; term = Term.Multiplying value work }) (token_of token.now) result }
{
    if work.is_whole() && is_joining(token) {
        let value = multiplied(presentation, value, work)?;
        return behind_term(alloc, presentation, pending, value, token);
    }
    let work = work.read(presentation, token)?;
    Ok(ModuleWork {
        pending,
        term: Term::Multiplying(value, work),
    })
}

// A term times the factor that stands behind it.
fn multiplied(
    presentation: &Presentation,
    value: FreeMod,
    work: Work,
) -> Result<FreeMod, ValueFault>
    requires { (m : ModuleExpression) × (r : Reader) × IsModuleWorth presentation.now.presentation m value × IsWorkOf presentation.now.presentation r work
        × IsTrue (is_some (expression_read r)) }
    ensures { (m : ModuleExpression) (r : Reader) (e : Expression) → IsModuleWorth presentation.now.presentation m value
        → IsWorkOf presentation.now.presentation r work → expression_read r ≡ Some e → GivesModule presentation.now.presentation (product m e) result }
{
    let factor = work.finish(presentation)?;
    Ok(value.times(presentation.field(), &factor)?)
}

// A number times the generator of a name.
fn generator(
    alloc: Global,
    presentation: &Presentation,
    number: u64,
    name: &[u8],
) -> Result<FreeMod, ValueFault>
    ensures { (n : Option ℕ) → multiple n ≡ number → GivesModule presentation.now.presentation (generated n name.now) result }
{
    let field = presentation.field();
    field.has_prime();
    let Some(generator) = generator_of(presentation, name) else {
        return Err(ValueFault::UnknownName);
    };
    let residue = field.reduce(u128::from(number));
    let value = FreeMod::root(alloc, generator)?;
    Ok(value.scale(field, residue)?)
}

// The sum where there is one, and a term.
fn joined(
    presentation: &Presentation,
    sum: Option<FreeMod>,
    term: FreeMod,
) -> Result<FreeMod, ValueFault>
    requires sum { IfSome sum (IsReduced Shortlex presentation.now.presentation.prime) }
    requires term { IsReduced Shortlex presentation.now.presentation.prime term }
    ensures { MatchOption sum
        (result ≡ Ok term)
        (λ v. MatchResult result
        (λ w. ModuleAddsUp presentation.now.presentation.prime v term (Ok w))
        (Tells (λ cause. ModuleAddsUp presentation.now.presentation.prime v term (Err cause)))) }
{
    match sum {
        Some(sum) => Ok(sum.plus(presentation.field(), term)?),
        None => Ok(term),
    }
}

// The negative of a value.
fn negative(presentation: &Presentation, value: FreeMod) -> FreeMod
    requires { IsReduced Shortlex presentation.now.presentation.prime value }
    ensures { IsModuleNegative presentation.now.presentation.prime value result }
{
    value.negated(presentation.field())
}

/// The value of tokens that are an expression of the module.
pub(crate) fn module_value_of(
    alloc: Global,
    presentation: &Presentation,
    tokens: &[Placed],
) -> Result<FreeMod, ValueFault>
    requires written { AreWritten tokens.now }
    requires formed { IsTrue (is_some (module_parsed (tokens_in tokens.now))) }
    ensures { (m : ModuleExpression) → module_parsed (tokens_in tokens.now) ≡ Some m → GivesModule presentation.now.presentation m result }
{
    let mut work = ModuleWork::start();
    for placed in tokens {
        work = work.read(alloc, presentation, &placed.token)?;
    }
    work.finish(alloc, presentation)
}

/// The value of the left side of a submodule relation less that of the right side, or the first fault of the two.
pub fn module_difference_of(
    alloc: Global,
    presentation: &Presentation,
    left: &[Placed],
    right: &[Placed],
) -> Result<FreeMod, ValueFault>
    requires left_written { AreWritten left.now }
    requires right_written { AreWritten right.now }
    requires left_formed { IsTrue (is_some (module_parsed (tokens_in left.now))) }
    requires right_formed { IsTrue (is_some (module_parsed (tokens_in right.now))) }
    ensures { (d e : ModuleExpression) → module_parsed (tokens_in left.now) ≡ Some d → module_parsed (tokens_in right.now) ≡ Some e
        → GivesModule presentation.now.presentation (difference d e) result }
{
    let left = module_value_of(alloc, presentation, left)?;
    let right = module_value_of(alloc, presentation, right)?;
    let field = presentation.field();
    let opposite = negative(presentation, right);
    Ok(left.plus(field, opposite)?)
}
