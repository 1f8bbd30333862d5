//! The values of expressions of the algebra, worked out from left to right.

ghost use Rattle.std.specs.Prelude.{◌≡◌, ◌≢◌, [], ◌∷◌, ◌++◌, Bool, IsTrue, None, Some, is_some};
ghost use Rattle.ve_theory.specs.Presentations as theory;
ghost use Rattle.ve_formats.specs.Expressions.{Expression, difference};
ghost use Rattle.ve_formats.specs.Reading.{Reader, blank, expression_read, parsed, reading, wanted as factor_wanted};
ghost use Rattle.ve_lex.specs.Lexed.{token_of};
ghost use Rattle.ve_value.specs.Evaluation.{CanRead, IsWorkOf, ReadsOn};
ghost use Rattle.ve_value.specs.Given.{Gives};
ghost use Rattle.ve_value.specs.Shapes.{AreWritten, IsWritten, tokens_in};

use crate::ValueFault;
use crate::factor::{Factor, Pending, negative};
use crate::names::text_of;
use crate::sign::{Sign, sign_of};
use std::alloc::Global;
use ve_lex::{Placed, Token};
use ve_pres::{FreeAlg, Presentation};

/// What stands before a token, within the innermost parentheses.
#[derive(Drop)]
enum Reading {
    /// A factor is wanted.
    Wanted,
    /// A factor.
    Standing(Factor),
    /// A factor and the sign of a power.
    Raising(Factor),
    /// A factor, the sign of a power and a minus.
    Inverting(Factor),
}

/// The front of an expression, worked out as far as it stands.
#[derive(Drop)]
pub(crate) struct Work {
    // What stands before each open parenthesis, from the outermost to the innermost.
    outer: Vec<Pending>,
    inner: Pending,
    reading: Reading,
}

impl Work {
    /// Before an expression or a factor.
    pub(crate) fn start(alloc: Global) -> Work
        ensures { (P : theory.Presentation) (signed : Bool) → IsWorkOf P (reading [] blank (factor_wanted signed)) result }
    {
        wanted(Vec::new(alloc), Pending::nothing())
    }

    /// One token further.
    pub(crate) fn read(self, presentation: &Presentation, token: &Token) -> Result<Work, ValueFault>
        requires written { IsWritten token.now }
        requires goes_on { CanRead presentation.now.presentation self (token_of token.now) }
        ensures { ReadsOn presentation.now.presentation self (token_of token.now) result }
    {
        let Work {
            outer,
            inner,
            reading,
        } = self;
        match reading {
            Reading::Wanted => begin(presentation, outer, inner, token),
            Reading::Standing(factor) => go_on(presentation, outer, inner, factor, token),
            Reading::Raising(factor) => raise(presentation, outer, inner, factor, token),
            Reading::Inverting(factor) => invert(presentation, outer, inner, factor, token),
        }
    }

    /// Whether an expression stands here.
    pub(crate) fn is_whole(&self) -> bool
        ensures { (P : theory.Presentation) (r : Reader) → IsWorkOf P r self.now → result ≡ is_some (expression_read r) }
    {
        if !self.outer.is_empty() {
            return false;
        }
        match &self.reading {
            Reading::Standing(_) => true,
            Reading::Wanted => false,
            Reading::Raising(_) => false,
            Reading::Inverting(_) => false,
        }
    }

    /// The value of the expression that stands here.
    pub(crate) fn finish(self, presentation: &Presentation) -> Result<FreeAlg, ValueFault>
        requires { (r : Reader) × IsWorkOf presentation.now.presentation r self × IsTrue (is_some (expression_read r)) }
        ensures { (r : Reader) (e : Expression) → IsWorkOf presentation.now.presentation r self → expression_read r ≡ Some e
            → Gives presentation.now.presentation e result }
    {
        let Work { inner, reading, .. } = self;
        match reading {
            Reading::Standing(factor) => inner.total(presentation, factor.value),
            Reading::Wanted | Reading::Raising(_) | Reading::Inverting(_) => unreachable!(),
        }
    }
}

fn standing(outer: Vec<Pending>, inner: Pending, factor: Factor) -> Work
    ensures { result ≡ record { outer = outer; inner = inner; reading = Reading.Standing factor } }
{
    Work {
        outer,
        inner,
        reading: Reading::Standing(factor),
    }
}

fn wanted(outer: Vec<Pending>, inner: Pending) -> Work
    ensures { result ≡ record { outer = outer; inner = inner; reading = Reading.Wanted } }
{
    Work {
        outer,
        inner,
        reading: Reading::Wanted,
    }
}

// A token where a factor is wanted.
fn begin(
    presentation: &Presentation,
    mut outer: Vec<Pending>,
    inner: Pending,
    token: &Token,
) -> Result<Work, ValueFault>
    requires written { IsWritten token.now }
    requires goes_on { CanRead presentation.now.presentation (record { outer = outer; inner = inner; reading = Reading.Wanted }) (token_of token.now) }
    ensures { ReadsOn presentation.now.presentation (record { outer = outer; inner = inner; reading = Reading.Wanted }) (token_of token.now) result }
{
    let alloc = *outer.allocator();
    let byte = match token {
        Token::Name(name) => {
            let factor = Factor::named(alloc, presentation, text_of(name))?;
            return Ok(standing(outer, inner, factor));
        }
        Token::Number { value, .. } => {
            let factor = Factor::number(alloc, presentation, *value)?;
            return Ok(standing(outer, inner, factor));
        }
        Token::Symbol(byte) => *byte,
    };
    match sign_of(byte) {
        Sign::Open => {
            outer.push(inner)?;
            Ok(wanted(outer, Pending::nothing()))
        }
        Sign::Plus => Ok(wanted(outer, Pending::nothing())),
        Sign::Minus => Ok(wanted(outer, Pending::negative())),
        Sign::Times | Sign::Power | Sign::Close | Sign::Other => unreachable!(),
    }
}

// A token behind a factor.
fn go_on(
    presentation: &Presentation,
    outer: Vec<Pending>,
    inner: Pending,
    factor: Factor,
    token: &Token,
) -> Result<Work, ValueFault>
    requires { CanRead presentation.now.presentation (record { outer = outer; inner = inner; reading = Reading.Standing factor }) (token_of token.now) }
    ensures { ReadsOn presentation.now.presentation (record { outer = outer; inner = inner; reading = Reading.Standing factor }) (token_of token.now) result }
{
    let byte = match token {
        Token::Symbol(byte) => *byte,
        Token::Name(_) => unreachable!(),
        Token::Number { .. } => unreachable!(),
    };
    match sign_of(byte) {
        Sign::Power => Ok(Work {
            outer,
            inner,
            reading: Reading::Raising(factor),
        }),
        Sign::Times => {
            let inner = inner.times(presentation, factor.value)?;
            Ok(wanted(outer, inner))
        }
        Sign::Plus => {
            let sum = inner.total(presentation, factor.value)?;
            Ok(wanted(outer, Pending::sum(sum, false)))
        }
        Sign::Minus => {
            let sum = inner.total(presentation, factor.value)?;
            Ok(wanted(outer, Pending::sum(sum, true)))
        }
        Sign::Close => {
            let value = inner.total(presentation, factor.value)?;
            Ok(close(outer, value))
        }
        Sign::Open | Sign::Other => unreachable!(),
    }
}

// The value in parentheses, which stands in what was before them.
fn close(mut outer: Vec<Pending>, value: FreeAlg) -> Work
    requires { outer.items ≢ [] }
    ensures items { outer.items ≡ result.outer.items ++ result.inner ∷ [] }
    ensures reading { result.reading ≡ Reading.Standing (record { value = value; letter = None }) }
{
    let Some(inner) = outer.pop() else {
        unreachable!();
    };
    standing(outer, inner, Factor::of_value(value))
}

// A token behind the sign of a power.
fn raise(
    presentation: &Presentation,
    outer: Vec<Pending>,
    inner: Pending,
    factor: Factor,
    token: &Token,
) -> Result<Work, ValueFault>
    requires written { IsWritten token.now }
    requires goes_on { CanRead presentation.now.presentation (record { outer = outer; inner = inner; reading = Reading.Raising factor }) (token_of token.now) }
    ensures { ReadsOn presentation.now.presentation (record { outer = outer; inner = inner; reading = Reading.Raising factor }) (token_of token.now) result }
{
    match token {
        Token::Number { value, .. } => {
            let power = factor.power(presentation, *value)?;
            Ok(standing(outer, inner, power))
        }
        Token::Symbol(_) => Ok(Work {
            outer,
            inner,
            reading: Reading::Inverting(factor),
        }),
        Token::Name(_) => unreachable!(),
    }
}

// A token behind the sign of a power and a minus.
fn invert(
    presentation: &Presentation,
    outer: Vec<Pending>,
    inner: Pending,
    factor: Factor,
    token: &Token,
) -> Result<Work, ValueFault>
    requires written { IsWritten token.now }
    requires goes_on { CanRead presentation.now.presentation (record { outer = outer; inner = inner; reading = Reading.Inverting factor }) (token_of token.now) }
    ensures { ReadsOn presentation.now.presentation (record { outer = outer; inner = inner; reading = Reading.Inverting factor }) (token_of token.now) result }
{
    let alloc = *outer.allocator();
    match token {
        Token::Number { value, .. } => {
            let power = factor.inverse_power(alloc, presentation, *value)?;
            Ok(standing(outer, inner, power))
        }
        Token::Name(_) => unreachable!(),
        Token::Symbol(_) => unreachable!(),
    }
}

/// The value of tokens that are an expression.
pub(crate) fn value_of(
    alloc: Global,
    presentation: &Presentation,
    tokens: &[Placed],
) -> Result<FreeAlg, ValueFault>
    requires written { AreWritten tokens.now }
    requires formed { IsTrue (is_some (parsed (tokens_in tokens.now))) }
    ensures { (e : Expression) → parsed (tokens_in tokens.now) ≡ Some e → Gives presentation.now.presentation e result }
{
    let mut work = Work::start(alloc);
    for placed in tokens {
        work = work.read(presentation, &placed.token)?;
    }
    work.finish(presentation)
}

/// The value of the left side of a relation less that of the right side, or the first fault of the two.
pub fn difference_of(
    alloc: Global,
    presentation: &Presentation,
    left: &[Placed],
    right: &[Placed],
) -> Result<FreeAlg, ValueFault>
    requires left_written { AreWritten left.now }
    requires right_written { AreWritten right.now }
    requires left_formed { IsTrue (is_some (parsed (tokens_in left.now))) }
    requires right_formed { IsTrue (is_some (parsed (tokens_in right.now))) }
    ensures { (d e : Expression) → parsed (tokens_in left.now) ≡ Some d → parsed (tokens_in right.now) ≡ Some e
        → Gives presentation.now.presentation (difference d e) result }
{
    let left = value_of(alloc, presentation, left)?;
    let right = value_of(alloc, presentation, right)?;
    let field = presentation.field();
    let opposite = negative(presentation, right);
    Ok(left.plus(field, opposite)?)
}
