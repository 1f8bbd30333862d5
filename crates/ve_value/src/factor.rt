//! Values of the algebra that are joined to sums and products.

ghost use Rattle.std.specs.Prelude.{◌≡◌, true, false, Err, IfSome, MatchOption, MatchResult, None, Ok, Some};
ghost use Rattle.ve_theory.specs.Combinations.{IsReduced};
ghost use Rattle.ve_theory.specs.Words.{ShortlexLetters};
ghost use Rattle.ve_formats.specs.Expressions.{Expression, constant, letter, power, inverse_power, product};
ghost use Rattle.ve_formats.specs.Reading.{Frame, closed};
ghost use Rattle.ve_formats.specs.Values as values;
ghost use Rattle.ve_formats.specs.Values.{HasValue, IsNegative};
ghost use Rattle.ve_value.specs.Faults.{Tells};
ghost use Rattle.ve_value.specs.Given.{Gives};

use crate::ValueFault;
use std::alloc::Global;
use ve_pres::{FreeAlg, Presentation};
use ve_theory::elements::reduced_lists_are_unique;

/// The greatest exponent.
const MOST_EXPONENT: u64 = 1000;

/// The value of a factor, and the letter where the factor is a letter's name and nothing else.
#[derive(Drop)]
pub(crate) struct Factor {
    pub(crate) value: FreeAlg,
    pub(crate) letter: Option<u8>,
}

/// A sum and a product that are not finished: what the next factor belongs to.
#[derive(Drop)]
pub(crate) struct Pending {
    sum: Option<FreeAlg>,
    is_negative: bool,
    product: Option<FreeAlg>,
}

impl Factor {
    ghost use Rattle.ve_value.specs.Evaluation.{GivesFactor, IsFactorOf};

    /// The residue of a number.
    pub(crate) fn number(
        alloc: Global,
        presentation: &Presentation,
        number: u64,
    ) -> Result<Factor, ValueFault>
        ensures { MatchResult result (IsFactorOf presentation.now.presentation (constant number)) (λ why. why ≡ ValueFault.Memory) }
    {
        let field = presentation.field();
        let residue = field.reduce(u128::from(number));
        Ok(Factor::of_value(FreeAlg::constant(alloc, field, residue)?))
    }

    /// The letter of a name.
    pub(crate) fn named(
        alloc: Global,
        presentation: &Presentation,
        name: &str,
    ) -> Result<Factor, ValueFault>
        ensures { GivesFactor presentation.now.presentation (letter name.now) result }
    {
        presentation.field().has_prime();
        let Some(letter) = presentation.names().find(name) else {
            return Err(ValueFault::UnknownName);
        };
        let value = FreeAlg::letter(alloc, letter)?;
        Ok(Factor {
            value,
            letter: Some(letter),
        })
    }

    /// A value that is no letter's name.
    pub(crate) fn of_value(value: FreeAlg) -> Factor
        ensures { result ≡ record { value = value; letter = None } }
    {
        Factor {
            value,
            letter: None,
        }
    }

    /// A power of the factor.
    pub(crate) fn power(
        self,
        presentation: &Presentation,
        exponent: u64,
    ) -> Result<Factor, ValueFault>
        requires { (e : Expression) × IsFactorOf presentation.now.presentation e self }
        ensures { (e : Expression) → IsFactorOf presentation.now.presentation e self
            → GivesFactor presentation.now.presentation (power e exponent) result }
    {
        if exponent > MOST_EXPONENT {
            return Err(ValueFault::ExponentTooLarge);
        }
        // The power 0 is known by its terms alone.
        reduced_lists_are_unique();
        let field = presentation.field();
        field.has_prime();
        let value = self.value.pow(field, exponent as u32)?;
        Ok(Factor::of_value(value))
    }

    /// A power of the inverse of the letter.
    pub(crate) fn inverse_power(
        self,
        alloc: Global,
        presentation: &Presentation,
        exponent: u64,
    ) -> Result<Factor, ValueFault>
        requires { (e : Expression) × IsFactorOf presentation.now.presentation e self }
        ensures { (e : Expression) → IsFactorOf presentation.now.presentation e self
            → GivesFactor presentation.now.presentation (inverse_power e exponent) result }
    {
        if exponent > MOST_EXPONENT {
            return Err(ValueFault::ExponentTooLarge);
        }
        let Some(letter) = self.letter else {
            return Err(ValueFault::NoInverse);
        };
        let Some(inverse) = presentation.inverse_of(letter) else {
            return Err(ValueFault::NoInverse);
        };
        // The power 0 is known by its terms alone.
        reduced_lists_are_unique();
        let field = presentation.field();
        field.has_prime();
        let base = FreeAlg::letter(alloc, inverse)?;
        let value = base.pow(field, exponent as u32)?;
        Ok(Factor::of_value(value))
    }
}

impl Pending {
    ghost use Rattle.ve_value.specs.Evaluation.{IsPendingOf, IsWorth};

    /// Neither a sum nor a product.
    pub(crate) fn nothing() -> Pending
        ensures { result ≡ record { sum = None; is_negative = false; product = None } }
    {
        Pending {
            sum: None,
            is_negative: false,
            product: None,
        }
    }

    /// The negative of what comes.
    pub(crate) fn negative() -> Pending
        ensures { result ≡ record { sum = None; is_negative = true; product = None } }
    {
        Pending {
            sum: None,
            is_negative: true,
            product: None,
        }
    }

    /// A sum to which a term is added or from which it is subtracted.
    pub(crate) fn sum(sum: FreeAlg, is_negative: bool) -> Pending
        ensures { result ≡ record { sum = Some sum; is_negative = is_negative; product = None } }
    {
        Pending {
            sum: Some(sum),
            is_negative,
            product: None,
        }
    }

    /// The same with one more factor.
    pub(crate) fn times(
        self,
        presentation: &Presentation,
        factor: FreeAlg,
    ) -> Result<Pending, ValueFault>
        requires { (frame : Frame) × (e : Expression) × IsPendingOf presentation.now.presentation frame self
            × IsWorth presentation.now.presentation e factor }
        ensures { (frame : Frame) (e : Expression) → IsPendingOf presentation.now.presentation frame self
            → IsWorth presentation.now.presentation e factor
            → MatchResult result (IsPendingOf presentation.now.presentation (record { joins = frame.joins; times = λ f. product (frame.times e) f }))
            (Tells (λ cause. HasValue presentation.now.presentation (frame.times e) (Err cause))) }
    {
        let product = times(presentation, self.product, factor)?;
        Ok(Pending {
            sum: self.sum,
            is_negative: self.is_negative,
            product: Some(product),
        })
    }

    /// The sum, with its last factor.
    pub(crate) fn total(
        self,
        presentation: &Presentation,
        factor: FreeAlg,
    ) -> Result<FreeAlg, ValueFault>
        requires { (frame : Frame) × (e : Expression) × IsPendingOf presentation.now.presentation frame self
            × IsWorth presentation.now.presentation e factor }
        ensures { (frame : Frame) (e : Expression) → IsPendingOf presentation.now.presentation frame self
            → IsWorth presentation.now.presentation e factor
            → Gives presentation.now.presentation (closed frame e) result }
    {
        let term = times(presentation, self.product, factor)?;
        if self.is_negative {
            joined(presentation, self.sum, negative(presentation, term))
        } else {
            joined(presentation, self.sum, term)
        }
    }
}

/// The negative of a value.
pub(crate) fn negative(presentation: &Presentation, value: FreeAlg) -> FreeAlg
    requires { IsReduced ShortlexLetters presentation.now.presentation.prime value }
    ensures { IsNegative presentation.now.presentation.prime value result }
{
    value.negated(presentation.field())
}

// The product where there is one, times a factor.
fn times(
    presentation: &Presentation,
    product: Option<FreeAlg>,
    factor: FreeAlg,
) -> Result<FreeAlg, ValueFault>
    requires product { IfSome product (IsReduced ShortlexLetters presentation.now.presentation.prime) }
    requires factor { IsReduced ShortlexLetters presentation.now.presentation.prime factor }
    ensures { MatchOption product
        (result ≡ Ok factor)
        (λ v. MatchResult result
        (λ w. values.Multiplies presentation.now.presentation.prime v factor (Ok w))
        (Tells (λ cause. values.Multiplies presentation.now.presentation.prime v factor (Err cause)))) }
{
    match product {
        Some(product) => Ok(product.mul(presentation.field(), &factor)?),
        None => Ok(factor),
    }
}

// The sum where there is one, and a term.
fn joined(
    presentation: &Presentation,
    sum: Option<FreeAlg>,
    term: FreeAlg,
) -> Result<FreeAlg, ValueFault>
    requires sum { IfSome sum (IsReduced ShortlexLetters presentation.now.presentation.prime) }
    requires term { IsReduced ShortlexLetters presentation.now.presentation.prime term }
    ensures { MatchOption sum
        (result ≡ Ok term)
        (λ v. MatchResult result
        (λ w. values.AddsUp presentation.now.presentation.prime v term (Ok w))
        (Tells (λ cause. values.AddsUp presentation.now.presentation.prime v term (Err cause)))) }
{
    match sum {
        Some(sum) => Ok(sum.plus(presentation.field(), term)?),
        None => Ok(term),
    }
}
