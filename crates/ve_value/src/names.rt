//! The names of letters and of generators.

ghost use Rattle.std.specs.Prelude.{◌≡◌, ◌≢◌, ℕ, ◌<◌, ◌≤◌, IsFalse, IsTrue, MatchOption, decimal, length};
ghost use Rattle.std.specs.List.{list_all};
ghost use Rattle.ve_theory.specs.Validity.{is_digit, is_name, most_generators};
ghost use Rattle.ve_formats.specs.ModuleValues.{IsGenerator};
ghost use Rattle.ve_formats.specs.Tokens.{number_value};

use ve_formats::decimals_are_numbers;
use ve_pres::Presentation;

/// The number, counted from 0, of the generator with a name: `e` and its number counted from 1, without leading zeros.
pub(crate) fn generator_of(presentation: &Presentation, name: &[u8]) -> Option<u8>
    requires { presentation.now.presentation.generators ≤ most_generators }
    ensures { MatchOption result ((i : ℕ) → ¬ IsGenerator presentation.now.presentation name.now i) (IsGenerator presentation.now.presentation name.now) }
{
    let Some((first, digits)) = name.split_first() else {
        return None;
    };
    if *first != b'e' {
        return None;
    }
    let number = number_of(digits)?;
    if number > presentation.roots() {
        return None;
    }
    Some((number - 1) as u8)
}

// The number, from 1 to 999, that digits stand for which begin with none that is 0.
fn number_of(digits: &[u8]) -> Option<u16>
    ensures { MatchOption result ((n : ℕ) → 0 < n → n < 1000 → digits.now ≢ decimal n) (λ n. (0 < n) × (n < 1000) × (digits.now ≡ decimal n)) }
{
    decimals_are_numbers();
    let Some(first) = digits.first() else {
        return None;
    };
    if *first == b'0' || digits.len() > 3 {
        return None;
    }
    digits_value(digits)
}

// The number that at most three digits stand for.
fn digits_value(digits: &[u8]) -> Option<u16>
    requires { length digits.now ≤ 3 }
    ensures { MatchOption result (IsFalse (list_all is_digit digits.now)) (λ n. IsTrue (list_all is_digit digits.now) × (n ≡ number_value digits.now)) }
{
    let mut number = 0;
    for digit in digits {
        if !matches!(*digit, b'0'..=b'9') {
            return None;
        }
        number = 10 * number + u16::from(*digit - b'0');
    }
    Some(number)
}

/// The text of a name.
pub fn text_of(name: &[u8]) -> &str
    requires { IsTrue (is_name name.now) }
    ensures { result.now ≡ name.now }
{
    str::from_utf8(name).unwrap()
}
