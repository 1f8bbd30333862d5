//! What bytes begin, and how far runs of them go.

ghost use Rattle.std.specs.Prelude.{◌≡◌, ◌≤◌, IsTrue, length};
ghost use Rattle.std.specs.List.{prefix_len, list_all};
ghost use Rattle.ve_theory.specs.Validity.{is_name_letter, is_digit};
ghost use Rattle.ve_formats.specs.Tokens.{is_name_part, is_separator, is_symbol, number_value, most_digits};
ghost use Rattle.ve_lex.specs.Runs.{IsRun};

pub fn is_name_letter(b: u8) -> bool
    ensures { result ≡ is_name_letter b }
{
    matches!(b, b'A'..=b'Z' | b'a'..=b'z' | b'_')
}

pub fn is_digit(b: u8) -> bool
    ensures { result ≡ is_digit b }
{
    matches!(b, b'0'..=b'9')
}

pub fn is_name_part(b: u8) -> bool
    ensures { result ≡ is_name_part b }
{
    is_name_letter(b) || is_digit(b)
}

pub fn is_separator(b: u8) -> bool
    ensures { result ≡ is_separator b }
{
    matches!(b, b' ' | b'\t' | b'\r')
}

pub fn is_symbol(b: u8) -> bool
    ensures { result ≡ is_symbol b }
{
    matches!(b, b'+' | b'-' | b'*' | b'^' | b'(' | b')' | b'=')
}

/// The separators at the front of a text, and what is behind them.
pub fn split_separators(text: &[u8]) -> (&[u8], &[u8])
    ensures { IsRun is_separator text.now result.0.now result.1.now }
{
    text.split_at(separator_count(text))
}

/// The letters and digits at the front of a text, and what is behind them.
pub fn split_name(text: &[u8]) -> (&[u8], &[u8])
    ensures { IsRun is_name_part text.now result.0.now result.1.now }
{
    text.split_at(name_count(text))
}

/// The digits at the front of a text, and what is behind them.
pub fn split_digits(text: &[u8]) -> (&[u8], &[u8])
    ensures { IsRun is_digit text.now result.0.now result.1.now }
{
    text.split_at(digit_count(text))
}

fn separator_count(text: &[u8]) -> usize
    ensures { result ≡ prefix_len is_separator text.now }
{
    text.iter().take_while(|b| is_separator(**b)).count()
}

fn name_count(text: &[u8]) -> usize
    ensures { result ≡ prefix_len is_name_part text.now }
{
    text.iter().take_while(|b| is_name_part(**b)).count()
}

fn digit_count(text: &[u8]) -> usize
    ensures { result ≡ prefix_len is_digit text.now }
{
    text.iter().take_while(|b| is_digit(**b)).count()
}

/// The number that digits stand for.
pub fn number_value(digits: &[u8]) -> u64
    requires digits { IsTrue (list_all is_digit digits.now) }
    requires short { length digits.now ≤ most_digits }
    ensures { result ≡ number_value digits.now }
{
    let mut value = 0;
    for digit in digits {
        value = 10 * value + u64::from(*digit - b'0');
    }
    value
}
