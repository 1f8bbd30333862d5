//! Laws of tokens. Each is the contract of a function that does nothing.

ghost use Rattle.std.specs.Prelude.{◌≡◌, ◌⊎◌, ℕ, ◌<◌, ◌≤◌, ◌^◌, List, length, slice_index, decimal, IsTrue};
ghost use Rattle.ve_formats.specs.Tokens.{Placed, Fault, Lexes, FailsToLex, AreInOrder, is_number, number_value, most_digits};

/// Each line has exactly one list of tokens or exactly one first fault, and never both.
pub fn line_lexes_once()
    ensures lexed { (at : ℕ) (line : List ℕ) → ((tokens : List Placed) × Lexes at line tokens) ⊎ ((fault : Fault) × FailsToLex at line fault) }
    ensures same_tokens { (at : ℕ) (line : List ℕ) (tokens others : List Placed) → Lexes at line tokens → Lexes at line others → tokens ≡ others }
    ensures same_fault { (at : ℕ) (line : List ℕ) (fault other : Fault) → FailsToLex at line fault → FailsToLex at line other → fault ≡ other }
    ensures never_both { (at : ℕ) (line : List ℕ) (tokens : List Placed) (fault : Fault) → Lexes at line tokens → FailsToLex at line fault → ⊥ }
{}

/// The tokens of a line stand in order, each where its bytes are.
pub fn tokens_are_in_order()
    ensures { (line : List ℕ) (tokens : List Placed) → Lexes 0 line tokens → AreInOrder line 0 tokens }
{}

/// A number's decimal digits are a number of that value, and so are no other digits without a leading zero.
pub fn decimals_are_numbers()
    ensures digits { (n : ℕ) → n < 2 ^ 64 → IsTrue (is_number (decimal n)) }
    ensures value { (n : ℕ) → n < 2 ^ 64 → number_value (decimal n) ≡ n }
    ensures only { (digits : List ℕ) → IsTrue (is_number digits) → (slice_index digits 0 ≡ 48 → length digits ≡ 1) → number_value digits < 2 ^ 64 → decimal (number_value digits) ≡ digits }
    ensures length { (n : ℕ) → n < 10 ^ 18 → length (decimal n) ≤ most_digits }
{}
