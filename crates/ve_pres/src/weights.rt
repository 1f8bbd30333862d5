//! The weights of words.

ghost use Rattle.std.specs.Prelude.{◌≡◌, ◌*◌, ◌<◌, ◌≤◌, All, length};
ghost use Rattle.ve_theory.specs.Words.{letters_weight as weight_of_letters};
ghost use Rattle.ve_theory.specs.Validity.{most_length};
ghost use Rattle.ve_theory.specs.Presentations.{most_weight};

/// The sum of the weights of letters.
pub(crate) fn letters_weight(weights: &[u8], letters: &[u8]) -> u32
    requires letters { All (λ x. x < length weights.now) letters.now }
    requires weights { All (λ w. w ≤ most_weight) weights.now }
    requires count { length letters.now ≤ most_length }
    ensures weight { result ≡ weight_of_letters weights.now letters.now }
    ensures within { result ≤ most_weight * most_length }
{
    let mut weight = 0;
    for letter in letters {
        weight += u32::from(weights[usize::from(*letter)]);
    }
    weight
}
