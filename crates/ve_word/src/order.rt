ghost use Rattle.std.specs.Prelude.{◌≡◌, ◌<◌, ◌↔◌, All, length, vec_len};
ghost use Rattle.ve_theory.specs.Words.{IsSmaller, Shortlex, Weighted, letters, word_weight};

use crate::Word;
use std::cmp::Ordering;

/// Compares two words: the shorter one first, then the smaller generator, then the smaller letter where they first differ.
#[tactic(auto, unfolding(ve_theory::specs::Words::Shortlex))]
pub fn shortlex(a: &Word, b: &Word) -> Ordering
    ensures less { (result ≡ Ordering.Less) ↔ Shortlex a.now b.now }
    ensures equal { (result ≡ Ordering.Equal) ↔ (a.now ≡ b.now) }
    ensures greater { (result ≡ Ordering.Greater) ↔ Shortlex b.now a.now }
{
    match a.len().cmp(&b.len()) {
        Ordering::Equal => by_spelling(a, b),
        unequal => unequal,
    }
}

/// Compares two words, where `weights` has the weight of each letter: the lighter word first, then the smaller generator, then
/// the smaller letter where they first differ. Where every weight is positive only equal words compare equal; a longer word may
/// tie with its beginning where the letters between weigh nothing.
#[tactic(auto, unfolding(ve_theory::specs::Words::Weighted))]
pub fn weighted(a: &Word, b: &Word, weights: &Vec<u8>) -> Ordering
    requires first { All (λ letter. letter < vec_len weights.now) (letters a.now) }
    requires second { All (λ letter. letter < vec_len weights.now) (letters b.now) }
    ensures less { (result ≡ Ordering.Less) ↔ Weighted weights.now.items a.now b.now }
    ensures greater { (result ≡ Ordering.Greater) ↔ Weighted weights.now.items b.now a.now }
    ensures tied { (result ≡ Ordering.Equal)
        ↔ ((¬ Weighted weights.now.items a.now b.now) × (¬ Weighted weights.now.items b.now a.now)) }
    ensures equal { All (λ weight. 0 < weight) weights.now.items → (result ≡ Ordering.Equal) ↔ (a.now ≡ b.now) }
{
    match weight(a, weights).cmp(&weight(b, weights)) {
        Ordering::Equal => by_spelling(a, b),
        unequal => unequal,
    }
}

// The sum of the weights of a word's letters, for which 64 bits may be too few.
fn weight(word: &Word, weights: &[u8]) -> u128
    requires { All (λ letter. letter < length weights.now) (letters word.now) }
    ensures { result ≡ word_weight weights.now word.now }
{
    let mut weight = 0;
    for &letter in word.letters() {
        weight += u128::from(weights[usize::from(letter)]);
    }
    weight
}

// The smaller generator, then the smaller letter where the words first differ. Where one word begins with the other, neither
// is smaller.
fn by_spelling(a: &Word, b: &Word) -> Ordering
    ensures less { (result ≡ Ordering.Less) ↔ IsSmaller a.now b.now }
    ensures greater { (result ≡ Ordering.Greater) ↔ IsSmaller b.now a.now }
{
    match a.root_of().cmp(&b.root_of()) {
        Ordering::Equal => {
            let shared = a.len().min(b.len());
            a.letters()[..shared].cmp(&b.letters()[..shared])
        }
        unequal => unequal,
    }
}
