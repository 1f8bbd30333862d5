ghost use Rattle.std.specs.Prelude.{◌≡◌, ◌<◌, All, length};
ghost use Rattle.ve_vec.specs.Terms.{pairs};
ghost use Rattle.ve_vec.specs.Vectors.{numbered};

use crate::Term;

/// Puts the number of each id in its place.
pub(crate) fn number_terms(terms: &mut [Term], numbers: &[u32])
    requires { All (λ t. t.0 < length numbers.now) (pairs terms.old) }
    ensures { pairs terms.new ≡ numbered numbers.now (pairs terms.old) }
{
    for term in terms {
        term.id = numbers[term.id as usize];
    }
}
