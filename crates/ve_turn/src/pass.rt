//! A seat's right to take turns.
ghost use Rattle.std.specs.Prelude.{◌≡◌, [], length};
ghost use Rattle.ve_turn.specs.declared.view.Knowledge.{Knowledge};
ghost use Rattle.ve_turn.specs.declared.view.View.TheVariants.{Outside};
ghost use Rattle.ve_turn.specs.Places.{IsOutside, outside-prop};
ghost use Rattle.ve_turn.specs.Numbered.{IsNumbered};

use crate::journaled::Journaled;
use crate::numbers::Numbers;
use crate::view::Token;
use std::marker::Model;

/// One seat's, and after `meet` also that of other seats. It can't be copied.
#[derive(Drop)]
pub struct Pass<T: Journaled> {
    pub(crate) numbers: Numbers,
    pub(crate) seen_len: u64,
    pub(crate) token: Token<T>,
    ghost outside: { (k : Knowledge T T.Opening T.Entry T.Desk) × IsOutside token k } by { outside-prop token-code token },
}

impl<T: Journaled> Model for Pass<T> {
    ghost use Rattle.std.specs.Prelude.{◌≡◌, length};
    ghost use Rattle.ve_turn.specs.Numbered.{IsNumbered};
    ghost use Rattle.ve_turn.specs.Views.{PassView};
    ghost use Rattle.ve_turn.specs.declared.view.Knowledge.{Knowledge};

    ghost Value = { PassView (Knowledge T T.Opening T.Entry T.Desk) };

    ghost view = { λ p. record { turnstile = p.token.table_id; knows = p.outside.0 } };

    ghost invariant = { λ p. IsNumbered p.numbers p.outside.0 × (p.seen_len ≡ length p.outside.0.seen) };
}

impl<T: Journaled> Pass<T> {
    pub(crate) fn of(numbers: Numbers, seen_len: u64, token: Token<T>) -> Pass<T>
        requires { (k : Knowledge T T.Opening T.Entry T.Desk) × (token.me ≡ (Outside k, [])) × IsNumbered numbers k × (seen_len ≡ length k.seen) }
        ensures { (k : Knowledge T T.Opening T.Entry T.Desk) → token.me ≡ (Outside k, []) → result ≡ record { turnstile = token.table_id; knows = k } }
    {
        Pass {
            numbers,
            seen_len,
            token,
        }
    }

    pub fn seat(&self) -> u32
        ensures { result ≡ self.now.knows.seat }
    {
        self.numbers.seat
    }

    /// How many seats the pass stands for besides its own: not yet split from it, or joined into it.
    pub fn left(&self) -> u32
        ensures { result ≡ self.now.knows.left }
    {
        self.numbers.left
    }

    /// The length of the journal that the pass has seen.
    pub fn seen_len(&self) -> u64
        ensures { result ≡ length self.now.knows.seen }
    {
        self.seen_len
    }
}
