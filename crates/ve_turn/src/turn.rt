//! What a seat holds from `enter` to `leave`.
ghost use Rattle.std.specs.Prelude.{◌≡◌, [], ◌∷◌, None};
ghost use Rattle.std.specs.Borrow.{Lends, sem};
ghost use Rattle.ve_turn.specs.declared.view.Knowledge.{Knowledge};
ghost use Rattle.ve_turn.specs.declared.view.View.TheVariants.{Inside};
ghost use Rattle.ve_turn.specs.Places.{IsInside, inside-prop};
ghost use Rattle.ve_turn.specs.Numbered.{IsNumbered};

use crate::journaled::Journaled;
use crate::numbers::Numbers;
use crate::view::Token;
use std::marker::Model;

/// The value, out of the turnstile. It has no `Drop`, so it ends in `leave`.
pub struct Turn<T: Journaled> {
    pub(crate) numbers: Numbers,
    pub(crate) token: Token<T>,
    pub(crate) value: T,
    ghost inside: { (known : T × Knowledge T T.Opening T.Entry T.Desk) × IsInside token known } by { inside-prop token-code token },
}

impl<T: Journaled> Model for Turn<T> {
    ghost use Rattle.std.specs.Prelude.{◌≡◌};
    ghost use Rattle.ve_turn.specs.Numbered.{IsNumbered};
    ghost use Rattle.ve_turn.specs.Views.{TurnView};
    ghost use Rattle.ve_turn.specs.declared.view.Knowledge.{Knowledge};

    ghost Value = { TurnView T (Knowledge T T.Opening T.Entry T.Desk) };

    ghost view = { λ t. record { pass = record { turnstile = t.token.table_id; knows = t.inside.0.1 }; met = t.inside.0.0; value = t.value } };

    ghost invariant = { λ t. IsNumbered t.numbers t.inside.0.1 };
}

impl<T: Journaled> Turn<T> {
    ghost use Rattle.ve_turn.specs.contracts.turn.Turn.{the_row};

    pub(crate) fn of(numbers: Numbers, token: Token<T>, value: T) -> Turn<T>
        requires { (k : Knowledge T T.Opening T.Entry T.Desk) × (met : T) × (token.me ≡ (Inside met k, (0, None) ∷ [])) × IsNumbered numbers k }
        ensures { (k : Knowledge T T.Opening T.Entry T.Desk) (met : T) → token.me ≡ (Inside met k, (0, None) ∷ []) → result ≡ record { pass = record { turnstile = token.table_id; knows = k }; met = met; value = value } }
    {
        Turn {
            numbers,
            token,
            value,
        }
    }

    pub fn value(&self) -> &T
        ensures { result.now ≡ self.now.value }
    {
        &self.value
    }

    /// The turn ends with the value last written.
    pub fn value_mut(&mut self) -> &mut T
        ensures* lends { sem 𝓛 (Lends (the_row T.row T.Opening.row T.Entry.row T.Desk.row T.Journaled) T.row self.entry result (λ w. record self.old { value = w })) }
        ensures value { result.now ≡ self.old.value }
    {
        &mut self.value
    }
}
