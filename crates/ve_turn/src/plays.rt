//! What each step on the table tells.
ghost use Rattle.ve_turn.specs.declared.view.View.TheVariants.{Spent};
ghost use Rattle.ve_turn.specs.Steps.{drawn, looked, moved_on, settled, first_cut, second_cut, glued};

use crate::journaled::Journaled;
use crate::view::View;
use atomic_table::{Join, Play, Split};

pub(crate) struct Draw;

impl<T: Journaled> Play<Option<T>, View<T>> for Draw {
    ghost then = { drawn };
}

pub(crate) struct Look;

impl<T: Journaled> Play<Option<T>, View<T>> for Look {
    ghost then = { looked T.Journaled };
}

pub(crate) struct MoveOn;

impl<T: Journaled> Play<Option<T>, View<T>> for MoveOn {
    ghost then = { moved_on T.Journaled };
}

pub(crate) struct Settle;

impl<T: Journaled> Play<Option<T>, View<T>> for Settle {
    ghost then = { settled };
}

pub(crate) struct Cut;

impl<T: Journaled> Split<View<T>> for Cut {
    ghost left = { first_cut };

    ghost right = { second_cut T.empty_desk };
}

pub(crate) struct Glue;

impl<T: Journaled> Join<View<T>> for Glue {
    ghost both = { glued };

    ghost spent = { Spent };
}
