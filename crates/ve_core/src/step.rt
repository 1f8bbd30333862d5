//! One event.

ghost use Rattle.std.specs.Prelude.{◌≡◌, IfOk, OnErr};
ghost use Rattle.ve_core.specs.Events.{event_of};
ghost use Rattle.ve_core.specs.Moving.{Steps, Tries};

use crate::{CoreState, Event};
use ve_machine::hands::events_are_enabled_where_allowed;
use ve_word::Memory;

impl CoreState {
    /// Does what a seat sets out to do, where it is enabled. Whether it is.
    pub fn step(&mut self, event: &Event) -> Result<bool, Memory>
        ensures ok { IfOk result (λ moved. Steps self.old (event_of event.now) moved self.new) }
        ensures err { OnErr result (self.new ≡ self.old) }
    {
        events_are_enabled_where_allowed();
        self.is_right();
        let moved = self.try_event(event)?;
        Ok(moved)
    }

    fn try_event(&mut self, event: &Event) -> Result<bool, Memory>
        ensures ok { IfOk result (λ moved. Tries self.old (event_of event.now) moved self.new) }
        ensures err { OnErr result (self.new ≡ self.old) }
    {
        match *event {
            Event::Take { seat, job } => self.take(seat, job),
            Event::Read { seat } => self.read(seat),
            Event::Submit { seat } => self.submit(seat),
            Event::Lift { seat, place } => Ok(self.lift(seat, place)),
            Event::Conclude { seat } => self.conclude(seat),
            Event::Rewrite { id, letter } => self.rewrite(id, letter),
            Event::GiveBack { seat } => self.give_back(seat),
            Event::Hand { seat, what } => self.go_on(seat, what),
        }
    }
}
