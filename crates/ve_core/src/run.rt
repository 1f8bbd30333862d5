//! Many events.

ghost use Rattle.std.specs.Prelude.{◌≡◌, ℕ, IfOk, OnErr, OnOk, map, take};
ghost use Rattle.ve_machine.specs.Machines.{Goes};
ghost use Rattle.ve_core.specs.Events.{event_of};
ghost use Rattle.ve_core.specs.Moving.{Counts};

use crate::{CoreState, Event};
use ve_word::Memory;

impl CoreState {
    /// Does one event after another, but for those that aren't enabled. How many were. At want of memory the events before have been done.
    pub fn run(&mut self, events: &[Event]) -> Result<u64, Memory>
        ensures goes { OnOk result (Goes self.old (map event_of events.now) self.new) }
        ensures count { IfOk result (λ count. Counts self.old (map event_of events.now) count self.new) }
        ensures err { OnErr result ((done : ℕ) × Goes self.old (map event_of (take done events.now)) self.new) }
    {
        let mut count = 0;
        for event in events {
            if self.step(event)? {
                count += 1;
            }
        }
        Ok(count)
    }
}
