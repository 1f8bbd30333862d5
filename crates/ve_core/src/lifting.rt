//! Relations that seats take out of the queue.

ghost use Rattle.std.specs.Prelude.{◌≡◌, ◌<◌, length};
ghost use Rattle.ve_machine.specs.Seats.{HasDesk, empty_desk};
ghost use Rattle.ve_machine.specs.Machines.{Move, to_lift};
ghost use Rattle.ve_core.specs.Moving.{Tries};

use crate::CoreState;
use crate::desk::Desk;
use ve_hand::Hand;
use ve_machine::hands::moves_go_right;

impl CoreState {
    /// A seat takes the relation at a place out of the queue.
    pub(crate) fn lift(&mut self, seat: u32, place: u32) -> bool
        ensures { Tries self.old (to_lift seat place) result self.new }
    {
        if !self.is_idle(seat) || place as usize >= self.queue_len() {
            return false;
        }
        self.take_out(seat, place);
        true
    }

    fn take_out(&mut self, seat: u32, place: u32)
        requires idle { HasDesk self.old.shared seat empty_desk }
        requires queued { place < length self.old.shared.queue }
        ensures { Move self.old (to_lift seat place) self.new }
    {
        moves_go_right();
        let relation = self.queue.remove(place as usize);
        self.desks[seat as usize] = Desk::with_relation(&relation);
        self.hands[seat as usize] = Hand::of_relation(self.alloc, relation);
    }
}
