//! The shared machine with the hands of its seats.

ghost use Rattle.ve_machine.specs.Allowed.{EventsAreEnabledWhereAllowed};
ghost use Rattle.ve_machine.specs.SharedLaws.{MachinesStayRight, MovesGoRight};

/// What a seat does with its hand is a step of the shared machine, or leaves it as it is, and keeps hands right.
pub fn moves_go_right()
    ensures { MovesGoRight }
{
    ve_theory::residues::has_inverses();
    ve_theory::derivations::levels_are_closed();
}

/// Whatever seats do, the machine stays sound and covered, its history legal, and its hands right.
pub fn machines_stay_right()
    ensures { MachinesStayRight }
{
    ve_theory::residues::has_inverses();
    ve_theory::derivations::levels_are_closed();
}

/// An event is enabled exactly where the machine allows it.
pub fn events_are_enabled_where_allowed()
    ensures { EventsAreEnabledWhereAllowed }
{
    ve_theory::residues::has_inverses();
}
