//! The machine that many seats share, and its steps.

ghost use Rattle.ve_machine.specs.SharedLaws.{JournalsKeepKnown, StatesOpen, StatesStayRight, StepsGoOn, StepsKeepCovered, StepsKeepDone, StepsKeepHistory, StepsKeepKnown, StepsKeepSound};

/// At the beginning the machine is sound, nothing is done, and nobody has died.
pub fn states_open()
    ensures { StatesOpen }
{}

/// Whatever seats do, the machine stays sound, what is done stays covered, and the history stays legal.
pub fn states_stay_right()
    ensures { StatesStayRight }
{
    ve_theory::residues::has_inverses();
    ve_theory::derivations::levels_are_closed();
}

/// Each step keeps the machine sound: whatever is in it is derived.
pub fn steps_keep_sound()
    ensures { StepsKeepSound }
{
    ve_theory::residues::has_inverses();
    ve_theory::derivations::levels_are_closed();
}

/// What was known stays so, and dead ids keep their forwards.
pub fn steps_keep_known()
    ensures { StepsKeepKnown }
{
    ve_theory::residues::has_inverses();
    ve_theory::derivations::levels_are_closed();
}

/// What was known with a part of the journal stays known with all of it.
pub fn journals_keep_known()
    ensures { JournalsKeepKnown }
{}

/// No step makes a done job undone.
pub fn steps_keep_done()
    ensures { StepsKeepDone }
{}

/// What is done stays covered: what its value lacks to be known is owed.
pub fn steps_keep_covered()
    ensures { StepsKeepCovered }
{
    ve_theory::residues::has_inverses();
    ve_theory::derivations::levels_are_closed();
}

/// Each step keeps the history legal.
pub fn steps_keep_history()
    ensures { StepsKeepHistory }
{
    ve_theory::residues::has_inverses();
    ve_theory::derivations::levels_are_closed();
}

/// A step of a seat adds deaths by this seat alone, and leaves the desks of others.
pub fn steps_go_on()
    ensures { StepsGoOn }
{}
