//! Levels that two seats work on, event by event.

ghost use Rattle.std.specs.Prelude.{◌≤◌};
ghost use Rattle.ve_levels.specs.Advancing.{most_limit};

use super::{TRIANGLE_COSETS, TWO_CYCLE, is_unit, table_at};
use std::alloc::Global;
use std::test::Fail;
use ve_core::{CoreState, Event, Job, Local};
use ve_vec::Rows;
use ve_word::Memory;

/// Events at a level of a text, and whether each is enabled. Then the row of an id at a letter is the unit of another id.
struct Case {
    text: &'static str,
    limit: u32,
    level: u32,
    events: &'static [(Event, bool)],
    row: (u32, u8, u32),
}

/// x^2 at e1, in the two-cycle.
const SQUARE: Job = Job::Relator { id: 0, number: 0 };

/// In the triangle: a^2 and b^2 at e1*b*a, and the image of e1*b*a*b*b, once it is dead, at a.
const EARLY_A: Job = Job::Relator { id: 2, number: 0 };

const EARLY_B: Job = Job::Relator { id: 2, number: 1 };

const EARLY_IMAGE: Job = Job::Image { id: 5, letter: 0 };

/// In the triangle: (a*b)^3 at e1, and b^2 and a^2 at e1*b*a*b*a.
const FULL_TURN: Job = Job::Relator { id: 0, number: 2 };

const TWICE_B: Job = Job::Relator { id: 4, number: 1 };

const TWICE_A: Job = Job::Relator { id: 4, number: 0 };

/// The image of e1*b*a*b*a*b, once it is dead, at a.
const IMAGE: Job = Job::Image { id: 5, letter: 0 };

const FIRST_TAKES_SQUARE: Event = Event::Take {
    seat: 0,
    job: SQUARE,
};

const SECOND_TAKES_SQUARE: Event = Event::Take {
    seat: 1,
    job: SQUARE,
};

const FIRST_TAKES_A: Event = Event::Take {
    seat: 0,
    job: EARLY_A,
};

const SECOND_TAKES_B: Event = Event::Take {
    seat: 1,
    job: EARLY_B,
};

const FIRST_READS: Event = Event::Read { seat: 0 };

const SECOND_READS: Event = Event::Read { seat: 1 };

const FIRST_GOES_ON: Event = Event::Hand {
    seat: 0,
    what: Local::Apply,
};

const SECOND_GOES_ON: Event = Event::Hand {
    seat: 1,
    what: Local::Apply,
};

const SECOND_REPAIRS: Event = Event::Hand {
    seat: 1,
    what: Local::Repair,
};

const CASES: &[Case] = &[
    // The job is taken once, and brought by the seat that has it alone.
    Case {
        text: TWO_CYCLE,
        limit: 3,
        level: 2,
        events: &[
            (FIRST_TAKES_SQUARE, true),
            (SECOND_TAKES_SQUARE, false),
            (Event::Submit { seat: 1 }, false),
        ],
        row: (1, 0, 2),
    },
    // Nothing else is due or there.
    Case {
        text: TWO_CYCLE,
        limit: 3,
        level: 2,
        events: &[
            (Event::Rewrite { id: 1, letter: 0 }, false),
            (Event::GiveBack { seat: 1 }, false),
            (Event::Lift { seat: 0, place: 0 }, false),
            (
                Event::Take {
                    seat: 2,
                    job: SQUARE,
                },
                false,
            ),
            (
                Event::Take {
                    seat: 0,
                    job: Job::Relator { id: 1, number: 0 },
                },
                false,
            ),
            (
                Event::Take {
                    seat: 0,
                    job: Job::Image { id: 2, letter: 0 },
                },
                false,
            ),
        ],
        row: (1, 0, 2),
    },
    // The whole level. The terms of the relator are e1*x*x and e1.
    Case {
        text: TWO_CYCLE,
        limit: 3,
        level: 2,
        events: &[
            (FIRST_TAKES_SQUARE, true),
            (FIRST_GOES_ON, false),
            (FIRST_READS, true),
            (FIRST_GOES_ON, true),
            (Event::Submit { seat: 0 }, false),
            (FIRST_READS, true),
            (FIRST_GOES_ON, true),
            (FIRST_GOES_ON, true),
            (FIRST_GOES_ON, true),
            (FIRST_GOES_ON, false),
            (Event::Lift { seat: 1, place: 0 }, false),
            (Event::Submit { seat: 0 }, true),
            (FIRST_TAKES_SQUARE, false),
            (Event::Lift { seat: 1, place: 1 }, false),
            (Event::Lift { seat: 1, place: 0 }, true),
            (Event::GiveBack { seat: 1 }, true),
            (Event::Lift { seat: 1, place: 0 }, true),
            (Event::Conclude { seat: 1 }, true),
            (Event::Rewrite { id: 1, letter: 0 }, true),
            (Event::Rewrite { id: 1, letter: 0 }, false),
        ],
        row: (1, 0, 0),
    },
    // The ids are those of e1, e1*b, e1*b*a, e1*b*a*b, and of the last one times a and times b. The seats begin both jobs of the level. The first gives its job
    // back and takes it anew; the second finds that e1*b*a*b*b is e1*b*a, and lets it die.
    Case {
        text: TRIANGLE_COSETS,
        limit: 8,
        level: 4,
        events: &[
            (FIRST_TAKES_A, true),
            (
                Event::Take {
                    seat: 1,
                    job: EARLY_A,
                },
                false,
            ),
            (SECOND_TAKES_B, true),
            (FIRST_READS, true),
            (SECOND_READS, true),
            (FIRST_GOES_ON, true),
            (SECOND_GOES_ON, true),
            (Event::GiveBack { seat: 0 }, true),
            (
                Event::Take {
                    seat: 0,
                    job: EARLY_B,
                },
                false,
            ),
            (FIRST_TAKES_A, true),
            (FIRST_GOES_ON, false),
            (FIRST_READS, true),
            (FIRST_GOES_ON, true),
            (Event::Submit { seat: 0 }, false),
            (SECOND_READS, true),
            (SECOND_REPAIRS, false),
            (SECOND_GOES_ON, true),
            (SECOND_GOES_ON, true),
            (SECOND_GOES_ON, true),
            (Event::Submit { seat: 1 }, true),
            (Event::Lift { seat: 1, place: 0 }, true),
            (SECOND_TAKES_B, false),
            (SECOND_READS, true),
            (SECOND_REPAIRS, false),
            (Event::Conclude { seat: 1 }, true),
            (Event::Rewrite { id: 3, letter: 1 }, true),
            (Event::Rewrite { id: 3, letter: 1 }, false),
            (
                Event::Take {
                    seat: 1,
                    job: EARLY_IMAGE,
                },
                false,
            ),
            (FIRST_READS, true),
            (FIRST_GOES_ON, true),
            (FIRST_GOES_ON, true),
            (FIRST_GOES_ON, true),
            (FIRST_GOES_ON, false),
            (Event::Submit { seat: 0 }, true),
            (Event::Lift { seat: 1, place: 0 }, true),
            (Event::GiveBack { seat: 1 }, true),
            (Event::Lift { seat: 0, place: 0 }, true),
            (Event::Conclude { seat: 0 }, true),
            (FIRST_TAKES_A, false),
            (SECOND_TAKES_B, false),
        ],
        row: (3, 1, 2),
    },
    // The ids are those of e1, e1*b, e1*b*a, .. to e1*b*a*b*a*b, and of the last one times a and times b. While the second seat has reached
    // e1*b*a*b*a*b, the first one finds that this is e1, and lets it die.
    Case {
        text: TRIANGLE_COSETS,
        limit: 8,
        level: 6,
        events: &[
            (
                Event::Take {
                    seat: 0,
                    job: FULL_TURN,
                },
                true,
            ),
            (
                Event::Take {
                    seat: 1,
                    job: FULL_TURN,
                },
                false,
            ),
            (
                Event::Take {
                    seat: 1,
                    job: TWICE_B,
                },
                true,
            ),
            (SECOND_READS, true),
            (SECOND_GOES_ON, true),
            (FIRST_READS, true),
            (FIRST_GOES_ON, true),
            (FIRST_READS, true),
            (FIRST_GOES_ON, true),
            (FIRST_READS, true),
            (FIRST_GOES_ON, true),
            (FIRST_READS, true),
            (FIRST_GOES_ON, true),
            (FIRST_READS, true),
            (FIRST_GOES_ON, true),
            (FIRST_READS, true),
            (FIRST_GOES_ON, true),
            (Event::Submit { seat: 0 }, false),
            (FIRST_GOES_ON, true),
            (FIRST_GOES_ON, true),
            (Event::Submit { seat: 0 }, true),
            (Event::Lift { seat: 0, place: 0 }, true),
            (Event::Conclude { seat: 0 }, true),
            (SECOND_GOES_ON, false),
            (SECOND_READS, true),
            (SECOND_GOES_ON, false),
            (SECOND_REPAIRS, true),
            (SECOND_REPAIRS, false),
            (SECOND_READS, true),
            (SECOND_GOES_ON, true),
            (SECOND_GOES_ON, true),
            (SECOND_GOES_ON, true),
            (Event::Submit { seat: 1 }, true),
            (Event::Rewrite { id: 4, letter: 1 }, true),
            (Event::Rewrite { id: 4, letter: 1 }, false),
            (
                Event::Take {
                    seat: 0,
                    job: IMAGE,
                },
                true,
            ),
            (FIRST_GOES_ON, false),
            (FIRST_READS, true),
            (FIRST_GOES_ON, true),
            (FIRST_READS, true),
            (FIRST_GOES_ON, true),
            (FIRST_GOES_ON, true),
            (Event::Submit { seat: 0 }, true),
            (Event::Lift { seat: 1, place: 0 }, true),
            (Event::Conclude { seat: 1 }, true),
            (Event::Lift { seat: 0, place: 0 }, true),
            (Event::Conclude { seat: 0 }, true),
            (
                Event::Take {
                    seat: 0,
                    job: TWICE_A,
                },
                false,
            ),
        ],
        row: (4, 1, 0),
    },
];

#[test]
fn levels_are_worked_on(rt: HostRuntime) -> Result<(), Fail> {
    for (at, case) in CASES.iter().enumerate() {
        assert!(rt; passes(rt.alloc(), case)?, "at {at}");
    }
    Ok(())
}

/// Events in one call.
#[test]
fn many_events_are_counted(rt: HostRuntime) -> Result<(), Fail> {
    let Some(mut state) = seated(rt.alloc(), TWO_CYCLE, 3, 2)? else {
        return Err(Memory.into());
    };
    let events = [
        FIRST_TAKES_SQUARE,
        SECOND_TAKES_SQUARE,
        Event::Submit { seat: 1 },
    ];
    assert!(rt; state.run(&events)? == 1);
    assert!(rt; state.seats() == 2 && state.queue_len() == 0);
    Ok(())
}

fn passes(alloc: Global, case: &Case) -> Result<bool, Fail> {
    if case.limit > 1_000_000 {
        return Ok(false);
    }
    let Some(mut state) = seated(alloc, case.text, case.limit, case.level)? else {
        return Ok(false);
    };
    for (event, enabled) in case.events {
        if state.step(event)? != *enabled {
            return Ok(false);
        }
    }
    let (id, letter, image) = case.row;
    Ok(is_unit(state.table().row(id, letter), image))
}

/// The machine of two seats at the beginning of a level.
fn seated(alloc: Global, text: &str, limit: u32, level: u32) -> Result<Option<CoreState>, Fail>
    requires { limit ≤ most_limit }
{
    let Some(table) = table_at(alloc, text, limit, level)? else {
        return Ok(None);
    };
    if table.live_count() != table.id_count() {
        return Ok(None);
    }
    Ok(Some(CoreState::open(alloc, &table, 2)?))
}
