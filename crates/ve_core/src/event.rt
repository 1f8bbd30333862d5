use ve_hand::Job;

/// What a seat does with its hand alone.
#[derive(Clone, Copy, Debug, PartialEq, Eq)]
pub enum Local {
    /// Puts the forwards that were read in their ids' places.
    Repair,
    /// Goes on with what was read.
    Apply,
}

/// What a seat sets out to do.
#[derive(Clone, Copy, Debug, PartialEq, Eq)]
pub enum Event {
    /// Takes a job that waits.
    Take { seat: u32, job: Job },
    /// Reads what its hand needs next.
    Read { seat: u32 },
    /// Brings the vector of its job.
    Submit { seat: u32 },
    /// Takes a relation out of the queue.
    Lift { seat: u32, place: u32 },
    /// Lets the greatest id of its relation die.
    Conclude { seat: u32 },
    /// Rewrites a row that names a dead id. Any seat may.
    Rewrite { id: u32, letter: u8 },
    /// Gives its job or its relation back.
    GiveBack { seat: u32 },
    /// Goes on with its hand.
    Hand { seat: u32, what: Local },
}
