/// What the program is asked to do.
#[derive(Clone, Copy, Debug, PartialEq, Eq)]
pub enum Command {
    /// Work out the answer of a presentation, on one thread, with tables of at most `limit` vectors. Write it, or its summary.
    Alone {
        limit: u32,
        summary: bool,
    },
    /// The same, on `workers` threads.
    Shared {
        workers: u32,
        limit: u32,
        summary: bool,
    },
    /// Write the canonical text of a presentation.
    Show,
    /// Check an answer against a presentation.
    Check,
    /// Write the presentation of a symmetric group and of its module on sets of points.
    Make {
        points: u64,
        node: u64,
        prime: u64,
    },
}
