ghost use Rattle.std.specs.Prelude.{◌≡◌, [], ◌++◌, IsOk};
ghost use Rattle.ve_port.specs.Sure.{sure_output};

use crate::fault::Failed;
use crate::seen::{Seen, none_seen, seen_after};
use crate::sink::Sink;
use std::marker::Model;

/// A sink that never fails and takes no memory. Contracts alone see what was written to it.
#[derive(Drop)]
pub struct SureSink {
    seen: Seen,
}

impl Model for SureSink {
    ghost use Rattle.std.specs.Prelude.{ℕ, List};

    ghost Value = { List ℕ };

    ghost view = { λ s. s.seen.bytes };
}

impl SureSink {
    pub fn new() -> SureSink
        ensures { result ≡ [] }
    {
        SureSink { seen: none_seen() }
    }
}

impl Sink for SureSink {
    ghost output = { sure_output };

    fn put(&mut self, piece: &[u8]) -> Result<(), Failed>
        ensures sure { IsOk result }
        ensures written { self.new ≡ self.old ++ piece.now }
    {
        self.seen = seen_after(&self.seen, piece);
        Ok(())
    }
}
