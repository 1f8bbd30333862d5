ghost use Rattle.std.specs.Prelude.{◌≡◌, ◌≤◌, length, OnOk, IfOk, OnErr};
ghost use Rattle.std.specs.Io.KnownBytes.{ReadConsumes};
ghost use Rattle.ve_port.specs.Count.{next_u64};
ghost use Rattle.ve_port.specs.Edge.{edge_input};
ghost use Rattle.ve_port.specs.Source.{Fails};

use crate::fault::Failed;
use crate::source::Source;
use std::io::{ErrorKind, Read};
use std::marker::Model;

/// A reader as a source. Contracts see the count of its faults and none of its bytes.
#[derive(Drop)]
pub struct FromRead<R> {
    reader: R,
    faults: u64,
}

impl<R> Model for FromRead<R> {
    ghost use Rattle.ve_port.specs.Edge.{Edge};

    ghost Value = { Edge R };

    ghost view = { λ s. record { stream = s.reader; faults = s.faults } };
}

impl<R: Read> FromRead<R> {
    pub fn new(reader: R) -> FromRead<R>
        ensures { result ≡ record { stream = reader; faults = 0 } }
    {
        FromRead { reader, faults: 0 }
    }
}

impl<R: Read> Source for FromRead<R> {
    ghost input = { edge_input };

    fn take(&mut self, buffer: &mut [u8]) -> Result<usize, Failed>
        ensures fits { IfOk result (λ n. n ≤ length buffer.new) }
        ensures failed { OnErr result (Fails (edge_input self.old) (edge_input self.new)) }
        ensures ok { OnOk result (self.new.faults ≡ self.old.faults) }
        ensures err { OnErr result (self.new.faults ≡ next_u64 self.old.faults) }

        // Where the reader's bytes are known, they are what it gives.
        ensures known { ReadConsumes (R.remaining self.old.stream) (R.remaining self.new.stream)
            result buffer.new }
    {
        let taken = read_some(&mut self.reader, buffer);
        if taken.is_err() {
            self.faults = self.faults.saturating_add(1);
        }
        taken
    }
}

// Reads once, and again where the read was interrupted.
fn read_some<R: Read>(reader: &mut R, buffer: &mut [u8]) -> Result<usize, Failed>
    ensures fits { IfOk result (λ n. n ≤ length buffer.new) }
    ensures known { ReadConsumes (R.remaining reader.old) (R.remaining reader.new) result buffer.new }
{
    for _ in 0..u64::MAX {
        match reader.read(buffer) {
            Ok(count) => return Ok(count),
            Err(error) if error.kind() == ErrorKind::Interrupted => {}
            Err(_) => break,
        }
    }
    Err(Failed)
}
