ghost use Rattle.std.specs.Prelude.{◌≡◌, ◌+◌, [], ◌++◌, Contains, IsErr, OnOk, OnErr};
ghost use Rattle.ve_port.specs.Sink.{Breaks};
ghost use Rattle.ve_port.specs.Count.{next_u64};
ghost use Rattle.ve_port.specs.MemStream.{mem_output};

use crate::calls::Calls;
use crate::fault::Failed;
use crate::sink::Sink;
use std::alloc::Global;
use std::marker::Model;

/// A sink that keeps its bytes in memory, and fails at chosen calls.
#[derive(Drop)]
pub struct MemSink {
    bytes: Vec<u8>,
    calls: Calls,
}

impl Model for MemSink {
    ghost use Rattle.ve_port.specs.MemStream.{MemStream};

    ghost Value = { MemStream };

    ghost view = { λ s. record {
      bytes = s.bytes.items;
      failing = s.calls.failing.items;
      calls = s.calls.made;
      faults = s.calls.faults;
    } };
}

impl MemSink {
    /// An empty sink, whose calls with the numbers in `failing`, counted from 1, fail.
    pub fn new(alloc: Global, failing: Vec<u32>) -> MemSink
        ensures { result ≡ record {
          bytes = [];
          failing = failing.items;
          calls = 0;
          faults = 0;
        } }
    {
        MemSink {
            bytes: Vec::new(alloc),
            calls: Calls::new(failing),
        }
    }

    /// What was written so far.
    pub fn written(&self) -> &Vec<u8>
        ensures { result.now.items ≡ self.now.bytes }
    {
        &self.bytes
    }
}

impl Sink for MemSink {
    ghost output = { mem_output };

    fn put(&mut self, piece: &[u8]) -> Result<(), Failed>
        ensures listed { Contains self.old.failing (self.old.calls + 1) → IsErr result }
        ensures failed { OnErr result (Breaks (mem_output self.old) (mem_output self.new) piece.now) }
        ensures ok { OnOk result (self.new ≡ record self.old {
          bytes = self.old.bytes ++ piece.now;
          calls = next_u64 self.old.calls;
        }) }
        ensures err { OnErr result (self.new ≡ record self.old {
          calls = next_u64 self.old.calls;
          faults = next_u64 self.old.faults;
        }) }
    {
        if self.calls.next_fails() || self.bytes.extend_from_slice(piece).is_err() {
            return Err(self.calls.fault());
        }
        Ok(())
    }
}
