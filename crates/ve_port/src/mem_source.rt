ghost use Rattle.std.specs.Prelude.{◌≡◌, ◌+◌, ◌↔◌, ◌++◌, length, take, drop, min, Contains, IfOk, IsErr, OnErr};
ghost use Rattle.ve_port.specs.Count.{next_u64};
ghost use Rattle.ve_port.specs.MemStream.{mem_input};

use crate::calls::Calls;
use crate::fault::Failed;
use crate::source::Source;
use crate::sure_source::SureSource;
use std::marker::Model;

/// A source over bytes in memory, which fails at chosen calls.
#[derive(Drop)]
pub struct MemSource {
    source: SureSource,
    calls: Calls,
}

impl Model for MemSource {
    ghost use Rattle.ve_port.specs.MemStream.{MemStream};

    ghost Value = { MemStream };

    ghost view = { λ s. record {
      bytes = s.source;
      failing = s.calls.failing.items;
      calls = s.calls.made;
      faults = s.calls.faults;
    } };
}

impl MemSource {
    /// A source of `bytes`, whose calls with the numbers in `failing`, counted from 1, fail.
    pub fn new(bytes: Vec<u8>, failing: Vec<u32>) -> MemSource
        ensures { result ≡ record {
          bytes = bytes.items;
          failing = failing.items;
          calls = 0;
          faults = 0;
        } }
    {
        MemSource {
            source: SureSource::new(bytes),
            calls: Calls::new(failing),
        }
    }
}

impl Source for MemSource {
    ghost input = { mem_input };

    /// Takes as many bytes as fit `buffer` and are left, and leaves the rest of `buffer` alone.
    fn take(&mut self, buffer: &mut [u8]) -> Result<usize, Failed>
        ensures listed { IsErr result ↔ Contains self.old.failing (self.old.calls + 1) }
        ensures count { IfOk result (λ n. n ≡ min (length self.old.bytes) (length buffer.old)) }
        ensures filled { IfOk result (λ n. buffer.new ≡ take n self.old.bytes ++ drop n buffer.old) }
        ensures ok { IfOk result (λ n. self.new ≡ record self.old {
          bytes = drop n self.old.bytes;
          calls = next_u64 self.old.calls;
        }) }
        ensures untouched { OnErr result (buffer.new ≡ buffer.old) }
        ensures err { OnErr result (self.new ≡ record self.old {
          calls = next_u64 self.old.calls;
          faults = self.old.faults + 1;
        }) }
    {
        if self.calls.next_fails() {
            return Err(self.calls.fault());
        }
        self.source.take(buffer)
    }
}
