ghost use Rattle.std.specs.Prelude.{◌≡◌, ◌++◌, length, take, drop, min, Ok, IfOk};
ghost use Rattle.ve_port.specs.Sure.{sure_input};

use crate::fault::Failed;
use crate::source::Source;
use std::marker::Model;

/// A source over bytes in memory, which never fails.
#[derive(Drop)]
pub struct SureSource {
    bytes: Vec<u8>,
    taken: usize,
}

impl Model for SureSource {
    ghost use Rattle.std.specs.Prelude.{ℕ, ◌≤◌, List, length, drop};

    ghost Value = { List ℕ };

    ghost view = { λ s. drop s.taken s.bytes.items };

    ghost invariant = { λ s. s.taken ≤ length s.bytes.items };
}

impl SureSource {
    pub fn new(bytes: Vec<u8>) -> SureSource
        ensures { result ≡ bytes.items }
    {
        SureSource { bytes, taken: 0 }
    }
}

impl Source for SureSource {
    ghost input = { sure_input };

    /// Takes as many bytes as fit `buffer` and are left, and leaves the rest of `buffer` alone.
    fn take(&mut self, buffer: &mut [u8]) -> Result<usize, Failed>
        ensures sure { result ≡ Ok (min (length self.old) (length buffer.old)) }
        ensures filled { IfOk result (λ n. buffer.new ≡ take n self.old ++ drop n buffer.old) }
        ensures left { IfOk result (λ n. self.new ≡ drop n self.old) }
    {
        let left = &self.bytes[self.taken..];
        let count = left.len().min(buffer.len());
        buffer[..count].copy_from_slice(&left[..count]);
        self.taken += count;
        Ok(count)
    }
}
