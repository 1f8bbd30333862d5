ghost use Rattle.std.specs.Prelude.{◌≡◌, ◌+◌, ◌<◌, ◌≤◌, ◌↔◌, Contains, IsTrue};
ghost use Rattle.ve_port.specs.Count.{last_u64, next_u64};

use crate::fault::Failed;

/// The calls of a stream in memory: how many were made, which of them fail, and how many failed.
#[derive(Drop)]
pub struct Calls {
    pub failing: Vec<u32>,
    pub made: u64,
    pub faults: u64,
    ghost bounded: { faults ≤ made },
}

impl Calls {
    pub fn new(failing: Vec<u32>) -> Calls
        ensures failing { result.failing ≡ failing }
        ensures made { result.made ≡ 0 }
        ensures faults { result.faults ≡ 0 }
    {
        Calls {
            failing,
            made: 0,
            faults: 0,
        }
    }

    /// Counts one more call, and says whether it is one of those that fail.
    pub fn next_fails(&mut self) -> bool
        ensures listed { IsTrue result ↔ Contains self.old.failing.items (self.old.made + 1) }
        ensures failing { self.new.failing ≡ self.old.failing }
        ensures made { self.new.made ≡ next_u64 self.old.made }
        ensures faults { self.new.faults ≡ self.old.faults }
        ensures below { IsTrue result → self.new.faults < last_u64 }
        ensures room { next_u64 self.new.faults ≤ self.new.made }
    {
        let fails = is_listed(&self.failing, self.made);
        self.made = self.made.saturating_add(1);
        fails
    }

    /// Counts one more fault.
    pub fn fault(&mut self) -> Failed
        requires { next_u64 self.old.faults ≤ self.old.made }
        ensures failing { self.new.failing ≡ self.old.failing }
        ensures made { self.new.made ≡ self.old.made }
        ensures faults { self.new.faults ≡ next_u64 self.old.faults }
    {
        self.faults = self.faults.saturating_add(1);
        Failed
    }
}

// Whether the call after the first `made` ones fails. There is none after the last `u64`.
fn is_listed(failing: &[u32], made: u64) -> bool
    ensures listed { IsTrue result ↔ Contains failing.now (made + 1) }
    ensures below { IsTrue result → made < last_u64 }
{
    let Some(number) = made.checked_add(1) else {
        return false;
    };
    failing.iter().any(|&n| u64::from(n) == number)
}
