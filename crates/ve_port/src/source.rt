ghost use Rattle.std.specs.Prelude.{◌≡◌, ◌<◌, ◌≤◌, ◌↔◌, [], length, take, IfOk, IfSome, OnErr};
ghost use Rattle.ve_port.specs.Source.{Input, Gives, Fails};

use crate::fault::Failed;

/// What bytes are taken from, in order.
pub trait Source {
    ghost input: { Self → Input };

    /// Takes the next bytes, as many as it likes but at least one, to the front of `buffer`, and
    /// answers their number. It answers 0 at the end of the input alone. What stands in `buffer`
    /// past them may change too.
    fn take(&mut self, buffer: &mut [u8]) -> Result<usize, Failed>
        requires { 0 < length buffer.old }
        ensures fits { IfOk result (λ n. n ≤ length buffer.new) }
        ensures given { IfOk result (λ n. Gives (input self.old) (input self.new) (take n buffer.new)) }
        ensures end { IfOk result (λ n. IfSome (input self.old).left (λ xs. (n ≡ 0) ↔ (xs ≡ []))) }
        ensures failed { OnErr result (Fails (input self.old) (input self.new)) };
}
