ghost use Rattle.std.specs.Prelude.{OnOk, OnErr};
ghost use Rattle.ve_port.specs.Sink.{Output, Gains, Breaks};

use crate::fault::Failed;

/// What bytes are written to, in order.
pub trait Sink {
    ghost output: { Self → Output };

    /// Writes all of `piece`. Where that fails, a part of it from its front may be written.
    fn put(&mut self, piece: &[u8]) -> Result<(), Failed>
        ensures gained { OnOk result (Gains (output self.old) (output self.new) piece.now) }
        ensures failed { OnErr result (Breaks (output self.old) (output self.new) piece.now) };
}
