ghost use Rattle.std.specs.Prelude.{◌≡◌, OnOk, OnErr};
ghost use Rattle.std.specs.Io.KnownBytes.{Appends};
ghost use Rattle.ve_port.specs.Count.{next_u64};
ghost use Rattle.ve_port.specs.Edge.{AppendsFront, edge_output};
ghost use Rattle.ve_port.specs.Sink.{Breaks};

use crate::fault::Failed;
use crate::sink::Sink;
use std::io::{ErrorKind, Write};
use std::marker::Model;

/// A writer as a sink, flushed in each put. Contracts see the count of its faults and none of its
/// bytes.
#[derive(Drop)]
pub struct ToWrite<W> {
    writer: W,
    faults: u64,
}

impl<W> Model for ToWrite<W> {
    ghost use Rattle.ve_port.specs.Edge.{Edge};

    ghost Value = { Edge W };

    ghost view = { λ s. record { stream = s.writer; faults = s.faults } };
}

impl<W: Write> ToWrite<W> {
    pub fn new(writer: W) -> ToWrite<W>
        ensures { result ≡ record { stream = writer; faults = 0 } }
    {
        ToWrite { writer, faults: 0 }
    }
}

impl<W: Write> Sink for ToWrite<W> {
    ghost output = { edge_output };

    fn put(&mut self, piece: &[u8]) -> Result<(), Failed>
        ensures failed { OnErr result (Breaks (edge_output self.old) (edge_output self.new) piece.now) }
        ensures ok { OnOk result (self.new.faults ≡ self.old.faults) }
        ensures err { OnErr result (self.new.faults ≡ next_u64 self.old.faults) }

        // Where the writer's bytes are known, they grow by the piece.
        ensures known { OnOk result
            (Appends (W.contents self.old.stream) (W.contents self.new.stream) piece.now) }

        // After a fault by a part of it, from its front.
        ensures part { OnErr result
            (AppendsFront (W.contents self.old.stream) (W.contents self.new.stream) piece.now) }
    {
        let written = write_out(&mut self.writer, piece);
        if written.is_err() {
            self.faults = self.faults.saturating_add(1);
        }
        written
    }
}

// Writes all of the piece and flushes. A write that takes nothing fails, and one that was
// interrupted is tried again.
fn write_out<W: Write>(writer: &mut W, piece: &[u8]) -> Result<(), Failed>
    ensures whole { OnOk result (Appends (W.contents writer.old) (W.contents writer.new) piece.now) }
    ensures part { OnErr result (AppendsFront (W.contents writer.old) (W.contents writer.new) piece.now) }
{
    let mut rest = piece;
    for _ in 0..u64::MAX {
        if rest.is_empty() {
            return writer.flush().map_err(|_| Failed);
        }
        match writer.write(rest) {
            Ok(0) => break,
            Ok(count) => rest = &rest[count..],
            Err(error) if error.kind() == ErrorKind::Interrupted => {}
            Err(_) => break,
        }
    }
    Err(Failed)
}
