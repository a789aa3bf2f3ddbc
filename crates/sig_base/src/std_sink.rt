ghost use Rattle.std.specs.Prelude.{◌≡◌, ◌<◌, ◌≤◌, length, None, IfOk};
ghost use Rattle.std.specs.Io.KnownBytes.{WriteAppends};
ghost use Rattle.sig_base.specs.Flow.{faults_after};

use crate::sink::Sink;
use crate::source::Failed;
use std::io::Write;
use std::marker::Model;

/// A writer of std as a sink. It tells no bytes.
#[derive(Drop)]
pub struct StdSink<W: Write> {
    /// Where the bytes go.
    writer: W,
    /// How many writes failed, those that took nothing too.
    faults: u64,
}

impl<W: Write> Model for StdSink<W> {
    ghost use Rattle.sig_base.specs.Stored.{WriterStored};

    ghost Value = { WriterStored };

    ghost view = { λ s. record { contents = W.contents s.writer; faults = s.faults } };
}

impl<W: Write> StdSink<W> {
    /// A sink that passes its bytes to the writer. It does not flush.
    pub fn new(writer: W) -> StdSink<W>
        ensures { result ≡ record { contents = W.contents writer; faults = 0 } }
    {
        StdSink { writer, faults: 0 }
    }
}

impl<W: Write> Sink for StdSink<W> {
    ghost held = { λ _. None };

    ghost faults = { λ s. s.faults };

    // One write of the writer. Each of its errors is a fault, and so is a write of no bytes.
    fn write(&mut self, piece: &[u8]) -> Result<usize, Failed>
        requires { 0 < length piece.now }
        ensures some { IfOk result (λ n. 0 < n) }
        ensures within { IfOk result (λ n. n ≤ length piece.now) }
        ensures bytes { WriteAppends self.old.contents self.new.contents result piece.now }
        ensures faults { self.new.faults ≡ faults_after result self.old.faults }
        ensures count { self.old.faults ≤ self.new.faults }
    {
        match self.writer.write(piece) {
            Ok(n) if n > 0 => Ok(n),
            _ => {
                self.faults = self.faults.saturating_add(1);
                Err(Failed)
            }
        }
    }
}
