//! A sink over a writer, which counts the writer's errors as faults and doesn't tell what it took.

ghost use Rattle.std.specs.Prelude.{◌≡◌, ◌<◌, ◌≤◌, None, IfOk, length};
ghost use Rattle.std.specs.Io.KnownBytes.{WriteAppends};
ghost use Rattle.net_io.specs.Faults.{counted, Counts};

use crate::{Failed, Sink};
use std::io::Write;
use std::marker::Model;

/// A sink over a writer. It tells nothing of what it took.
///
/// An error of the writer is a fault, and so is a write that takes nothing of a piece that isn't empty.
#[derive(Drop)]
pub struct RealSink<W: Write> {
    writer: W,
    faults: u64,
}

impl<W: Write> Model for RealSink<W> {
    ghost use Rattle.net_io.specs.Written.{Written};

    ghost Value = { Written };

    ghost view = { λ s. record { contents = W.contents s.writer; faults = s.faults } };
}

impl<W: Write> RealSink<W> {
    /// A sink that writes to this writer, with no fault so far.
    pub fn new(writer: W) -> RealSink<W>
        ensures { result ≡ record { contents = W.contents writer; faults = 0 } }
    {
        RealSink { writer, faults: 0 }
    }

    fn count_fault(&mut self)
        ensures counted { self.new ≡ record self.old { faults = counted self.old.faults } }
        ensures later { self.old.faults ≤ self.new.faults }
    {
        self.faults = self.faults.saturating_add(1);
    }
}

impl<W: Write> Sink for RealSink<W> {
    ghost taken = { λ _. None };

    ghost faults = { λ s. s.faults };

    /// Writes what the writer takes of the piece. A writer that tells its bytes has gained just those.
    fn write(&mut self, piece: &[u8]) -> Result<usize, Failed>
        ensures bound { IfOk result (λ n. n ≤ length piece.now) }
        ensures some { IfOk result (λ n. 0 < length piece.now → 0 < n) }
        ensures bytes { WriteAppends self.old.contents self.new.contents result piece.now }
        ensures cause { Counts self.old.faults self.new.faults result }
    {
        match self.writer.write(piece) {
            Ok(0) if !piece.is_empty() => {
                self.count_fault();
                Err(Failed)
            }
            Ok(count) => Ok(count),
            Err(_) => {
                self.count_fault();
                Err(Failed)
            }
        }
    }
}
