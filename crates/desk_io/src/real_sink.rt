// A sink over a writer of the system: the edge for text.
ghost use Rattle.std.specs.Prelude.{◌≡◌};

use crate::desk::DeskFault;
use crate::sink::Sink;
use crate::system::write_some;
use std::io::Write;

/// A writer that passes its bytes on at once, as standard output and the error stream do. It tells
/// what the writer tells of its contents. The system's streams tell nothing. A write that takes
/// none of some bytes is a fault.
#[derive(Drop)]
pub struct RealSink<W: Write> {
    writer: W,
    faults: u64,
}

impl<W: Write> RealSink<W> {
    /// A sink over this writer, with no fault counted.
    pub fn new(writer: W) -> RealSink<W>
        ensures { (⟦<RealSink<W> as Sink>⟧.state result).faults ≡ 0 }
    {
        RealSink { writer, faults: 0 }
    }
}

impl<W: Write> Sink for RealSink<W> {
    ghost state = { λ sink. record { bytes = W.contents sink.writer; faults = sink.faults } };

    fn write(&mut self, piece: &[u8]) -> Result<usize, DeskFault> {
        write_some(&mut self.writer, piece, &mut self.faults)
    }
}
