//! An output behind a buffer, that remembers whether it has failed.
ghost use Rattle.std.specs.Prelude.{◌≡◌, ◌==◌, ◌||◌, Bool, is_err, length, IsTrue, IsFalse, IfOk};
ghost use Rattle.std.specs.Io.Buffered.{writer_buffer};
ghost use Rattle.std.specs.Io.KnownBytes.{Keeps, WriteAppends};
ghost use Rattle.std.specs.Io.{WritesAtMost};
ghost use Rattle.asm_run.specs.Sink.{is_failure};
ghost use Rattle.asm_files.specs.Output.{output_bytes, output_has_failed};

use asm_run::sink::{Sink, SinkFault};
pub use asm_run::through::Through;
use std::alloc::{AllocError, Global};
use std::io::{BufWriter, Write};

/// This many bytes are written at a time.
const BUFFER_BYTES: usize = 1 << 16;

/// A sink that may keep back what it took.
pub trait Finish: Sink {
    // Whether nothing is kept back.
    ghost is_finished: { Self → Bool };

    /// Hands on what is kept back. The sink has failed if this can't be done.
    fn finish(&mut self) -> Result<(), SinkFault>
        ensures finished { IfOk result (λ _. IsTrue (is_finished self.new)) }
        ensures kept { Keeps (Self.bytes self.old) (Self.bytes self.new) }
        ensures failed { Self.has_failed self.new ≡ (Self.has_failed self.old || is_err result) };
}

/// A writer behind a buffer, and whether a write to it has failed, or what the buffer kept could not
/// be handed on.
#[derive(Drop)]
pub struct Output<W: Write + Drop> {
    writer: BufWriter<W>,
    has_failed: bool,
}

impl<W: Write + Drop> Sink for Output<W> {
    ghost bytes = { λ o. output_bytes W.contents o };

    ghost has_failed = { λ o. output_has_failed o };

    fn write(&mut self, piece: &[u8]) -> Result<usize, SinkFault> {
        match self.writer.write(piece) {
            Ok(0) if !piece.is_empty() => {
                self.has_failed = true;
                Ok(0)
            }
            Ok(taken) => Ok(taken),
            Err(_) => {
                self.has_failed = true;
                Err(SinkFault)
            }
        }
    }
}

impl<W: Write + Drop> Finish for Output<W> {
    ghost is_finished = { λ o. length (writer_buffer o.writer) == 0 };

    fn finish(&mut self) -> Result<(), SinkFault> {
        match self.writer.flush() {
            Ok(()) => Ok(()),
            Err(_) => {
                self.has_failed = true;
                Err(SinkFault)
            }
        }
    }
}

/// A buffer in front of this writer.
pub fn buffered<W: Write + Drop>(alloc: Global, writer: W) -> Result<Output<W>, AllocError>
    ensures fresh { IfOk result (λ o. IsFalse (output_has_failed o)) }
    ensures bytes { IfOk result (λ o. Keeps (W.contents writer) (output_bytes W.contents o)) }
{
    match BufWriter::with_capacity(alloc, BUFFER_BYTES, writer) {
        Ok(writer) => Ok(Output {
            writer,
            has_failed: false,
        }),
        Err(_) => Err(AllocError),
    }
}
