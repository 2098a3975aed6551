//! A sink over a writer.
//!
//! One write to the sink is one write to the writer, which may take less than it is given.
//! `write_all` writes on until all is taken.
ghost use Rattle.std.specs.Prelude.{◌≡◌, IsFalse, ◌||◌};
ghost use Rattle.std.specs.Io.{WritesAtMost};
ghost use Rattle.std.specs.Io.KnownBytes.{WriteAppends};
ghost use Rattle.asm_run.specs.Sink.{is_failure};
ghost use Rattle.asm_run.specs.Through.{writer_of, writer_has_failed};

use crate::sink::{Sink, SinkFault};
use std::io::Write;

/// A writer, and whether a write to it has failed.
#[derive(Drop)]
pub struct Through<W> {
    writer: W,
    has_failed: bool,
}

impl<W> Through<W> {
    pub fn new(writer: W) -> Through<W>
        ensures writer { writer_of result ≡ writer }
        ensures fresh { IsFalse (writer_has_failed result) }
    {
        Through {
            writer,
            has_failed: false,
        }
    }

    pub fn get_ref(&self) -> &W
        ensures { result.now ≡ writer_of self.now }
    {
        &self.writer
    }

    pub fn into_inner(self) -> W
        ensures { result ≡ writer_of self }
    {
        self.writer
    }

    pub fn has_failed(&self) -> bool
        ensures { result ≡ writer_has_failed self.now }
    {
        self.has_failed
    }
}

impl<W: Write> Sink for Through<W> {
    ghost bytes = { λ t. W.contents (writer_of t) };

    ghost has_failed = { λ t. writer_has_failed t };

    fn write(&mut self, piece: &[u8]) -> Result<usize, SinkFault> {
        match self.writer.write(piece) {
            Ok(0) if !piece.is_empty() => {
                self.has_failed = true;
                Ok(0)
            }
            Ok(taken) => Ok(taken),
            Err(_) => {
                self.has_failed = true;
                Err(SinkFault)
            }
        }
    }
}
