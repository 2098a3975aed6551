//! The sink that a trace is written to.
ghost use Rattle.std.specs.Prelude.{◌≡◌, ℕ, Bool, List, Option, ◌||◌};
ghost use Rattle.std.specs.Io.{WritesAtMost};
ghost use Rattle.std.specs.Io.KnownBytes.{WriteAppends};
ghost use Rattle.asm_run.specs.Sink.{is_failure};

/// A write failed.
#[derive(Clone, Copy, Debug, PartialEq, Eq)]
pub struct SinkFault;

/// Takes bytes, a piece at a time, and remembers whether it has failed.
pub trait Sink {
    // The bytes that the sink holds, if they are known.
    ghost bytes: { Self → Option (List ℕ) };

    // Whether a write to it has failed.
    ghost has_failed: { Self → Bool };

    /// Takes the front of the piece and returns how many bytes that were.
    fn write(&mut self, piece: &[u8]) -> Result<usize, SinkFault>
        ensures within { WritesAtMost result piece.now }
        ensures bytes { WriteAppends (bytes self.old) (bytes self.new) result piece.now }
        ensures failed { has_failed self.new ≡ (has_failed self.old || is_failure result piece.now) };
}
