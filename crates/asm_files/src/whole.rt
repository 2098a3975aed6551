//! A whole text on its way to a sink.
ghost use Rattle.std.specs.Prelude.{IsErr, IsTrue, OnErr, OnOk};
ghost use Rattle.std.specs.Io.KnownBytes.{Appends};
ghost use Rattle.asm_run.specs.Sink.{AppendsFront};

use asm_run::sink::{Sink, SinkFault};

/// Writes the whole text, in as many pieces as the sink takes.
#[tactic(auto, using(crate::proofs::Appending::appending))]
pub fn write_whole<E: Sink>(sink: &mut E, text: &[u8]) -> Result<(), SinkFault>
    ensures whole { OnOk result (Appends (E.bytes sink.old) (E.bytes sink.new) text.now) }
    ensures cut { OnErr result (AppendsFront (E.bytes sink.old) (E.bytes sink.new) text.now) }
    ensures failed { IsErr result → IsTrue (E.has_failed sink.new) }
{
    let mut written = 0;
    while written < text.len() {
        match sink.write(&text[written..])? {
            0 => return Err(SinkFault),
            taken => written += taken,
        }
    }
    Ok(())
}
