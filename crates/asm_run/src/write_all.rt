//! Writing a whole text.
ghost use Rattle.std.specs.Prelude.{◌↔◌, IsTrue, IsFalse, IsErr, OnOk, OnErr};
ghost use Rattle.std.specs.Io.KnownBytes.{Appends};
ghost use Rattle.asm_run.specs.Sink.{AppendsFront};

use crate::sink::{Sink, SinkFault};

/// Writes the whole text, in as many pieces as the sink takes.
#[tactic(auto, using(crate::proofs::TextLemmas::Appending::appending))]
pub(crate) fn write_all<S: Sink>(out: &mut S, text: &[u8]) -> Result<(), SinkFault>
    requires { IsFalse (S.has_failed out.old) }

    ensures whole { OnOk result (Appends (S.bytes out.old) (S.bytes out.new) text.now) }
    ensures cut { OnErr result (AppendsFront (S.bytes out.old) (S.bytes out.new) text.now) }
    ensures failed { IsTrue (S.has_failed out.new) ↔ IsErr result }
{
    let mut written = 0;
    while written < text.len() {
        match out.write(&text[written..])? {
            0 => return Err(SinkFault),
            taken => written += taken,
        }
    }
    Ok(())
}
