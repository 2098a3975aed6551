//! Text on its way to an output.
ghost use Rattle.std.specs.Prelude.{IsErr, IsTrue, IfOk, OnErr, OnOk};
ghost use Rattle.std.specs.Io.KnownBytes.{Appends};
ghost use Rattle.asm_explore_tool.specs.Outputs.{AppendsUpTo};

use asm_files::output::Finish;
use asm_files::whole::write_whole;
use asm_run::sink::SinkFault;

/// Writes the whole text, and keeps nothing of it back.
pub(crate) fn written<O: Finish>(out: &mut O, text: &[u8]) -> Result<(), SinkFault>
    ensures whole { OnOk result (Appends (O.bytes out.old) (O.bytes out.new) text.now) }
    ensures finished { IfOk result (λ _. IsTrue (O.is_finished out.new)) }
    ensures begun { OnErr result (AppendsUpTo (O.bytes out.old) (O.bytes out.new) text.now) }
    ensures failed { IsErr result → IsTrue (O.has_failed out.new) }
{
    write_whole(out, text)?;
    out.finish()
}
