//! The last lines of a run.
ghost use Rattle.std.specs.Prelude.{◌≡◌, ◌++◌, false, length};
ghost use Rattle.asm_state.specs.Signature.{count_of};
ghost use Rattle.asm_syntax.specs.code.Views.{spec_of};
ghost use Rattle.asm_check.specs.Shapes.{shape_of};
ghost use Rattle.asm_run.specs.Ends.{end_words_with};
ghost use Rattle.asm_run.specs.Trace.{at_step, end_line};
ghost use Rattle.asm_run.specs.Written.{contents_text, names_in};
ghost use Rattle.asm_run.specs.code.Step.{Finishes};

use crate::end::End;
use crate::end_words::push_end_line;
use crate::error::RunError;
use crate::sink::Sink;
use crate::trace::push_state;
use crate::write_all::write_all;
use asm_check::Checked;
use asm_state::state::State;
use std::alloc::Global;

/// Writes the lines for a run that ends so, in this state.
pub fn finish<S: Sink>(
    alloc: Global,
    text: &mut Vec<u8>,
    checked: &Checked,
    end: End,
    state: &State,
    out: &mut S,
) -> Result<End, RunError>
    requires open { S.has_failed out.old ≡ false }
    requires whole { length state.now ≡ count_of (shape_of (spec_of checked.now.spec)) }
    ensures { let s = spec_of checked.now.spec in
        Finishes (S.bytes out.old) (S.bytes out.new) (S.has_failed out.new) (end_line (end_words_with (names_in s) at_step end) ++ contents_text s state.now) end result }
{
    text.clear();
    push_end_line(text, checked, &end)?;
    push_state(alloc, text, checked, state)?;
    write_all(out, text.as_slice())?;
    Ok(end)
}
