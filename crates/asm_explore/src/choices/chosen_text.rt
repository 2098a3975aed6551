//! The text of the script that a run needs.
ghost use Rattle.std.specs.Prelude.{IfNone, IfOk, IfSome};
ghost use Rattle.std.specs.String.{string_bytes};
ghost use Rattle.asm_syntax.specs.code.Views.{spec_of};
ghost use Rattle.asm_meaning.specs.Declarations.{specification_of};
ghost use Rattle.asm_explore.specs.ChosenLines.{AreTooLong, IsChosenText, chosen_lines};
ghost use Rattle.asm_explore.specs.code.ResolvedConditions.{IsSpecified};

use crate::choices::made_choices::made_by_run;
use crate::choices::run_choices::lines_of_run;
use crate::resolved_question::ResolvedQuestion;
use crate::scripts::script_line::Zeros;
use crate::scripts::writing::script_text;
use asm_reader::Picks;
use asm_syntax::InputError;
use std::alloc::{AllocError, Global};

/// The text of the script that the run of at most `steps` steps under another script needs: with a
/// line for each choice that it makes, unless it takes the first candidate. The run under it is the
/// same. There is none if the lines are too long for a script.
pub fn chosen_text<P: Picks>(
    alloc: Global,
    specified: &ResolvedQuestion<'_>,
    script: &P,
    steps: u32,
) -> Result<Option<String>, AllocError>
    requires { IsSpecified specified.now }
    ensures some { let m = specified.now in
        IfOk result (λ found. IfSome found (λ text. IsChosenText (specification_of (spec_of m.checked.now.spec)) m.turns (P.script script.now) steps (string_bytes text))) }
    ensures none { let m = specified.now in
        IfOk result (λ found. IfNone found (AreTooLong (chosen_lines (specification_of (spec_of m.checked.now.spec)) m.turns (P.script script.now) steps))) }
{
    let (checked, turns) = (specified.checked, specified.turns);
    let made = made_by_run(alloc, checked, specified.code, turns, script, steps)?;
    let lines = lines_of_run(alloc, &made)?;
    match script_text(alloc, lines.as_slice(), Zeros::LeftOut) {
        Ok(text) => Ok(Some(text)),
        Err(InputError::Memory) => Err(AllocError),
        Err(InputError::Named(_)) => Ok(None),
    }
}
