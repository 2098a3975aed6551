//! How a run that is shown ends.
ghost use Rattle.std.specs.Prelude.{◌≡◌, IfOk};
ghost use Rattle.std.specs.String.{string_bytes};
ghost use Rattle.asm_syntax.specs.code.Views.{spec_of};
ghost use Rattle.asm_reader.specs.ScriptLines.{Script};
ghost use Rattle.asm_reader.specs.ScriptText.{IsScript};
ghost use Rattle.asm_explore.specs.Search.{steps_to};
ghost use Rattle.asm_run.specs.Headline.{IsAccepted, book_run};
ghost use Rattle.asm_run.specs.Written.{names_in};
ghost use Rattle.asm_explore_report.specs.EndWords.{IsEndWords};
ghost use Rattle.asm_explore_report.specs.FaultWords.{EndsBy};
ghost use Rattle.asm_explore_report.specs.RunEnds.{IsEndOf, IsTraceOf};
ghost use Rattle.asm_explore_report.specs.code.ShownFaults.{shows_fault};

use crate::ended::{EndedRun, ended_run};
use crate::shown_run::{ShownRun, run_of};
use asm_check::Checked;
use asm_explore::{BadRun, Fault as StepFault};
use asm_explore_words::fault::Unshown;
use asm_reader::{one_script, one_tree};
use asm_run::end::End;
use asm_run::error::RunError;
use std::alloc::Global;
use std::thread::Threads;

/// Whether a run that ends so shows such a fault of this step.
fn shows(end: &End, fault: StepFault, step: u64) -> bool
    ensures { result ≡ shows_fault fault step end.now }
{
    match fault {
        StepFault::Exhausted => match end {
            End::Exhausted { step: last, .. } => *last == step,
            End::Limit | End::Clash { .. } | End::Outside { .. } => false,
        },
        StepFault::Inconsistent => match end {
            End::Clash { step: last, .. } | End::Outside { step: last, .. } => *last == step,
            End::Limit | End::Exhausted { .. } => false,
        },
        StepFault::Wrong | StepFault::Deadlock => matches!(end, End::Limit),
    }
}

/// How the run that is shown ends.
pub(crate) fn made<R: Threads + Sync>(
    rt: &R,
    alloc: Global,
    text: &[u8],
    turns: u32,
    run: ShownRun<'_>,
) -> Result<EndedRun, Unshown>
    ensures end { IfOk result (λ ended. IsEndOf text.now run.entry.script.now turns run.entry.steps ended.end) }
    ensures trace { IfOk result (λ ended. IsTraceOf text.now run.entry.script.now turns run.entry.steps ended.trace.items) }
{
    let Ok(steps) = u32::try_from(run.steps) else {
        return Err(Unshown::Unconfirmed);
    };
    match ended_run(rt, alloc, text, run.script, turns, steps) {
        Ok(ended) => Ok(ended),
        Err(RunError::Memory | RunError::Write) => Err(Unshown::Memory),
        Err(_) => Err(Unshown::Unconfirmed),
    }
}

/// The words for the end of the run under the script that was found, over the specification of the
/// text. The run ends as it was found to.
pub(crate) fn end_words<R: Threads + Sync>(
    rt: &R,
    alloc: Global,
    text: &[u8],
    checked: &Checked,
    turns: u32,
    bad: &BadRun,
) -> Result<Vec<u8>, Unshown>
    ensures { let s = spec_of checked.now.spec in
        IsAccepted text.now s → (script : Script) → IsScript (string_bytes bad.now.script) script →
        let end = (book_run s turns script (steps_to bad.now.fault bad.now.step)).end in
        IfOk result (λ words. EndsBy bad.now.fault bad.now.step end × IsEndWords (names_in s) end words.items) }
{
    one_tree();
    one_script();
    let ended = made(rt, alloc, text, turns, run_of(bad))?;
    if !shows(&ended.end, bad.fault, bad.step) {
        return Err(Unshown::Unconfirmed);
    }
    let words = ended.words(alloc, checked)?;
    Ok(words)
}
