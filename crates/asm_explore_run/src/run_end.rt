//! How a run ends, and that which the settings of `choices`, `clash` and `show` ask for.
ghost use Rattle.std.specs.Prelude.{IfOk};
ghost use Rattle.asm_syntax.specs.code.Views.{spec_of};
ghost use Rattle.asm_reader.specs.ScriptLines as lines;
ghost use Rattle.asm_reader.specs.ScriptText.{IsScript};
ghost use Rattle.asm_run.specs.Headline.{IsAccepted, IsReturned};
ghost use Rattle.asm_run.specs.Written.{names_in};
ghost use Rattle.asm_explore_report.specs.EndWords.{IsRunLine};
ghost use Rattle.asm_explore_report.specs.RunEnds.{IsEndOf};
ghost use Rattle.asm_explore_run.specs.RunReport.{run_asked};

use asm_check::Checked;
use asm_explore_report::ended::{EndedRun, ended_run};
use asm_explore_words::fault::Unshown;
use asm_explore_words::settings::RunSettings;
use asm_reader::{one_script, one_tree};
use asm_run::end::End;
use asm_run::error::RunError;
use std::alloc::Global;
use std::thread::Threads;

/// How a run ends, and a line that says so.
#[derive(Drop)]
pub(crate) struct ToldEnd {
    pub(crate) end: End,
    pub(crate) line: Vec<u8>,
}

/// How the run of the specification with this text under the script with that one ends, of at most
/// `steps` steps.
pub(crate) fn ended<R: Threads + Sync>(
    rt: &R,
    alloc: Global,
    text: &[u8],
    script: &[u8],
    turns: u32,
    steps: u32,
) -> Result<EndedRun, Unshown>
    ensures { IfOk result (λ ended. IsEndOf text.now script.now turns steps ended.end) }
{
    match ended_run(rt, alloc, text, script, turns, steps) {
        Ok(ended) => Ok(ended),
        Err(RunError::Memory | RunError::Write) => Err(Unshown::Memory),
        Err(_) => Err(Unshown::Unconfirmed),
    }
}

/// How the run of a specification ends that the settings ask for, and a line that says so.
pub(crate) fn told_end<R: Threads + Sync>(
    rt: &R,
    alloc: Global,
    text: &[u8],
    checked: &Checked,
    script_text: &[u8],
    settings: &RunSettings<'_>,
) -> Result<ToldEnd, Unshown>
    requires { IsAccepted text.now (spec_of checked.now.spec) }
    ensures { let s = spec_of checked.now.spec in (script : lines.Script) → IsScript script_text.now script →
        IfOk result (λ told. IsReturned (run_asked s settings.now script).end told.end
        × IsRunLine (names_in s) settings.now.steps (run_asked s settings.now script).end told.line.items) }
{
    one_tree();
    one_script();
    let (turns, steps) = (settings.turns, settings.steps);
    let ended = ended(rt, alloc, text, script_text, turns, steps)?;
    let line = ended.line(alloc, checked, steps)?;
    let end = ended.end;
    Ok(ToldEnd { end, line })
}
