//! How a run ends that is shown as a table.
ghost use Rattle.std.specs.Prelude.{◌≡◌, ◌+◌, ◌≤◌, ℕ, List, IfOk, IfErr};
ghost use Rattle.asm_syntax.specs.SourceTree.{Spec, Term as SourceTerm};
ghost use Rattle.asm_syntax.specs.code.Views.{spec_of};
ghost use Rattle.asm_reader.specs.ScriptLines as lines;
ghost use Rattle.asm_reader.specs.ScriptText.{IsScript};
ghost use Rattle.asm_meaning.specs.Run.{End as RunEnd};
ghost use Rattle.asm_run.specs.Headline.{IsAccepted, IsReturned};
ghost use Rattle.asm_explore_texts.specs.Comments.{lines_of};
ghost use Rattle.asm_explore_report.specs.BrokenRuns.{HoldBefore, IsFirstBroken};
ghost use Rattle.asm_explore_run.specs.AskedRun.{is_fault};
ghost use Rattle.asm_explore_run.specs.ShownRun.{IsShownEnd, steps_made};
ghost use Rattle.asm_explore_run.specs.code.AskedEnds.{IsFoundOf};
ghost use Rattle.asm_explore_run.specs.code.ShownEnds.{end_said};

use crate::asked_end::ends_by_fault;
use crate::run_end::ended;
use crate::shown_assignments::assignments_shown;
use asm_check::Checked;
use asm_explore::Fault;
use asm_explore_report::broken_run::BrokenState;
use asm_explore_report::first_line::of_fault;
use asm_explore_words::fault::Unshown;
use asm_explore_words::settings::RunSettings;
use asm_reader::{Script, one_script, one_tree};
use asm_run::end::End;
use std::alloc::{AllocError, Global};
use std::thread::Threads;

/// How a run ends that is shown.
#[derive(Drop)]
pub(crate) struct ShownEnd {
    /// In a line.
    pub(crate) first: Vec<u8>,
    /// If a condition isn't true, why: a line behind the first.
    pub(crate) because: Vec<Vec<u8>>,
    /// After this many steps, or in the step with this number.
    pub(crate) steps: u32,
    /// The lines of the assignments by which it does.
    pub(crate) assignments: Vec<Vec<u8>>,
    /// Whether that is a fault.
    pub(crate) is_fault: bool,
}

/// How many steps are shown of a run that ends so, of at most so many.
fn steps_of(end: &End, steps: u32) -> Result<u32, Unshown>
    ensures { (e : RunEnd) → IsReturned e end.now → IfOk result (λ made. made ≡ steps_made steps e) }
{
    let Some(step) = end.step() else {
        return Ok(steps);
    };
    match u32::try_from(step) {
        Ok(step) => Ok(step),
        Err(_) => Err(Unshown::Unconfirmed),
    }
}

/// The end of a run that is shown up to a state in which a condition isn't true.
fn broken_end(alloc: Global, broken: BrokenState) -> Result<ShownEnd, AllocError>
    ensures { (text : List ℕ) (tree : Spec) (terms : List SourceTerm) (turns : ℕ) (script : lines.Script) (steps : ℕ) →
        broken.steps ≤ steps → IsFirstBroken tree terms turns script broken.steps broken.told.words.items (lines_of broken.told.because.items) →
        IfOk result (λ end. IsShownEnd text tree terms turns script steps (end_said end)) }
{
    let BrokenState { steps, told } = broken;
    let first = of_fault(alloc, Fault::Wrong, u64::from(steps), told.words.as_slice())?;
    Ok(ShownEnd {
        first,
        because: told.because,
        steps,
        assignments: Vec::new(alloc),
        is_fault: true,
    })
}

/// The end of a run that is shown up to its end, since no condition is found that isn't true.
fn whole_end<R: Threads + Sync>(
    rt: &R,
    alloc: Global,
    text: &[u8],
    checked: &Checked,
    script_text: &[u8],
    script: &Script,
    settings: &RunSettings<'_>,
) -> Result<ShownEnd, Unshown>
    requires accepted { IsAccepted text.now (spec_of checked.now.spec) }
    requires spelled { IsScript script_text.now script.now }
    ensures { let s = spec_of checked.now.spec in (terms : List SourceTerm) → HoldBefore s terms settings.now.turns script.now (settings.now.steps + 1) →
        IfOk result (λ end. IsShownEnd text.now s terms settings.now.turns script.now settings.now.steps (end_said end)) }
{
    one_tree();
    one_script();
    let (turns, limit) = (settings.turns, settings.steps);
    let ended = ended(rt, alloc, text, script_text, turns, limit)?;
    let first = ended.line(alloc, checked, limit)?;
    let assignments = assignments_shown(alloc, text, checked, script, turns, limit, &ended.end)?;
    let steps = steps_of(&ended.end, limit)?;
    Ok(ShownEnd {
        first,
        because: Vec::new(alloc),
        steps,
        assignments,
        is_fault: ends_by_fault(&ended.end),
    })
}

/// The end of a run that is shown, of which this is found of conditions.
pub(crate) fn shown_end<R: Threads + Sync>(
    rt: &R,
    alloc: Global,
    text: &[u8],
    checked: &Checked,
    script_text: &[u8],
    script: &Script,
    settings: &RunSettings<'_>,
    broken: Option<BrokenState>,
) -> Result<ShownEnd, Unshown>
    requires accepted { IsAccepted text.now (spec_of checked.now.spec) }
    requires spelled { IsScript script_text.now script.now }
    ensures { let s = spec_of checked.now.spec in (asked : List (List ℕ)) (terms : List SourceTerm) → IsFoundOf s asked settings.now.turns script.now settings.now.steps terms broken →
        IfOk result (λ end. IsShownEnd text.now s terms settings.now.turns script.now settings.now.steps (end_said end)) }
{
    match broken {
        Some(broken) => {
            let end = broken_end(alloc, broken)?;
            Ok(end)
        }
        None => {
            let end = whole_end(rt, alloc, text, checked, script_text, script, settings)?;
            Ok(end)
        }
    }
}
