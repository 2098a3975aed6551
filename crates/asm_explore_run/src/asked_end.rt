//! How a run ends of which conditions are asked.
ghost use Rattle.std.specs.Prelude.{◌≡◌, ◌+◌, ◌≤◌, ℕ, false, true, List, IfErr, IfOk};
ghost use Rattle.asm_syntax.specs.SourceTree.{Spec, Term as SourceTerm};
ghost use Rattle.asm_syntax.specs.code.Views.{spec_of};
ghost use Rattle.asm_reader.specs.ScriptLines as lines;
ghost use Rattle.asm_reader.specs.ScriptText.{IsScript};
ghost use Rattle.asm_meaning.specs.Run.{End as RunEnd};
ghost use Rattle.asm_run.specs.Headline.{IsAccepted, IsReturned};
ghost use Rattle.asm_explore_texts.specs.Comments.{lines_of};
ghost use Rattle.asm_explore_texts.specs.Conditions.{AreAskedOf, texts_of};
ghost use Rattle.asm_explore_texts.specs.RefusedTexts.{ExplainsText, IsOneRefused};
ghost use Rattle.asm_explore_report.specs.BrokenRuns.{HoldBefore, IsFirstBroken};
ghost use Rattle.asm_explore_run.specs.AskedRun.{IsAskedEnd, is_fault, run_status};
ghost use Rattle.asm_explore_run.specs.RunReport.{ExplainsRun};
ghost use Rattle.asm_explore_run.specs.code.AskedEnds.{IsFirstBrokenAsked};

use crate::run_end::told_end;
use asm_check::Checked;
use asm_explore::Fault as StepFault;
use asm_explore_report::broken_run::{BrokenState, first_broken};
use asm_explore_report::checked_text::all_asked;
use asm_explore_report::fault_words::Subject;
use asm_explore_report::first_line::of_fault;
use asm_explore_report::laws::all_asked_law;
use asm_explore_texts::conditions::Condition;
use asm_explore_words::fault::{Fault, Unshown};
use asm_explore_words::settings::RunSettings;
use asm_reader::Script;
use asm_run::end::End;
use std::alloc::{AllocError, Global};
use std::thread::Threads;

/// How a run ends of which conditions are asked.
#[derive(Drop)]
pub(crate) struct AskedEnd {
    /// In a line.
    pub(crate) first: Vec<u8>,
    /// If a condition isn't true, why: a line behind the first.
    pub(crate) because: Vec<Vec<u8>>,
    /// The run is looked at up to this many steps.
    pub(crate) steps: u32,
    /// Whether it ends by a fault.
    pub(crate) is_fault: bool,
}

/// The status of a run, if it has a fault, and else if all lines of its script are met.
pub(crate) fn status_of(is_fault: bool, unmet: &[Vec<u8>]) -> u8
    ensures { result ≡ run_status is_fault (lines_of unmet.now) }
{
    match (is_fault, unmet) {
        (true, _) => 1,
        (false, []) => 0,
        (false, _) => 6,
    }
}

/// Whether a run that ends so ends by a fault.
pub(crate) fn ends_by_fault(end: &End) -> bool
    ensures { (e : RunEnd) → IsReturned e end.now → result ≡ is_fault e }
{
    end.step().is_some()
}

/// The end of a run that is looked at up to a state in which a condition isn't true.
fn of_broken_run(alloc: Global, broken: BrokenState) -> Result<AskedEnd, AllocError>
    ensures { (tree : Spec) (terms : List SourceTerm) (turns : ℕ) (script : lines.Script) (steps : ℕ) →
        broken.steps ≤ steps → IsFirstBroken tree terms turns script broken.steps broken.told.words.items (lines_of broken.told.because.items) →
        IfOk result (λ end. IsAskedEnd tree terms turns script steps end.first.items (lines_of end.because.items) end.steps end.is_fault) }
{
    let BrokenState { steps, told } = broken;
    let first = of_fault(
        alloc,
        StepFault::Wrong,
        u64::from(steps),
        told.words.as_slice(),
    )?;
    Ok(AskedEnd {
        first,
        because: told.because,
        steps,
        is_fault: true,
    })
}

/// The end of a run in which each condition is true.
fn of_whole_run<R: Threads + Sync>(
    rt: &R,
    alloc: Global,
    text: &[u8],
    checked: &Checked,
    script_text: &[u8],
    settings: &RunSettings<'_>,
) -> Result<AskedEnd, Unshown>
    requires { IsAccepted text.now (spec_of checked.now.spec) }
    ensures { let s = spec_of checked.now.spec in (terms : List SourceTerm) (script : lines.Script) → IsScript script_text.now script →
        HoldBefore s terms settings.now.turns script (settings.now.steps + 1) →
        IfOk result (λ end. IsAskedEnd s terms settings.now.turns script settings.now.steps end.first.items (lines_of end.because.items) end.steps end.is_fault) }
{
    let told = told_end(rt, alloc, text, checked, script_text, settings)?;
    let is_fault = ends_by_fault(&told.end);
    Ok(AskedEnd {
        first: told.line,
        because: Vec::new(alloc),
        steps: settings.steps,
        is_fault,
    })
}

/// The first state of the run in which one of the conditions isn't true.
pub(crate) fn broken_of<'w>(
    alloc: Global,
    checked: &Checked,
    script: &Script,
    conditions: &[Condition<'w>],
    settings: &RunSettings<'_>,
) -> Result<Option<BrokenState>, Fault<'w>>
    ensures found { IfOk result (IsFirstBrokenAsked (spec_of checked.now.spec) (texts_of conditions.now) settings.now.turns script.now settings.now.steps) }
    ensures refused { IfErr result (ExplainsText (IsOneRefused (spec_of checked.now.spec) conditions.now)) }
{
    all_asked_law();
    let always = all_asked(alloc, checked, conditions)?;
    let subject = Subject {
        checked,
        always: &always,
        turns: settings.turns,
    };
    let broken = first_broken(alloc, &subject, script, settings.steps)?;
    Ok(broken)
}

/// How the run ends that the settings ask for, and of which these conditions are asked: it is looked
/// at up to the first state in which one of them isn't true.
pub(crate) fn asked_end<'w, R: Threads + Sync>(
    rt: &R,
    alloc: Global,
    text: &[u8],
    checked: &Checked,
    script_text: &[u8],
    script: &Script,
    conditions: &[Condition<'w>],
    settings: &RunSettings<'w>,
) -> Result<AskedEnd, Fault<'w>>
    requires accepted { IsAccepted text.now (spec_of checked.now.spec) }
    requires spelled { IsScript script_text.now script.now }
    ensures ended { let s = spec_of checked.now.spec in
        IfOk result (λ end. (terms : List SourceTerm) × AreAskedOf s (texts_of conditions.now) terms
        × IsAskedEnd s terms settings.now.turns script.now settings.now.steps end.first.items (lines_of end.because.items) end.steps end.is_fault) }
    ensures explained { IfErr result (ExplainsRun text.now script_text.now conditions.now settings.now) }
{
    match broken_of(alloc, checked, script, conditions, settings)? {
        Some(broken) => Ok(of_broken_run(alloc, broken)?),
        None => Ok(of_whole_run(rt, alloc, text, checked, script_text, settings)?),
    }
}
