//! What is printed of the assignments by which a run ends.
ghost use Rattle.std.specs.Prelude.{◌≡◌, ◌+◌, ◌≤◌, ℕ, List, length, min, IfErr, IfOk};
ghost use Rattle.asm_syntax.specs.SourceTree.{Spec, Term as SourceTerm};
ghost use Rattle.asm_syntax.specs.code.Views.{spec_of};
ghost use Rattle.asm_reader.specs.ScriptLines as lines;
ghost use Rattle.asm_reader.specs.ScriptText.{IsScript};
ghost use Rattle.asm_run.specs.Headline.{IsAccepted};
ghost use Rattle.asm_run.specs.Written.{names_in};
ghost use Rattle.asm_explore_texts.specs.Comments.{lines_of};
ghost use Rattle.asm_explore_report.specs.BrokenRuns.{HoldBefore, IsFirstBroken};
ghost use Rattle.asm_explore_words.specs.declared.settings.RunSettings.{RunSettings as Settings};
ghost use Rattle.asm_explore_run.specs.ClashText.{IsClashText, greatest_shown};
ghost use Rattle.asm_explore_run.specs.RunReport.{ExplainsRun, IsBrokenClash, IsClashReported, IsWholeClash, assignments_in, count_in};
ghost use Rattle.asm_explore_run.specs.code.EndStatuses.{clash_status};

use crate::asked_end::broken_of;
use crate::clash_text::{MAX_SHOWN, clash_text};
use crate::run_end::{ToldEnd, told_end};
use asm_check::Checked;
use asm_clash::assignment::Assignment;
use asm_clash::clash::{ClashOfRun, clash_of_run};
use asm_explore::Fault as StepFault;
use asm_explore_report::broken_run::BrokenState;
use asm_explore_report::checked_text::checked;
use asm_explore_report::first_line::of_fault;
use asm_explore_report::report::Report;
use asm_explore_texts::comment::comments;
use asm_explore_texts::conditions::Condition;
use asm_explore_texts::script_given::script_given;
use asm_explore_words::fault::{Fault, Unshown};
use asm_explore_words::settings::RunSettings;
use asm_reader::Script;
use std::alloc::{AllocError, Global};
use std::thread::Threads;

/// The status of a run that ends so.
fn status_of(clash: &ClashOfRun) -> u8
    ensures { result ≡ clash_status clash.now }
{
    match clash {
        ClashOfRun::Limit => 0,
        ClashOfRun::Exhausted { .. } | ClashOfRun::Faulty { .. } => 1,
    }
}

/// The assignments by which a run ends.
pub(crate) fn assignments(clash: &ClashOfRun) -> &[Assignment]
    ensures { result.now ≡ assignments_in clash.now }
{
    match clash {
        ClashOfRun::Faulty { assignments, .. } => assignments.as_slice(),
        ClashOfRun::Limit | ClashOfRun::Exhausted { .. } => &[],
    }
}

/// How many assignments there are by which a run ends.
pub(crate) fn count_of(clash: &ClashOfRun) -> u64
    ensures { result ≡ count_in clash.now }
{
    match clash {
        ClashOfRun::Faulty { count, .. } => *count,
        ClashOfRun::Limit | ClashOfRun::Exhausted { .. } => 0,
    }
}

/// What is printed of a run that ends so.
fn printed(
    alloc: Global,
    text: &[u8],
    checked: &Checked,
    clash: &ClashOfRun,
    told: &ToldEnd,
) -> Result<Vec<u8>, AllocError>
    requires { length (assignments_in clash.now) ≡ min greatest_shown (count_in clash.now) }
    ensures { let names = names_in (spec_of checked.now.spec) in
        IfOk result (λ printed. IsClashText text.now names told.now.end told.now.line.items (assignments_in clash.now) (count_in clash.now) printed.items) }
{
    let first = told.line.as_slice();
    let found = assignments(clash);
    let count = count_of(clash);
    let text = clash_text(alloc, text, checked, first, &told.end, found, count)?;
    Ok(text)
}

/// What is printed of a run up to a state in which a condition isn't true.
fn of_broken_run(alloc: Global, broken: BrokenState) -> Result<Report, AllocError>
    ensures { (tree : Spec) (terms : List SourceTerm) (script : lines.Script) (settings : Settings) →
        broken.steps ≤ settings.steps → IsFirstBroken tree terms settings.turns script broken.steps broken.told.words.items (lines_of broken.told.because.items) →
        IfOk result (λ report. IsBrokenClash tree terms script settings report) }
{
    let BrokenState { steps, told } = broken;
    let first = of_fault(
        alloc,
        StepFault::Wrong,
        u64::from(steps),
        told.words.as_slice(),
    )?;
    let text = comments(alloc, first.as_slice(), told.because.as_slice())?;
    Ok(Report { text, status: 1 })
}

/// What is printed of a run in which each condition is true.
fn of_whole_run<R: Threads + Sync>(
    rt: &R,
    alloc: Global,
    text: &[u8],
    checked: &Checked,
    script_text: &[u8],
    script: &Script,
    settings: &RunSettings<'_>,
) -> Result<Report, Unshown>
    requires accepted { IsAccepted text.now (spec_of checked.now.spec) }
    requires spelled { IsScript script_text.now script.now }
    ensures { let s = spec_of checked.now.spec in (terms : List SourceTerm) → HoldBefore s terms settings.now.turns script.now (settings.now.steps + 1) →
        IfOk result (λ report. IsWholeClash s terms script.now settings.now report text.now) }
{
    let (turns, steps) = (settings.turns, settings.steps);
    let clash = clash_of_run(alloc, checked, turns, script, steps, MAX_SHOWN)?;
    let told = told_end(rt, alloc, text, checked, script_text, settings)?;
    let text = printed(alloc, text, checked, &clash, &told)?;
    let status = status_of(&clash);
    Ok(Report { text, status })
}

/// What is printed of the assignments by which the run of a specification ends.
fn report_of<'w, R: Threads + Sync>(
    rt: &R,
    alloc: Global,
    text: &[u8],
    checked: &Checked,
    script_text: &[u8],
    conditions: &[Condition<'w>],
    settings: &RunSettings<'w>,
) -> Result<Report, Fault<'w>>
    requires accepted { IsAccepted text.now (spec_of checked.now.spec) }
    ensures reported { IfOk result (IsClashReported text.now script_text.now conditions.now settings.now) }
    ensures explained { IfErr result (ExplainsRun text.now script_text.now conditions.now settings.now) }
{
    let script = script_given(alloc, script_text, settings)?;
    match broken_of(alloc, checked, &script, conditions, settings)? {
        Some(broken) => Ok(of_broken_run(alloc, broken)?),
        None => {
            let script = &script;
            let report = of_whole_run(rt, alloc, text, checked, script_text, script, settings)?;
            Ok(report)
        }
    }
}

/// What is printed of the assignments by which the run ends that the settings ask for; or that one
/// of the conditions isn't true in one of its states, the first such.
pub fn clash_report<'w, R: Threads + Sync>(
    rt: &R,
    alloc: Global,
    text: &[u8],
    script_text: &[u8],
    conditions: &[Condition<'w>],
    settings: &RunSettings<'w>,
) -> Result<Report, Fault<'w>>
    ensures reported { IfOk result (IsClashReported text.now script_text.now conditions.now settings.now) }
    ensures explained { IfErr result (ExplainsRun text.now script_text.now conditions.now settings.now) }
{
    let checked = checked(alloc, text, settings.spec)?;
    let report = report_of(rt, alloc, text, &checked, script_text, conditions, settings);
    drop(checked);
    report
}
