//! What is printed of the choices of a run.
ghost use Rattle.std.specs.Prelude.{◌≡◌, ◌⊎◌, IfErr, IfOk};
ghost use Rattle.asm_syntax.specs.code.Views.{spec_of};
ghost use Rattle.asm_meaning.specs.Scripts.{IsUnrepeated};
ghost use Rattle.asm_reader.specs.ExactLines.{exactly};
ghost use Rattle.asm_reader.specs.ScriptText.{IsScript};
ghost use Rattle.asm_explore.specs.RunChoices.{asked_in, choices_in, lines_forward};
ghost use Rattle.asm_explore_texts.specs.Comments.{lines_of};
ghost use Rattle.asm_explore_report.specs.Commented.{HasNoText};
ghost use Rattle.asm_run.specs.Headline.{IsAccepted};
ghost use Rattle.asm_run.specs.Written.{names_in};
ghost use Rattle.asm_explore_run.specs.AskedRun.{run_status};
ghost use Rattle.asm_explore_run.specs.ChoicesText.{IsChoicesText};
ghost use Rattle.asm_explore_run.specs.RunReport.{AreChoicesReported, ExplainsRun};
ghost use Rattle.asm_explore_run.specs.UnmetLines as unmet;

use crate::asked_end::{AskedEnd, asked_end, status_of};
use crate::choice_entries::entries;
use crate::unmet_lines::unmet_lines;
use asm_check::Checked;
use asm_explore::{RunChoices, choices_of_run, lines_of_run};
use asm_explore_report::checked_text::checked;
use asm_explore_report::commented::{commented_script, first_alone};
use asm_explore_report::report::Report;
use asm_explore_texts::conditions::Condition;
use asm_explore_texts::script_given::script_given;
use asm_explore_words::fault::Fault;
use asm_explore_words::settings::RunSettings;
use std::alloc::{AllocError, Global};
use std::thread::Threads;

/// No script has more lines than this: each has three bytes at least.
const MAX_LINES: usize = 349_525;

/// The script that makes the choices of a run, with its comments; or the first of them, where it
/// has no text. The lines are those of the run.
fn printed(
    alloc: Global,
    text: &[u8],
    checked: &Checked,
    first: &[u8],
    behind: &[Vec<u8>],
    run: &RunChoices,
    unmet: &[Vec<u8>],
) -> Result<Vec<u8>, AllocError>
    ensures text { let names = names_in (spec_of checked.now.spec) in
        IfOk result (λ printed. IsChoicesText text.now names first.now (lines_of behind.now) (asked_in run.now) (lines_forward (choices_in run.now)) (lines_of unmet.now) printed.items) }
    ensures says { IsUnrepeated (exactly (lines_forward (choices_in run.now))) → IfOk result (λ text. IsScript text.items (exactly (lines_forward (choices_in run.now)))
        ⊎ HasNoText first.now (lines_forward (choices_in run.now))) }
{
    let lines = lines_of_run(alloc, run)?;
    if lines.len() > MAX_LINES {
        return first_alone(alloc, first);
    }
    let entries = entries(alloc, text, checked, run)?;
    commented_script(alloc, first, behind, entries.as_slice(), unmet)
}

/// What is said of the lines of a script that name no choice of a run.
fn unmet_of(alloc: Global, script_text: &[u8], run: &RunChoices) -> Result<Vec<Vec<u8>>, AllocError>
    ensures { IfOk result (λ said. lines_of said.items ≡ unmet.unmet_lines script_text.now (lines_forward (choices_in run.now))) }
{
    let made = lines_of_run(alloc, run)?;
    unmet_lines(alloc, script_text, made.as_slice())
}

/// What is printed of the choices of a run that ends so.
fn reported(
    alloc: Global,
    text: &[u8],
    checked: &Checked,
    script_text: &[u8],
    run: &RunChoices,
    end: &AskedEnd,
) -> Result<Report, AllocError>
    ensures printed { let names = names_in (spec_of checked.now.spec) in let made = lines_forward (choices_in run.now) in
        IfOk result (λ report. IsChoicesText text.now names end.now.first.items (lines_of end.now.because.items) (asked_in run.now) made (unmet.unmet_lines script_text.now made) report.text.items) }
    ensures says { let made = lines_forward (choices_in run.now) in IsUnrepeated (exactly made) →
        IfOk result (λ report. IsScript report.text.items (exactly made) ⊎ HasNoText end.now.first.items made) }
    ensures status { IfOk result (λ report. report.status ≡ run_status end.now.is_fault (unmet.unmet_lines script_text.now (lines_forward (choices_in run.now)))) }
{
    let unmet = unmet_of(alloc, script_text, run)?;
    let (first, behind) = (end.first.as_slice(), end.because.as_slice());
    let left = unmet.as_slice();
    let text = printed(alloc, text, checked, first, behind, run, left)?;
    let status = status_of(end.is_fault, left);
    Ok(Report { text, status })
}

/// What is printed of the choices of the run of a specification that the settings ask for.
fn report_of<'w, R: Threads + Sync>(
    rt: &R,
    alloc: Global,
    text: &[u8],
    checked: &Checked,
    script_text: &[u8],
    conditions: &[Condition<'w>],
    settings: &RunSettings<'w>,
) -> Result<Report, Fault<'w>>
    requires accepted { IsAccepted text.now (spec_of checked.now.spec) }
    ensures reported { IfOk result (AreChoicesReported text.now script_text.now conditions.now settings.now) }
    ensures explained { IfErr result (ExplainsRun text.now script_text.now conditions.now settings.now) }
{
    let script = script_given(alloc, script_text, settings)?;
    let end = asked_end(
        rt,
        alloc,
        text,
        checked,
        script_text,
        &script,
        conditions,
        settings,
    )?;
    let run = choices_of_run(alloc, checked, settings.turns, &script, end.steps)?;
    let report = reported(alloc, text, checked, script_text, &run, &end)?;
    Ok(report)
}

/// What is printed of the choices of the run that the settings ask for. It is looked at up to the
/// first state in which one of the conditions isn't true.
pub fn choices_report<'w, R: Threads + Sync>(
    rt: &R,
    alloc: Global,
    text: &[u8],
    script_text: &[u8],
    conditions: &[Condition<'w>],
    settings: &RunSettings<'w>,
) -> Result<Report, Fault<'w>>
    ensures reported { IfOk result (AreChoicesReported text.now script_text.now conditions.now settings.now) }
    ensures explained { IfErr result (ExplainsRun text.now script_text.now conditions.now settings.now) }
{
    let checked = checked(alloc, text, settings.spec)?;
    let report = report_of(rt, alloc, text, &checked, script_text, conditions, settings);
    drop(checked);
    report
}
