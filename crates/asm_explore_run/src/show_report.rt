//! What is printed of a run that is shown.
ghost use Rattle.std.specs.Prelude.{◌≡◌, ◌+◌, ◌≤◌, All, false, true, List, IfErr, IfNone, IfOk, IfSome};
ghost use Rattle.asm_syntax.specs.SourceTree.{Term as SourceTerm};
ghost use Rattle.asm_syntax.specs.code.Views.{spec_of};
ghost use Rattle.asm_reader.specs.ScriptText.{IsScript};
ghost use Rattle.asm_run.specs.Headline.{IsAccepted};
ghost use Rattle.asm_explore.specs.RunChoices.{AreChoices, lines_forward};
ghost use Rattle.asm_explore.specs.declared.outcomes.listed_outcome.Choice.{Choice};
ghost use Rattle.asm_explore_texts.specs.Comments.{lines_of};
ghost use Rattle.asm_explore_texts.specs.Conditions.{AreAskedOf, texts_of};
ghost use Rattle.asm_explore_texts.specs.RefusedTexts.{ExplainsText, IsOneRefused};
ghost use Rattle.asm_explore_report.specs.BrokenRuns.{HoldBefore, IsFirstBroken};
ghost use Rattle.asm_explore_run.specs.AskedRun.{run_status};
ghost use Rattle.asm_explore_run.specs.ShowReport.{ExplainsShow, IsShown, IsShownText, names_shown};
ghost use Rattle.asm_explore_run.specs.ShownRun.{IsShownEnd};
ghost use Rattle.asm_explore_run.specs.UnmetLines as unmet;
ghost use Rattle.asm_explore_run.specs.code.ShownEnds.{end_said};

use crate::asked_end::{broken_of, status_of};
use crate::shown_end::{ShownEnd, shown_end};
use crate::shown_text::shown_text;
use crate::unmet_lines::unmet_lines;
use asm_check::Checked;
use asm_explore::{choices_of_run, lines_of_run};
use asm_explore_report::checked_text::checked;
use asm_explore_report::report::Report;
use asm_explore_table::names::unknown_name;
use asm_explore_texts::conditions::Condition;
use asm_explore_texts::script_given::script_given;
use asm_explore_words::fault::Fault;
use asm_explore_words::settings::{RunSettings, ShowSettings};
use asm_reader::Script;
use std::alloc::{AllocError, Global};
use std::thread::Threads;

/// The lines of the script that name no choice of the run that is shown.
fn unmet_of(
    alloc: Global,
    checked: &Checked,
    turns: u32,
    script_text: &[u8],
    script: &Script,
    steps: u32,
) -> Result<Vec<Vec<u8>>, AllocError>
    ensures { IfOk result (λ lines. (made : List (List Choice)) × AreChoices (spec_of checked.now.spec) turns script.now steps made
        × (lines_of lines.items ≡ unmet.unmet_lines script_text.now (lines_forward made))) }
{
    let run = choices_of_run(alloc, checked, turns, script, steps)?;
    let made = lines_of_run(alloc, &run)?;
    let unmet = unmet_lines(alloc, script_text, made.as_slice())?;
    Ok(unmet)
}

/// What is printed of the run of a specification, and of its end.
fn report_of_end(
    alloc: Global,
    checked: &Checked,
    script_text: &[u8],
    script: &Script,
    run: &RunSettings<'_>,
    settings: &ShowSettings<'_>,
    end: &ShownEnd,
) -> Result<Report, AllocError>
    ensures { let s = spec_of checked.now.spec in let turns = run.now.turns in
        IfOk result (λ report. (made : List (List Choice)) × AreChoices s turns script.now end.now.steps made
        × IsShownText s turns script.now settings.now.form run.now.spec.now (names_shown settings.now) settings.now.width (end_said end.now) (unmet.unmet_lines script_text.now (lines_forward made)) report.text.items
        × (report.status ≡ run_status end.now.is_fault (unmet.unmet_lines script_text.now (lines_forward made)))) }
{
    let unmet = unmet_of(alloc, checked, run.turns, script_text, script, end.steps)?;
    let text = shown_text(alloc, checked, script, run, settings, end, unmet.as_slice())?;
    let status = status_of(end.is_fault, unmet.as_slice());
    Ok(Report { text, status })
}

/// What is printed of this run of a specification, as the further settings ask for.
fn report_of<'w, R: Threads + Sync>(
    rt: &R,
    alloc: Global,
    text: &[u8],
    checked: &Checked,
    script_text: &[u8],
    conditions: &[Condition<'w>],
    run: &RunSettings<'w>,
    settings: &ShowSettings<'w>,
) -> Result<Report, Fault<'w>>
    requires accepted { IsAccepted text.now (spec_of checked.now.spec) }
    ensures reported { IfOk result (IsShown text.now script_text.now conditions.now run.now settings.now) }
    ensures explained { IfErr result (ExplainsShow text.now script_text.now conditions.now run.now settings.now) }
{
    let script = script_given(alloc, script_text, run)?;
    match unknown_name(alloc, checked, settings.names.as_slice())? {
        Some(name) => return Err(Fault::Name(name)),
        None => {}
    }
    let broken = broken_of(alloc, checked, &script, conditions, run)?;
    let end = shown_end(rt, alloc, text, checked, script_text, &script, run, broken)?;
    let report = report_of_end(alloc, checked, script_text, &script, run, settings, &end)?;
    Ok(report)
}

/// What is printed of this run, in the form that the further settings ask for: the settings' own run
/// isn't looked at. The run is shown up to the first state in which one of the conditions isn't true.
pub fn show_report<'w, R: Threads + Sync>(
    rt: &R,
    alloc: Global,
    text: &[u8],
    script_text: &[u8],
    conditions: &[Condition<'w>],
    run: &RunSettings<'w>,
    settings: &ShowSettings<'w>,
) -> Result<Report, Fault<'w>>
    ensures reported { IfOk result (IsShown text.now script_text.now conditions.now run.now settings.now) }
    ensures explained { IfErr result (ExplainsShow text.now script_text.now conditions.now run.now settings.now) }
{
    let checked = checked(alloc, text, run.spec)?;
    let report = report_of(
        rt,
        alloc,
        text,
        &checked,
        script_text,
        conditions,
        run,
        settings,
    );
    drop(checked);
    report
}
