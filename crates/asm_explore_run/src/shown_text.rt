//! The text of a run that is shown, in the form that is asked for.
ghost use Rattle.std.specs.Prelude.{◌≡◌, ℕ, IfOk};
ghost use Rattle.asm_syntax.specs.code.Views.{spec_of};
ghost use Rattle.asm_meaning.specs.Declarations.{specification_of};
ghost use Rattle.asm_explore_texts.specs.Comments.{lines_of};
ghost use Rattle.asm_explore_table.specs.JsonRows.{json_text};
ghost use Rattle.asm_explore_table.specs.Pages.{page_text};
ghost use Rattle.asm_explore_table.specs.Rows.{rows_of};
ghost use Rattle.asm_explore_table.specs.code.StepsMade.{names_said};
ghost use Rattle.asm_explore_table.specs.code.RunsSaid.{words_said};
ghost use Rattle.asm_explore_report.specs.Commands as commands;
ghost use Rattle.asm_explore_run.specs.ShowReport.{IsShowText, IsShownText, names_shown};
ghost use Rattle.asm_explore_run.specs.ShowReport as shown;
ghost use Rattle.asm_explore_run.specs.code.ShownEnds.{end_said};

use crate::show_text::show_text;
use crate::shown_end::ShownEnd;
use asm_check::Checked;
use asm_explore_report::command::command;
use asm_explore_table::json::add_json;
use asm_explore_table::limited_run::LimitedRun;
use asm_explore_table::page::add_page;
use asm_explore_table::run_words::RunWords;
use asm_explore_words::settings::{RunSettings, ShowForm, ShowSettings};
use asm_reader::Script;
use std::alloc::{AllocError, Global};

/// What is said of a run that ends so, which this call of `asm` makes.
fn words_of<'x>(
    name: &'x str,
    end: &'x ShownEnd,
    call: &'x [u8],
    unmet: &'x [Vec<u8>],
) -> RunWords<'x>
    ensures { (turns : ℕ) → call.now ≡ commands.command end.now.steps turns name.now →
        words_said result ≡ shown.words_of turns name.now (end_said end.now) (lines_of unmet.now) }
{
    RunWords {
        name,
        end: end.first.as_slice(),
        because: end.because.as_slice(),
        command: call,
        assignments: end.assignments.as_slice(),
        unmet,
        is_fault: end.is_fault,
    }
}

/// The page of a run that ends so, of the specification in the file of this name.
fn page<'x>(
    alloc: Global,
    run: &LimitedRun<'_, Script>,
    names: &[&str],
    name: &'x str,
    end: &'x ShownEnd,
    unmet: &'x [Vec<u8>],
) -> Result<Vec<u8>, AllocError>
    ensures { let s = spec_of run.now.checked.now.spec in
        IfOk result (λ text. text.items ≡ page_text s (names_said names.now) (shown.words_of run.now.turns name.now (end_said end.now) (lines_of unmet.now))
        (specification_of s).initial (rows_of s run.now.turns run.now.script.now run.now.steps)) }
{
    let call = command(alloc, u64::from(end.steps), run.turns, name)?;
    let words = words_of(name, end, call.as_slice(), unmet);
    let mut text = Vec::new(alloc);
    add_page(alloc, &mut text, run, names, &words)?;
    Ok(text)
}

/// The rows of a run that ends so, as lines of JSON.
fn json<'x>(
    alloc: Global,
    run: &LimitedRun<'_, Script>,
    names: &[&str],
    name: &'x str,
    end: &'x ShownEnd,
    unmet: &'x [Vec<u8>],
) -> Result<Vec<u8>, AllocError>
    ensures { let s = spec_of run.now.checked.now.spec in
        IfOk result (λ text. text.items ≡ json_text s (names_said names.now) (shown.words_of run.now.turns name.now (end_said end.now) (lines_of unmet.now))
        (specification_of s).initial (rows_of s run.now.turns run.now.script.now run.now.steps)) }
{
    let call = command(alloc, u64::from(end.steps), run.turns, name)?;
    let words = words_of(name, end, call.as_slice(), unmet);
    let mut text = Vec::new(alloc);
    add_json(alloc, &mut text, run, names, &words)?;
    Ok(text)
}

/// What is printed of a run that ends so, in the form that the settings ask for.
pub(crate) fn shown_text<'x>(
    alloc: Global,
    checked: &'x Checked,
    script: &'x Script,
    run: &RunSettings<'_>,
    settings: &ShowSettings<'_>,
    end: &ShownEnd,
    unmet: &[Vec<u8>],
) -> Result<Vec<u8>, AllocError>
    ensures { IfOk result (λ text. IsShownText (spec_of checked.now.spec) run.now.turns script.now settings.now.form run.now.spec.now (names_shown settings.now) settings.now.width (end_said end.now) (lines_of unmet.now) text.items) }
{
    let limited = LimitedRun {
        checked,
        turns: run.turns,
        script,
        steps: end.steps,
    };
    let names = settings.names.as_slice();
    match settings.form {
        ShowForm::Table => show_text(alloc, checked, script, run, settings, end, unmet),
        ShowForm::Page => page(alloc, &limited, names, run.spec, end, unmet),
        ShowForm::Json => json(alloc, &limited, names, run.spec, end, unmet),
    }
}
