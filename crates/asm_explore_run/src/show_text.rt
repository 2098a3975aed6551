//! The text of a run that is shown as a table.
ghost use Rattle.std.specs.Prelude.{◌≡◌, ◌∷◌, ◌++◌, ◌⊎◌, ℕ, List, Bool, length, IfNone, IfOk, IfSome, OnOk};
ghost use Rattle.std.specs.String.{string_bytes};
ghost use Rattle.asm_syntax.specs.code.Views.{spec_of};
ghost use Rattle.asm_meaning.specs.Declarations.{specification_of};
ghost use Rattle.asm_explore.specs.ChosenLines.{AreTooLong, IsChosenText, chosen_lines};
ghost use Rattle.asm_explore_texts.specs.Comments.{lines_of};
ghost use Rattle.asm_explore_run.specs.ShowReport.{IsScriptPart, IsShowText, names_shown};
ghost use Rattle.asm_explore_run.specs.code.ShownEnds.{end_said};

use crate::shown_end::ShownEnd;
use asm_check::Checked;
use asm_explore::{ResolvedQuestion, chosen_text};
use asm_explore_report::command::command;
use asm_explore_report::laws::comments_law;
use asm_explore_table::table::{TableSettings, add_table};
use asm_explore_texts::comment::{add_comment, add_comments, comments};
use asm_explore_words::settings::{RunSettings, ShowSettings};
use asm_reader::Script;
use asm_resolve::main_rule::resolve_main;
use std::alloc::{AllocError, Global};

/// The text of the script that the run needs, if it can be written.
fn script_of(
    alloc: Global,
    checked: &Checked,
    turns: u32,
    script: &Script,
    steps: u32,
) -> Result<Option<String>, AllocError>
    ensures some { let s = specification_of (spec_of checked.now.spec) in
        IfOk result (λ found. IfSome found (λ text. IsChosenText s turns script.now steps (string_bytes text))) }
    ensures none { let s = specification_of (spec_of checked.now.spec) in
        IfOk result (λ found. IfNone found (AreTooLong (chosen_lines s turns script.now steps))) }
{
    let code = resolve_main(alloc, checked)?;
    let question = ResolvedQuestion {
        checked,
        code: &code,
        turns,
        limit: 0,
        always: &None,
        within: &None,
        when_quiet: &None,
    };
    let text = chosen_text(alloc, &question, script, steps);
    drop(code);
    text
}

/// Adds the script that the run needs, or says that it is left out.
fn add_script(
    alloc: Global,
    text: &mut Vec<u8>,
    checked: &Checked,
    turns: u32,
    script: &Script,
    steps: u32,
) -> Result<(), AllocError>
    ensures { OnOk result ((part : List ℕ) × IsScriptPart (spec_of checked.now.spec) turns script.now steps part × (text.new.items ≡ text.old.items ++ part)) }
{
    match script_of(alloc, checked, turns, script, steps)? {
        Some(lines) => text.extend_from_slice(lines.as_bytes()),
        None => add_comment(text, b"left out: the script"),
    }
}

/// The text of a run that ends so: how it ends, a call of `asm` that makes it, the table, the
/// assignments by which it ends, the lines of the given script that name no choice, and the script.
pub(crate) fn show_text(
    alloc: Global,
    checked: &Checked,
    script: &Script,
    run: &RunSettings<'_>,
    settings: &ShowSettings<'_>,
    end: &ShownEnd,
    unmet: &[Vec<u8>],
) -> Result<Vec<u8>, AllocError>
    ensures { IfOk result (λ text. IsShowText (spec_of checked.now.spec) run.now.turns script.now run.now.spec.now (names_shown settings.now) settings.now.width (end_said end.now) (lines_of unmet.now) text.items) }
{
    comments_law();
    let (steps, turns) = (end.steps, run.turns);
    let mut text = comments(alloc, end.first.as_slice(), end.because.as_slice())?;
    let call = command(alloc, u64::from(steps), turns, run.spec)?;
    add_comment(&mut text, call.as_slice())?;
    let shown = TableSettings {
        names: settings.names.as_slice(),
        width: settings.width,
    };
    add_table(alloc, &mut text, checked, turns, script, steps, shown)?;
    add_comments(&mut text, end.assignments.as_slice())?;
    add_comments(&mut text, unmet)?;
    add_script(alloc, &mut text, checked, turns, script, steps)?;
    Ok(text)
}
