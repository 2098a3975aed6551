//! The lines for the choices of a run, with their comments.
ghost use Rattle.std.specs.Prelude.{◌≡◌, ◌∷◌, ◌++◌, [], List, IfOk, OnOk};
ghost use Rattle.std.specs.List.{flat_map};
ghost use Rattle.asm_syntax.specs.code.Views.{spec_of};
ghost use Rattle.asm_run.specs.Written.{names_in};
ghost use Rattle.asm_explore.specs.ChoicePoints.{Asking};
ghost use Rattle.asm_explore.specs.RunChoices.{asked_in, asked_said, choices_in, choices_made, lines_forward};
ghost use Rattle.asm_explore.specs.code.AskedPieces.{all_said};
ghost use Rattle.asm_explore.specs.ChoiceLines.{lines_for};
ghost use Rattle.asm_explore_report.specs.Commented.{said_by};
ghost use Rattle.asm_explore_run.specs.ChoicesText.{AreEntriesOf, IsEntryOf};

use crate::choose_line::choose_line;
use asm_check::Checked;
use asm_explore::{ChoicePoint, RunChoices, ScriptLine};
use asm_explore_report::commented::Entry;
use std::alloc::{AllocError, Global};

/// The line for a choice of a step, and before it the comment with its candidates.
fn entry<'a>(
    alloc: Global,
    text: &[u8],
    checked: &Checked,
    step: u64,
    asked: &'a ChoicePoint,
) -> Result<Entry<'a>, AllocError>
    ensures line { IfOk result (λ entry. said_by (entry ∷ []) ≡ lines_for step (choices_made (asked.now ∷ []))) }
    ensures comment { let names = names_in (spec_of checked.now.spec) in
        IfOk result (IsEntryOf text.now names (asked_said asked.now)) }
{
    let mut comments = Vec::new(alloc);
    comments.push(choose_line(alloc, text, checked, asked)?)?;
    let line = ScriptLine {
        step,
        path: asked.choice.path.as_slice(),
        number: asked.choice.number,
    };
    Ok(Entry { comments, line })
}

/// Adds an entry for each choice of a step.
fn add_entries<'a>(
    alloc: Global,
    text: &[u8],
    checked: &Checked,
    step: u64,
    asked: &'a [ChoicePoint],
    entries: &mut Vec<Entry<'a>>,
) -> Result<(), AllocError>
    ensures lines { OnOk result (said_by entries.new.items ≡ said_by entries.old.items ++ lines_for step (choices_made asked.now)) }
    ensures comments { let names = names_in (spec_of checked.now.spec) in
        (before : List Asking) → AreEntriesOf text.now names before entries.old.items → OnOk result (AreEntriesOf text.now names (before ++ all_said asked.now) entries.new.items) }
{
    for i in 0..asked.len() {
        entries.push(entry(alloc, text, checked, step, &asked[i])?)?;
    }
    Ok(())
}

/// An entry for each choice of a run.
pub(crate) fn entries<'a>(
    alloc: Global,
    text: &[u8],
    checked: &Checked,
    run: &'a RunChoices,
) -> Result<Vec<Entry<'a>>, AllocError>
    ensures lines { IfOk result (λ entries. said_by entries.items ≡ lines_forward (choices_in run.now)) }
    ensures comments { let names = names_in (spec_of checked.now.spec) in
        IfOk result (λ entries. AreEntriesOf text.now names (flat_map (λ step. step) (asked_in run.now)) entries.items) }
{
    let mut entries = Vec::new(alloc);
    let steps = run.steps.as_slice();
    for k in 0..steps.len() {
        let step = k as u64 + 1;
        add_entries(
            alloc,
            text,
            checked,
            step,
            steps[k].as_slice(),
            &mut entries,
        )?;
    }
    Ok(entries)
}
