//! A run as lines of JSON, for programs: one for each row, and one that says how it ends.
ghost use Rattle.std.specs.Prelude.{◌≡◌, ◌++◌, OnOk};
ghost use Rattle.asm_syntax.specs.code.Views.{spec_of};
ghost use Rattle.asm_meaning.specs.Declarations.{specification_of};
ghost use Rattle.asm_step.specs.code.Steps.{HasMainRule};
ghost use Rattle.asm_explore_texts.specs.Comments.{lines_of};
ghost use Rattle.asm_explore_table.specs.JsonRows.{end_json, json_text, more_member, unmet_member};
ghost use Rattle.asm_explore_table.specs.JsonTexts.{list_by, string_text};
ghost use Rattle.asm_explore_table.specs.Rows.{rows_of};
ghost use Rattle.asm_explore_table.specs.code.JsonParts.{more_members};
ghost use Rattle.asm_explore_table.specs.code.RunsSaid.{words_said};
ghost use Rattle.asm_explore_table.specs.code.StepsMade.{names_said};

use crate::columns::{columns, shown};
use crate::extent::run_extent;
use crate::json_rows::add_rows;
use crate::json_state::json_columns;
use crate::json_texts::{push_separator, push_string};
use crate::limited_run::LimitedRun;
use crate::run_words::RunWords;
use asm_reader::Picks;
use asm_resolve::main_rule::resolve_main;
use asm_step::ResolvedSpecification;
use std::alloc::{AllocError, Global};

/// Adds how many more locations change, if there are any.
fn push_more(alloc: Global, out: &mut Vec<u8>, more: usize) -> Result<(), AllocError>
    ensures { OnOk result (out.new.items ≡ out.old.items ++ more_members (more_member more)) }
{
    if more == 0 {
        return Ok(());
    }
    let digits = format!(in alloc; "{more}")?;
    out.extend_from_slice(b",\"more\":")?;
    out.extend_from_slice(digits.as_bytes())
}

/// Adds lines as a list.
fn push_lines(out: &mut Vec<u8>, lines: &[Vec<u8>]) -> Result<(), AllocError>
    ensures { OnOk result (out.new.items ≡ out.old.items ++ list_by string_text (lines_of lines.now)) }
{
    out.extend_from_slice(b"[")?;
    for k in 0..lines.len() {
        push_separator(out, k == 0)?;
        push_string(out, lines[k].as_slice())?;
    }
    out.extend_from_slice(b"]")
}

/// Adds the lines of a script that name no choice of its run, if there are any.
fn push_unmet(out: &mut Vec<u8>, unmet: &[Vec<u8>]) -> Result<(), AllocError>
    ensures { OnOk result (out.new.items ≡ out.old.items ++ more_members (unmet_member (lines_of unmet.now))) }
{
    match unmet {
        [] => Ok(()),
        _ => {
            out.extend_from_slice(b",\"unmet\":")?;
            push_lines(out, unmet)
        }
    }
}

/// Adds how a run ends.
fn add_end(
    alloc: Global,
    out: &mut Vec<u8>,
    more: usize,
    words: &RunWords<'_>,
) -> Result<(), AllocError>
    ensures { OnOk result (out.new.items ≡ out.old.items ++ end_json more (words_said words.now)) }
{
    out.extend_from_slice(b"{\"end\":")?;
    push_string(out, words.end)?;
    push_more(alloc, out, more)?;
    push_unmet(out, words.unmet)?;
    out.extend_from_slice(b"}\n")
}

/// Adds the rows of a run, and how it ends.
fn add_run<P: Picks>(
    alloc: Global,
    out: &mut Vec<u8>,
    resolved: &ResolvedSpecification<'_>,
    run: &LimitedRun<'_, P>,
    names: &[&str],
    words: &RunWords<'_>,
) -> Result<(), AllocError>
    requires { HasMainRule resolved.now }
    ensures { let m = resolved.now in let s = spec_of m.checked.now.spec in
        OnOk result (out.new.items ≡ out.old.items ++ json_text s (names_said names.now) (words_said words.now) (specification_of s).initial (rows_of s m.turns (P.script run.now.script.now) run.now.steps)) }
{
    let checked = resolved.checked;
    let extent = run_extent(alloc, resolved, run.script, run.steps)?;
    let all = columns(alloc, checked, names, &extent)?;
    let shown = shown(names, all.as_slice());
    let columns = json_columns(alloc, checked, shown)?;
    add_rows(
        alloc,
        out,
        resolved,
        run.script,
        run.steps,
        columns.as_slice(),
    )?;
    add_end(alloc, out, all.len() - shown.len(), words)
}

/// Adds the rows of a run as lines of JSON, for programs: one for the first state and one for each
/// step, and a last one that says how the run ends. The values are those of the locations and
/// functions of these names, or of each location that changes if there are none.
pub fn add_json<P: Picks>(
    alloc: Global,
    out: &mut Vec<u8>,
    run: &LimitedRun<'_, P>,
    names: &[&str],
    words: &RunWords<'_>,
) -> Result<(), AllocError>
    ensures { let s = spec_of run.now.checked.now.spec in
        OnOk result (out.new.items ≡ out.old.items ++ json_text s (names_said names.now) (words_said words.now) (specification_of s).initial (rows_of s run.now.turns (P.script run.now.script.now) run.now.steps)) }
{
    let (checked, turns) = (run.checked, run.turns);
    let code = resolve_main(alloc, checked)?;
    let resolved = ResolvedSpecification {
        checked,
        code: &code,
        turns,
    };
    let added = add_run(alloc, out, &resolved, run, names, words);
    drop(code);
    added
}
