//! A run as a table.
ghost use Rattle.std.specs.Prelude.{◌≡◌, ◌∷◌, ◌++◌, ℕ, List, OnOk};
ghost use Rattle.asm_state.specs.Signature.{count_of};
ghost use Rattle.asm_syntax.specs.code.Views.{spec_of};
ghost use Rattle.asm_check.specs.Shapes.{shape_of};
ghost use Rattle.asm_meaning.specs.Declarations.{specification_of};
ghost use Rattle.asm_step.specs.code.Steps.{HasMainRule, shape_in};
ghost use Rattle.asm_explore_texts.specs.Comments.{comments};
ghost use Rattle.asm_explore_table.specs.Rows.{rows_of};
ghost use Rattle.asm_explore_table.specs.Tables.{IsTable, behind_lines, block_lines, blocks_lines, first_row, heads, more_columns, rows_from};
ghost use Rattle.asm_explore_table.specs.code.Extents.{HasRoom, IsExtentOf};
ghost use Rattle.asm_explore_table.specs.code.StepsMade.{AreWithin, IsWithin, names_said};

use crate::block::Block;
use crate::columns::{columns, shown};
use crate::extent::{Extent, run_extent};
use crate::heads::{first_head, second_head};
use crate::layout::{blocks, step_width};
use crate::row::{Frame, add_first_row, add_row};
use crate::step_row::step_row;
use asm_check::Checked;
use asm_explore_texts::comment::add_comment;
use asm_reader::Picks;
use asm_resolve::main_rule::resolve_main;
use asm_state::state::State;
use asm_step::ResolvedSpecification;
use std::alloc::{AllocError, Global};

/// What a table shows: locations and functions of these names, or each location that changes if
/// there are none, in blocks of at most this many bytes in a line.
#[derive(Clone, Copy, Debug)]
pub struct TableSettings<'w> {
    pub names: &'w [&'w str],
    pub width: u32,
}

/// The run of a specification under a script, of at most `steps` steps.
#[derive(Clone, Copy)]
struct TableRun<'r, P: Picks> {
    resolved: ResolvedSpecification<'r>,
    script: &'r P,
    steps: u32,
}

/// Adds the heads of a block.
fn add_heads(alloc: Global, out: &mut Vec<u8>, frame: Frame<'_>) -> Result<(), AllocError>
    requires { IsWithin (count_of (shape_of (spec_of frame.checked.now.spec))) frame.block.now }
    ensures { OnOk result (out.new.items ≡ out.old.items ++ comments (heads (spec_of frame.entry.checked.now.spec) frame.entry.width frame.entry.block.now)) }
{
    let head = first_head(alloc, frame.checked, frame.width, frame.block)?;
    add_comment(out, head.as_slice())?;
    match second_head(alloc, frame.checked, frame.width, frame.block)? {
        Some(head) => add_comment(out, head.as_slice()),
        None => Ok(()),
    }
}

/// Adds the rows of a run in a block.
fn add_rows<P: Picks>(
    alloc: Global,
    out: &mut Vec<u8>,
    run: &TableRun<'_, P>,
    width: usize,
    block: &Block,
) -> Result<(), AllocError>
    requires main { HasMainRule run.now.resolved }
    requires within { IsWithin (count_of (shape_in run.now.resolved)) block.now }
    ensures { let m = run.now.resolved in let s = spec_of m.checked.now.spec in
        OnOk result (out.new.items ≡ out.old.items
        ++ comments (first_row s width block.now (specification_of s).initial ∷ rows_from s width block.now 1 (rows_of s m.turns (P.script run.now.script.now) run.now.steps))) }
{
    let checked = run.resolved.checked;
    let frame = Frame {
        checked,
        width,
        block,
    };
    let mut state = State::initial(alloc, checked.signature())?;
    add_first_row(alloc, out, frame, &state)?;
    for done in 0..run.steps {
        let number = u64::from(done) + 1;
        let row = step_row(alloc, &run.resolved, run.script, number, &state)?;
        add_row(alloc, out, frame, number, &state, &row)?;
        match row.into_next() {
            Some(next) => state = next,
            None => return Ok(()),
        }
    }
    Ok(())
}

/// Adds a block of a table.
fn add_block<P: Picks>(
    alloc: Global,
    out: &mut Vec<u8>,
    run: &TableRun<'_, P>,
    width: usize,
    block: &Block,
) -> Result<(), AllocError>
    requires main { HasMainRule run.now.resolved }
    requires within { IsWithin (count_of (shape_in run.now.resolved)) block.now }
    ensures { let m = run.now.resolved in let s = spec_of m.checked.now.spec in
        OnOk result (out.new.items ≡ out.old.items ++ comments (block_lines s width block.now (specification_of s).initial (rows_of s m.turns (P.script run.now.script.now) run.now.steps))) }
{
    let frame = Frame {
        checked: run.resolved.checked,
        width,
        block,
    };
    add_heads(alloc, out, frame)?;
    add_rows(alloc, out, run, width, block)
}

/// Adds blocks of a table, each behind an empty line.
fn add_others<P: Picks>(
    alloc: Global,
    out: &mut Vec<u8>,
    run: &TableRun<'_, P>,
    width: usize,
    blocks: &[Block],
) -> Result<(), AllocError>
    requires main { HasMainRule run.now.resolved }
    requires within { AreWithin (count_of (shape_in run.now.resolved)) blocks.now }
    ensures { let m = run.now.resolved in let s = spec_of m.checked.now.spec in
        OnOk result (out.new.items ≡ out.old.items ++ comments (behind_lines s width (specification_of s).initial (rows_of s m.turns (P.script run.now.script.now) run.now.steps) blocks.now)) }
{
    for k in 0..blocks.len() {
        add_comment(out, b"")?;
        add_block(alloc, out, run, width, &blocks[k])?;
    }
    Ok(())
}

/// Adds the blocks of a table, with an empty line between each two.
fn add_blocks<P: Picks>(
    alloc: Global,
    out: &mut Vec<u8>,
    run: &TableRun<'_, P>,
    width: usize,
    blocks: &[Block],
) -> Result<(), AllocError>
    requires main { HasMainRule run.now.resolved }
    requires within { AreWithin (count_of (shape_in run.now.resolved)) blocks.now }
    ensures { let m = run.now.resolved in let s = spec_of m.checked.now.spec in
        (head : Block) (others : List Block) → blocks.now ≡ head ∷ others →
        OnOk result (out.new.items ≡ out.old.items ++ comments (blocks_lines s width (specification_of s).initial (rows_of s m.turns (P.script run.now.script.now) run.now.steps) head others)) }
{
    match blocks {
        [head, others @ ..] => {
            add_block(alloc, out, run, width, head)?;
            add_others(alloc, out, run, width, others)
        }
        [] => Ok(()),
    }
}

/// Adds how many more locations change, if there are any.
fn add_more(alloc: Global, out: &mut Vec<u8>, more: usize) -> Result<(), AllocError>
    ensures { OnOk result (out.new.items ≡ out.old.items ++ comments (more_columns more)) }
{
    if more == 0 {
        return Ok(());
    }
    let line = format!(in alloc; "and {more} more locations change")?;
    add_comment(out, line.as_bytes())
}

/// Adds the table of a run, of which this was found.
fn add_table_of<P: Picks>(
    alloc: Global,
    out: &mut Vec<u8>,
    run: &TableRun<'_, P>,
    settings: TableSettings<'_>,
    extent: &Extent,
) -> Result<(), AllocError>
    requires main { HasMainRule run.now.resolved }
    requires room { HasRoom (count_of (shape_in run.now.resolved)) extent.now }
    requires found { let m = run.now.resolved in let s = spec_of m.checked.now.spec in
        IsExtentOf s (specification_of s).initial extent.now (rows_of s m.turns (P.script run.now.script.now) run.now.steps) }
    ensures { let m = run.now.resolved in let s = spec_of m.checked.now.spec in
        OnOk result ((lines : List (List ℕ)) × (out.new.items ≡ out.old.items ++ comments lines)
        × IsTable s (names_said settings.entry.names.now) settings.entry.width (specification_of s).initial (rows_of s m.turns (P.script run.now.script.now) run.now.steps) lines) }
{
    let checked = run.resolved.checked;
    let all = columns(alloc, checked, settings.names, extent)?;
    let shown = shown(settings.names, all.as_slice());
    let blocks = blocks(alloc, checked, shown, extent, settings.width as usize)?;
    let width = step_width(alloc, extent)?;
    add_blocks(alloc, out, run, width, blocks.as_slice())?;
    add_more(alloc, out, all.len() - shown.len())
}

/// Adds the table of a run.
fn add_found<P: Picks>(
    alloc: Global,
    out: &mut Vec<u8>,
    run: &TableRun<'_, P>,
    settings: TableSettings<'_>,
) -> Result<(), AllocError>
    requires { HasMainRule run.now.resolved }
    ensures { let m = run.now.resolved in let s = spec_of m.checked.now.spec in
        OnOk result ((lines : List (List ℕ)) × (out.new.items ≡ out.old.items ++ comments lines)
        × IsTable s (names_said settings.entry.names.now) settings.entry.width (specification_of s).initial (rows_of s m.turns (P.script run.now.script.now) run.now.steps) lines) }
{
    let extent = run_extent(alloc, &run.resolved, run.script, run.steps)?;
    add_table_of(alloc, out, run, settings, &extent)
}

/// Adds the table of the run of a specification under a script, of at most `steps` steps, as
/// comments.
pub fn add_table<'x, P: Picks>(
    alloc: Global,
    out: &mut Vec<u8>,
    checked: &'x Checked,
    turns: u32,
    script: &'x P,
    steps: u32,
    settings: TableSettings<'_>,
) -> Result<(), AllocError>
    ensures { let s = spec_of checked.now.spec in
        OnOk result ((lines : List (List ℕ)) × (out.new.items ≡ out.old.items ++ comments lines)
        × IsTable s (names_said settings.entry.names.now) settings.entry.width (specification_of s).initial (rows_of s turns (P.script script.now) steps) lines) }
{
    let code = resolve_main(alloc, checked)?;
    let run = TableRun {
        resolved: ResolvedSpecification {
            checked,
            code: &code,
            turns,
        },
        script,
        steps,
    };
    let added = add_found(alloc, out, &run, settings);
    drop(code);
    added
}
