//! The assignments by which a run ends that is shown as a table.
ghost use Rattle.std.specs.Prelude.{◌≡◌, ◌-◌, ◌≤◌, ◌++◌, ℕ, List, length, IfOk, OnOk};
ghost use Rattle.asm_syntax.specs.code.Views.{spec_of};
ghost use Rattle.asm_meaning.specs.Declarations.{specification_of};
ghost use Rattle.asm_meaning.specs.Run.{run};
ghost use Rattle.asm_run.specs.Headline.{IsReturned};
ghost use Rattle.asm_run.specs.Written.{names_in};
ghost use Rattle.asm_explore_texts.specs.Comments.{lines_of as texts_of};
ghost use Rattle.asm_explore_run.specs.ClashText.{AreLinesOf, more};
ghost use Rattle.asm_explore_run.specs.ShownRun.{AreShownAssignments};

use crate::assignment_line::assignment_line;
use crate::clash_report::{assignments, count_of};
use asm_check::Checked;
use asm_clash::assignment::Assignment;
use asm_clash::clash::clash_of_run;
use asm_reader::Script;
use asm_run::end::End;
use std::alloc::{AllocError, Global};

/// At most so many assignments are shown.
const MAX_SHOWN: usize = 100;

/// The lines of assignments.
fn lines_of(
    alloc: Global,
    text: &[u8],
    checked: &Checked,
    end: &End,
    assignments: &[Assignment],
) -> Result<Vec<Vec<u8>>, AllocError>
    ensures { let names = names_in (spec_of checked.now.spec) in
        IfOk result (λ lines. AreLinesOf text.now names end.now assignments.now (texts_of lines.items)) }
{
    let mut lines = Vec::new(alloc);
    for k in 0..assignments.len() {
        let line = assignment_line(alloc, text, checked, &assignments[k], end)?;
        lines.push(line)?;
    }
    Ok(lines)
}

/// Adds a line for so many assignments that aren't shown, if there are any.
fn add_more(alloc: Global, lines: &mut Vec<Vec<u8>>, rest: u64) -> Result<(), AllocError>
    ensures { OnOk result (texts_of lines.new.items ≡ texts_of lines.old.items ++ more rest) }
{
    if rest == 0 {
        return Ok(());
    }
    let line = format!(in alloc; "and {rest} more")?.into_bytes();
    lines.push(line)?;
    Ok(())
}

/// A line for each of the first assignments by which the run of a specification under a script ends,
/// of at most `steps` steps, and one for the others.
pub(crate) fn assignments_shown(
    alloc: Global,
    text: &[u8],
    checked: &Checked,
    script: &Script,
    turns: u32,
    steps: u32,
    end: &End,
) -> Result<Vec<Vec<u8>>, AllocError>
    requires { IsReturned (run (specification_of (spec_of checked.now.spec)) turns script.now steps).end end.now }
    ensures { let s = spec_of checked.now.spec in
        IfOk result (λ lines. AreShownAssignments text.now s turns script.now (run (specification_of s) turns script.now steps) (texts_of lines.items)) }
{
    let clash = clash_of_run(alloc, checked, turns, script, steps, MAX_SHOWN)?;
    let found = assignments(&clash);
    let mut lines = lines_of(alloc, text, checked, end, found)?;
    let rest = count_of(&clash).saturating_sub(found.len() as u64);
    add_more(alloc, &mut lines, rest)?;
    Ok(lines)
}
