//! The text of the assignments by which a run ends.
ghost use Rattle.std.specs.Prelude.{◌≡◌, ◌∷◌, ◌+◌, ◌++◌, ◌<◌, ◌≤◌, [], length, min, IfOk, OnOk, IsFalse, IsTrue};
ghost use Rattle.asm_reader.specs.ScriptText.{max_script};
ghost use Rattle.asm_explore_texts.specs.Comments.{comment, comments as comments_of};
ghost use Rattle.asm_explore_run.specs.ClashText.{IsClashText, greatest_shown, more};
ghost use Rattle.asm_run.specs.Written.{names_in};
ghost use Rattle.asm_syntax.specs.code.Views.{spec_of};

use crate::assignment_line::assignment_line;
use asm_check::Checked;
use asm_clash::assignment::Assignment;
use asm_explore_texts::comment::{add_comment, comments};
use asm_reader::MAX_SCRIPT;
use asm_run::end::End;
use std::alloc::{AllocError, Global};

/// How many assignments are listed: the comments for so many don't fit into a script, since each
/// has 15 bytes at least.
pub(crate) const MAX_SHOWN: usize = 69_906;

/// Adds a comment for so many assignments that aren't shown, if there are any.
fn add_rest(alloc: Global, text: &mut Vec<u8>, rest: u64) -> Result<(), AllocError>
    ensures { OnOk result (text.new.items ≡ text.old.items ++ comments_of (more rest)) }
{
    if rest == 0 {
        return Ok(());
    }
    let line = format!(in alloc; "and {rest} more")?;
    add_comment(text, line.as_bytes())
}

/// Whether so many bytes and others are no more than a script may have.
fn fit(bytes: usize, others: usize) -> bool
    ensures yes { IsTrue result → bytes + others ≤ max_script }
    ensures no { IsFalse result → max_script < bytes + others }
{
    bytes <= MAX_SCRIPT && others <= MAX_SCRIPT - bytes
}

/// Adds a comment, if it fits with that for so many assignments which aren't shown.
fn add_if_it_fits(
    alloc: Global,
    text: &mut Vec<u8>,
    line: &[u8],
    rest: u64,
) -> Result<bool, AllocError>
    ensures added { IfOk result (λ fits. IsTrue fits → (text.new.items ≡ text.old.items ++ comment line.now) × (length (text.new.items ++ comments_of (more rest)) ≤ max_script)) }
    ensures left { IfOk result (λ fits. IsFalse fits → (text.new.items ≡ text.old.items) × (max_script < length ((text.old.items ++ comment line.now) ++ comments_of (more rest)))) }
{
    let before = text.len();
    let mut end = Vec::new(alloc);
    add_rest(alloc, &mut end, rest)?;
    add_comment(text, line)?;
    if fit(text.len(), end.len()) {
        return Ok(true);
    }
    text.truncate(before);
    Ok(false)
}

/// A first comment, and one for each of so many assignments by which a run ends, as many as fit
/// into a script; these are the first of them.
pub(crate) fn clash_text(
    alloc: Global,
    text: &[u8],
    checked: &Checked,
    first: &[u8],
    end: &End,
    assignments: &[Assignment],
    count: u64,
) -> Result<Vec<u8>, AllocError>
    requires { length assignments.now ≡ min greatest_shown count }
    ensures { let names = names_in (spec_of checked.now.spec) in
        IfOk result (λ printed. IsClashText text.now names end.now first.now assignments.now count printed.items) }
{
    let mut shown = comments(alloc, first, &[])?;
    for k in 0..assignments.len() {
        let line = assignment_line(alloc, text, checked, &assignments[k], end)?;
        let rest = count - k as u64;
        let fits = add_if_it_fits(alloc, &mut shown, line.as_slice(), rest - 1)?;
        if !fits {
            add_rest(alloc, &mut shown, rest)?;
            return Ok(shown);
        }
    }
    Ok(shown)
}
