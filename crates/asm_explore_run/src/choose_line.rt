//! The comment for a choice.
ghost use Rattle.std.specs.Prelude.{◌≡◌, ◌++◌, ◌-◌, ℕ, List, Some, cond, length, take, IfOk, OnOk};
ghost use Rattle.asm_syntax.specs.code.Views.{spec_of};
ghost use Rattle.asm_run.specs.Trace.{value_text};
ghost use Rattle.asm_run.specs.Written.{names_in};
ghost use Rattle.asm_explore.specs.RunChoices.{asked_said};
ghost use Rattle.asm_explore_run.specs.ChoicesText.{IsChoose, IsChooseLine, and_more, candidates_text, choose_at, choose_on, listed, others_text, taken_text};
ghost use Rattle.asm_explore_run.specs.ChoicesText as behind;

use asm_check::Checked;
use asm_explore::ChoicePoint;
use asm_explore_texts::position_text::{push_name, push_position};
use asm_explore_texts::variable_at::variable_at;
use asm_run::locations::{push_path, push_value};
use asm_state::word::Word;
use std::alloc::{AllocError, Global};

/// How many candidates are listed.
const MAX_LISTED: usize = 64;

/// Says of the `choose` of the main rule that asks for a choice where it is in the text, which
/// candidates it has, and which of them it takes.
pub(crate) fn choose_line(
    alloc: Global,
    text: &[u8],
    checked: &Checked,
    asked: &ChoicePoint,
) -> Result<Vec<u8>, AllocError>
    ensures { let names = names_in (spec_of checked.now.spec) in
        IfOk result (λ line. IsChooseLine text.now names (asked_said asked.now) line.items) }
{
    let mut line = Vec::new(alloc);
    push_choose(
        alloc,
        &mut line,
        text,
        checked,
        asked.choice.path.as_slice(),
    )?;
    line.extend_from_slice(b": ")?;
    push_candidates(
        alloc,
        &mut line,
        checked,
        asked.candidates.as_slice(),
        asked.choice.number as usize,
    )?;
    Ok(line)
}

/// Adds where the `choose` at a path is in the text, and the name of its variable; or the path, if
/// the text has no name there.
fn push_choose(
    alloc: Global,
    line: &mut Vec<u8>,
    text: &[u8],
    checked: &Checked,
    path: &[u64],
) -> Result<(), AllocError>
    ensures { OnOk result ((words : List ℕ) × IsChoose text.now path.now words × (line.new.items ≡ line.old.items ++ words)) }
{
    match variable_at(alloc, text, checked, path)? {
        Some(at) => push_variable(alloc, line, text, at),
        None => push_place(line, path),
    }
}

/// Adds line and column of a variable, and its name.
fn push_variable(
    alloc: Global,
    line: &mut Vec<u8>,
    text: &[u8],
    at: usize,
) -> Result<(), AllocError>
    ensures { OnOk result (line.new.items ≡ line.old.items ++ choose_at text.now at) }
{
    push_position(alloc, line, text, at)?;
    line.extend_from_slice(b": choose ")?;
    push_name(line, text, at)?;
    Ok(())
}

/// Adds the path of a `choose`.
fn push_place(line: &mut Vec<u8>, path: &[u64]) -> Result<(), AllocError>
    ensures { OnOk result (line.new.items ≡ line.old.items ++ choose_on path.now) }
{
    line.extend_from_slice(b"place ")?;
    push_path(line, path)?;
    line.extend_from_slice(b": choose")?;
    Ok(())
}

/// Adds the first candidates, the one that is taken, which has this number, and how many more there
/// are.
fn push_candidates(
    alloc: Global,
    line: &mut Vec<u8>,
    checked: &Checked,
    candidates: &[Word],
    taken: usize,
) -> Result<(), AllocError>
    ensures { let names = names_in (spec_of checked.now.spec) in
        OnOk result (line.new.items ≡ line.old.items ++ candidates_text names taken candidates.now) }
{
    let shown = candidates.len().min(MAX_LISTED);
    push_listed(line, checked, &candidates[..shown], taken)?;
    let behind = taken_behind(candidates, taken);
    push_others(alloc, line, checked, candidates.len() - shown, behind)?;
    Ok(())
}

/// The candidate that is taken, which has this number, if it isn't listed.
fn taken_behind(candidates: &[Word], taken: usize) -> Option<Word>
    ensures { result ≡ behind.taken_behind taken candidates.now }
{
    if taken < MAX_LISTED {
        return None;
    }
    candidates.get(taken).copied()
}

/// Adds the candidate that is taken, if it is one of so many others that aren't listed, and how many
/// more there are.
fn push_others(
    alloc: Global,
    line: &mut Vec<u8>,
    checked: &Checked,
    others: usize,
    behind: Option<Word>,
) -> Result<(), AllocError>
    ensures { let names = names_in (spec_of checked.now.spec) in
        OnOk result (line.new.items ≡ line.old.items ++ others_text names others behind) }
{
    match behind {
        Some(value) => push_behind(alloc, line, checked, others, value),
        None => push_more(alloc, line, others),
    }
}

/// Adds a candidate that is taken and is one of so many others, and how many more there are.
fn push_behind(
    alloc: Global,
    line: &mut Vec<u8>,
    checked: &Checked,
    others: usize,
    value: Word,
) -> Result<(), AllocError>
    ensures { let names = names_in (spec_of checked.now.spec) in
        OnOk result (line.new.items ≡ line.old.items ++ others_text names others (Some value)) }
{
    line.extend_from_slice(b", .. ")?;
    push_taken(line, checked, value)?;
    push_more(alloc, line, others.saturating_sub(1))
}

/// Adds how many more there are, if there are any.
fn push_more(alloc: Global, line: &mut Vec<u8>, more: usize) -> Result<(), AllocError>
    ensures { OnOk result (line.new.items ≡ line.old.items ++ and_more more) }
{
    if more == 0 {
        return Ok(());
    }
    line.extend_from_slice(format!(in alloc; ", and {more} more")?.as_bytes())?;
    Ok(())
}

/// Adds candidates, with a comma between each two. The one with the number `taken` is marked.
fn push_listed(
    line: &mut Vec<u8>,
    checked: &Checked,
    values: &[Word],
    taken: usize,
) -> Result<(), AllocError>
    ensures { let names = names_in (spec_of checked.now.spec) in
        OnOk result (line.new.items ≡ line.old.items ++ listed names taken values.now) }
{
    for i in 0..values.len() {
        if i > 0 {
            line.extend_from_slice(b", ")?;
        }
        push_candidate(line, checked, values[i], i == taken)?;
    }
    Ok(())
}

/// Adds a candidate, in brackets if it is taken.
fn push_candidate(
    line: &mut Vec<u8>,
    checked: &Checked,
    value: Word,
    is_taken: bool,
) -> Result<(), AllocError>
    ensures { let names = names_in (spec_of checked.now.spec) in
        OnOk result (line.new.items ≡ line.old.items ++ cond is_taken (taken_text names value) (value_text names.elements value)) }
{
    if is_taken {
        push_taken(line, checked, value)
    } else {
        push_value(line, checked, value)
    }
}

/// Adds a value in brackets.
fn push_taken(line: &mut Vec<u8>, checked: &Checked, value: Word) -> Result<(), AllocError>
    ensures { let names = names_in (spec_of checked.now.spec) in
        OnOk result (line.new.items ≡ line.old.items ++ taken_text names value) }
{
    line.extend_from_slice(b"[")?;
    push_value(line, checked, value)?;
    line.extend_from_slice(b"]")
}
