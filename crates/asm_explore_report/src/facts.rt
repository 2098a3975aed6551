//! Lines of a report behind the first.
ghost use Rattle.std.specs.Prelude.{◌≡◌, ◌++◌, ◌∷◌, [], codes, cond, length, nat_lt, take, IfOk, OnOk};
ghost use Rattle.std.specs.String.{string_bytes};
ghost use Rattle.asm_explore_texts.specs.Conditions.{texts_of};
ghost use Rattle.asm_explore_texts.specs.Comments.{lines_of};
ghost use Rattle.asm_explore_report.specs.Facts as facts;

use asm_explore_texts::conditions::Condition;
use std::alloc::{AllocError, Global};

/// How many bytes of a condition are shown.
const MAX_CONDITION_BYTES: usize = 200;

/// Adds a line.
pub fn add(lines: &mut Vec<Vec<u8>>, line: Vec<u8>) -> Result<(), AllocError>
    ensures { OnOk result (lines_of lines.new.items ≡ lines_of lines.old.items ++ line.items ∷ []) }
{
    lines.push(line)?;
    Ok(())
}

/// Adds a line that is given as text.
pub fn add_text(lines: &mut Vec<Vec<u8>>, line: String) -> Result<(), AllocError>
    ensures { OnOk result (lines_of lines.new.items ≡ lines_of lines.old.items ++ string_bytes line ∷ []) }
{
    lines.push(line.into_bytes())?;
    Ok(())
}

/// A text, or the front of a long one.
fn front(text: &[u8]) -> &[u8]
    ensures { result.now ≡ take 200 text.now }
{
    if text.len() > MAX_CONDITION_BYTES {
        &text[..MAX_CONDITION_BYTES]
    } else {
        text
    }
}

/// What is behind the front of a text, if that isn't all of it.
fn cut_mark(text: &[u8]) -> &'static [u8]
    ensures { result.now ≡ cond (nat_lt 200 (length text.now)) (codes " ..") [] }
{
    if text.len() > MAX_CONDITION_BYTES {
        b" .."
    } else {
        b""
    }
}

/// Adds a text, or the front of a long one.
fn push_front(line: &mut Vec<u8>, text: &[u8]) -> Result<(), AllocError>
    ensures { OnOk result (line.new.items ≡ line.old.items ++ facts.front_of text.now) }
{
    line.extend_from_slice(front(text))?;
    line.extend_from_slice(cut_mark(text))
}

/// Adds a line with a condition's text, or the front of a long one, behind this name.
pub fn add_condition(
    lines: &mut Vec<Vec<u8>>,
    name: String,
    condition: &Condition<'_>,
) -> Result<(), AllocError>
    ensures { OnOk result (lines_of lines.new.items ≡ lines_of lines.old.items ++ facts.condition_line (string_bytes name) condition.now.text.items ∷ []) }
{
    let mut line = name.into_bytes();
    line.extend_from_slice(b": ")?;
    push_front(&mut line, condition.text.as_slice())?;
    add(lines, line)
}

/// Adds the conditions that are to be true in each state.
pub fn add_always(
    alloc: Global,
    lines: &mut Vec<Vec<u8>>,
    always: &[Condition<'_>],
) -> Result<(), AllocError>
    ensures { OnOk result (lines_of lines.new.items ≡ lines_of lines.old.items ++ facts.always_lines (texts_of always.now)) }
{
    for k in 0..always.len() {
        let number = k + 1;
        let name = format!(in alloc; "condition {number}")?;
        add_condition(lines, name, &always[k])?;
    }
    Ok(())
}

/// Which faults are looked for if `conditions` conditions are to be true in each state.
pub fn looked_for(alloc: Global, conditions: usize) -> Result<String, AllocError>
    ensures { IfOk result (λ line. string_bytes line ≡ facts.looked_for conditions) }
{
    let mut line = String::from_str(alloc, "looked for: clash, outside, exhausted")?;
    for k in 0..conditions {
        let number = k + 1;
        line.push_str(format!(in alloc; ", condition {number}")?.as_str())?;
    }
    Ok(line)
}

/// Lines, and others behind them.
pub fn behind(first: Vec<Vec<u8>>, others: Vec<Vec<u8>>) -> Result<Vec<Vec<u8>>, AllocError>
    ensures { IfOk result (λ lines. lines_of lines.items ≡ lines_of first.items ++ lines_of others.items) }
{
    let (mut lines, mut others) = (first, others);
    lines.append(&mut others)?;
    Ok(lines)
}
