//! Lines of a table: texts at the columns where they begin.
ghost use Rattle.std.specs.Prelude.{◌≡◌, ◌++◌, OnOk};
ghost use Rattle.asm_explore_table.specs.Lines.{aligned, blanks, placed};
ghost use Rattle.asm_explore_table.specs.code.Commas.{comma};

use std::alloc::AllocError;

/// Adds so many blanks.
pub(crate) fn push_blanks(line: &mut Vec<u8>, count: usize) -> Result<(), AllocError>
    ensures { OnOk result (line.new.items ≡ line.old.items ++ blanks count) }
{
    for _ in 0..count {
        line.push(b' ')?;
    }
    Ok(())
}

/// Adds a text to a line so that it begins at this column, behind what is there. Without a text the
/// line stays as it is.
pub(crate) fn place(line: &mut Vec<u8>, start: usize, text: &[u8]) -> Result<(), AllocError>
    ensures { OnOk result (line.new.items ≡ placed line.old.items start text.now) }
{
    if text.is_empty() {
        return Ok(());
    }
    push_blanks(line, start.saturating_sub(line.len()))?;
    line.extend_from_slice(text)
}

/// Adds a comma, unless nothing comes before.
pub(crate) fn push_comma(line: &mut Vec<u8>, before: usize) -> Result<(), AllocError>
    ensures { OnOk result (line.new.items ≡ line.old.items ++ comma before) }
{
    if before == 0 {
        return Ok(());
    }
    line.extend_from_slice(b", ")
}

/// Adds a text behind as many blanks as it takes for this width.
pub(crate) fn align(line: &mut Vec<u8>, width: usize, text: &[u8]) -> Result<(), AllocError>
    ensures { OnOk result (line.new.items ≡ line.old.items ++ aligned width text.now) }
{
    push_blanks(line, width.saturating_sub(text.len()))?;
    line.extend_from_slice(text)
}
