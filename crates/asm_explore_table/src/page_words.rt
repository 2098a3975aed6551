//! What stands above and below the table of a page.
ghost use Rattle.std.specs.Prelude.{◌≡◌, ◌++◌, OnOk};
ghost use Rattle.asm_explore_table.specs.Pages.{foot, head, heading, name_behind, opening as opening_lines, styled, title};
ghost use Rattle.asm_explore_table.specs.code.RunsSaid.{words_said};

use crate::page_style::style;
use crate::page_text::{push_bad_if, push_code_line, push_code_lines, push_escaped};
use crate::run_words::RunWords;
use std::alloc::AllocError;

const OPENING: &[u8] = b"\
<!doctype html>
<html lang=\"en\">
<head>
<meta charset=\"utf-8\">
<meta name=\"viewport\" content=\"width=device-width\">
";

/// How a page begins.
fn opening() -> &'static [u8]
    ensures { result.now ≡ opening_lines }
{
    OPENING
}

/// Adds the name of a file behind how its run ends, unless it is standard input.
fn push_name(out: &mut Vec<u8>, name: &[u8]) -> Result<(), AllocError>
    ensures { OnOk result (out.new.items ≡ out.old.items ++ name_behind name.now) }
{
    if name == b"-".as_slice() {
        return Ok(());
    }
    out.extend_from_slice(b" - ")?;
    push_escaped(out, name)
}

/// Adds the title: how the run ends, and the name of the file.
fn push_title(out: &mut Vec<u8>, words: &RunWords<'_>) -> Result<(), AllocError>
    ensures { OnOk result (out.new.items ≡ out.old.items ++ title (words_said words.now)) }
{
    out.extend_from_slice(b"<title>")?;
    push_escaped(out, words.end)?;
    push_name(out, words.name.as_bytes())?;
    out.extend_from_slice(b"</title>\n")
}

/// Adds the style sheet.
fn push_style(out: &mut Vec<u8>) -> Result<(), AllocError>
    ensures { OnOk result (out.new.items ≡ out.old.items ++ styled) }
{
    out.extend_from_slice(b"<style>\n")?;
    out.extend_from_slice(style())?;
    out.extend_from_slice(b"</style>\n</head>\n<body>\n")
}

/// Adds the heading: how the run ends.
fn push_heading(out: &mut Vec<u8>, words: &RunWords<'_>) -> Result<(), AllocError>
    ensures { OnOk result (out.new.items ≡ out.old.items ++ heading (words_said words.now)) }
{
    out.extend_from_slice(b"<h1")?;
    push_bad_if(out, words.is_fault)?;
    out.extend_from_slice(b">")?;
    push_escaped(out, words.end)?;
    out.extend_from_slice(b"</h1>\n")
}

/// Adds all that stands above the table.
pub(crate) fn push_head(out: &mut Vec<u8>, words: &RunWords<'_>) -> Result<(), AllocError>
    ensures { OnOk result (out.new.items ≡ out.old.items ++ head (words_said words.now)) }
{
    out.extend_from_slice(opening())?;
    push_title(out, words)?;
    push_style(out)?;
    push_heading(out, words)?;
    push_code_lines(out, words.because)?;
    push_code_line(out, words.command)
}

/// Adds the assignments by which the run ends, and all that follows.
pub(crate) fn push_foot(out: &mut Vec<u8>, words: &RunWords<'_>) -> Result<(), AllocError>
    ensures { OnOk result (out.new.items ≡ out.old.items ++ foot (words_said words.now)) }
{
    push_code_lines(out, words.assignments)?;
    push_code_lines(out, words.unmet)?;
    out.extend_from_slice(b"</body>\n</html>\n")
}
