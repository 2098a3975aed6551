//! Texts in a page.
ghost use Rattle.std.specs.Prelude.{◌≡◌, ◌++◌, decimal, OnOk};
ghost use Rattle.std.specs.List.{flat_map};
ghost use Rattle.asm_explore_texts.specs.Comments.{lines_of};
ghost use Rattle.asm_explore_table.specs.Pages.{bad_if, code_line, escaped, escaped_byte, paragraph};

use std::alloc::{AllocError, Global};

/// Adds a byte, or a reference for one that HTML reads otherwise.
fn push_byte(out: &mut Vec<u8>, byte: u8) -> Result<(), AllocError>
    ensures { OnOk result (out.new.items ≡ out.old.items ++ escaped_byte byte) }
{
    match byte {
        b'&' => out.extend_from_slice(b"&amp;"),
        b'<' => out.extend_from_slice(b"&lt;"),
        b'>' => out.extend_from_slice(b"&gt;"),
        b'"' => out.extend_from_slice(b"&quot;"),
        _ => out.extend_from_slice(&[byte]),
    }
}

/// Adds a text, with references for the bytes that HTML reads otherwise.
pub(crate) fn push_escaped(out: &mut Vec<u8>, text: &[u8]) -> Result<(), AllocError>
    ensures { OnOk result (out.new.items ≡ out.old.items ++ escaped text.now) }
{
    for byte in text {
        push_byte(out, *byte)?;
    }
    Ok(())
}

/// Adds a number.
pub(crate) fn push_decimal(alloc: Global, out: &mut Vec<u8>, number: u64) -> Result<(), AllocError>
    ensures { OnOk result (out.new.items ≡ out.old.items ++ decimal number) }
{
    let digits = format!(in alloc; "{number}")?;
    out.extend_from_slice(digits.as_bytes())
}

/// Adds a paragraph.
pub(crate) fn push_paragraph(out: &mut Vec<u8>, text: &[u8]) -> Result<(), AllocError>
    ensures { OnOk result (out.new.items ≡ out.old.items ++ paragraph text.now) }
{
    out.extend_from_slice(b"<p>")?;
    push_escaped(out, text)?;
    out.extend_from_slice(b"</p>\n")
}

/// Adds a paragraph with a line of code.
pub(crate) fn push_code_line(out: &mut Vec<u8>, text: &[u8]) -> Result<(), AllocError>
    ensures { OnOk result (out.new.items ≡ out.old.items ++ code_line text.now) }
{
    out.extend_from_slice(b"<p><code>")?;
    push_escaped(out, text)?;
    out.extend_from_slice(b"</code></p>\n")
}

/// Adds lines of code, each as a paragraph.
pub(crate) fn push_code_lines(out: &mut Vec<u8>, lines: &[Vec<u8>]) -> Result<(), AllocError>
    ensures { OnOk result (out.new.items ≡ out.old.items ++ flat_map code_line (lines_of lines.now)) }
{
    for k in 0..lines.len() {
        push_code_line(out, lines[k].as_slice())?;
    }
    Ok(())
}

/// Adds the class of what shows a fault, if this does.
pub(crate) fn push_bad_if(out: &mut Vec<u8>, is_bad: bool) -> Result<(), AllocError>
    ensures { OnOk result (out.new.items ≡ out.old.items ++ bad_if is_bad) }
{
    if is_bad {
        return out.extend_from_slice(b" class=\"bad\"");
    }
    Ok(())
}
