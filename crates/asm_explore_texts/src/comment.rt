//! Lines that a script skips.
ghost use Rattle.std.specs.Prelude.{◌≡◌, ◌∷◌, ◌++◌, IfOk, OnOk};
ghost use Rattle.asm_explore_texts.specs.Comments as comments;

use std::alloc::{AllocError, Global};

/// Adds a comment, in one line: a space instead of each line feed.
pub fn add_comment(text: &mut Vec<u8>, comment: &[u8]) -> Result<(), AllocError>
    ensures { OnOk result (text.new.items ≡ text.old.items ++ comments.comment comment.now) }
{
    if comment.is_empty() {
        return text.extend_from_slice(b"#\n");
    }
    text.extend_from_slice(b"# ")?;
    add_in_one_line(text, comment)?;
    text.push(b'\n')?;
    Ok(())
}

/// Adds bytes, a space instead of each line feed.
fn add_in_one_line(text: &mut Vec<u8>, bytes: &[u8]) -> Result<(), AllocError>
    ensures { OnOk result (text.new.items ≡ text.old.items ++ comments.in_one_line bytes.now) }
{
    for byte in bytes {
        text.push(shown(*byte))?;
    }
    Ok(())
}

/// The byte, or a space instead of a line feed.
fn shown(byte: u8) -> u8
    ensures { result ≡ comments.shown byte }
{
    if byte == b'\n' { b' ' } else { byte }
}

/// Adds comments, each in a line of its own.
pub fn add_comments(text: &mut Vec<u8>, lines: &[Vec<u8>]) -> Result<(), AllocError>
    ensures { OnOk result (text.new.items ≡ text.old.items ++ comments.comments (comments.lines_of lines.now)) }
{
    for line in lines {
        add_comment(text, line.as_slice())?;
    }
    Ok(())
}

/// A first comment and others, each in a line of its own.
pub fn comments(alloc: Global, first: &[u8], others: &[Vec<u8>]) -> Result<Vec<u8>, AllocError>
    ensures { IfOk result (λ text. text.items ≡ comments.comments (first.now ∷ comments.lines_of others.now)) }
{
    let mut text = Vec::new(alloc);
    add_comment(&mut text, first)?;
    add_comments(&mut text, others)?;
    Ok(text)
}
