//! The line that shows how a run is made by `asm`.
ghost use Rattle.std.specs.Prelude.{◌≡◌, ◌++◌, OnOk, IfOk};
ghost use Rattle.std.specs.List.{list_all};
ghost use Rattle.asm_explore_report.specs.Commands as commands;

use std::alloc::{AllocError, Global};

/// The bytes that a POSIX shell takes for themselves, wherever they are in a word.
const PLAIN_BYTES: &[u8] =
    b"abcdefghijklmnopqrstuvwxyzABCDEFGHIJKLMNOPQRSTUVWXYZ0123456789_./,:=@%+-";

/// Whether a POSIX shell takes the byte for itself.
fn is_plain(byte: u8) -> bool
    ensures { result ≡ commands.is_plain byte }
{
    PLAIN_BYTES.iter().any(|plain| *plain == byte)
}

/// Whether a POSIX shell takes these bytes for themselves.
fn are_plain(text: &[u8]) -> bool
    ensures { result ≡ list_all commands.is_plain text.now }
{
    for k in 0..text.len() {
        if !is_plain(text[k]) {
            return false;
        }
    }
    true
}

/// Adds bytes between apostrophes, which a POSIX shell takes for these bytes.
fn push_quoted(out: &mut Vec<u8>, text: &[u8]) -> Result<(), AllocError>
    ensures { OnOk result (out.new.items ≡ out.old.items ++ commands.quoted text.now) }
{
    out.push(b'\'')?;
    for byte in text {
        push_quoted_byte(out, *byte)?;
    }
    out.push(b'\'')?;
    Ok(())
}

/// Adds a byte between apostrophes.
fn push_quoted_byte(out: &mut Vec<u8>, byte: u8) -> Result<(), AllocError>
    ensures { OnOk result (out.new.items ≡ out.old.items ++ commands.quoted_byte byte) }
{
    if byte == b'\'' {
        return out.extend_from_slice(b"'\\''");
    }
    out.push(byte)?;
    Ok(())
}

/// Adds the word for which a POSIX shell takes these bytes.
fn push_word(out: &mut Vec<u8>, text: &[u8]) -> Result<(), AllocError>
    ensures { OnOk result (out.new.items ≡ out.old.items ++ commands.shell_word text.now) }
{
    if !text.is_empty() && are_plain(text) {
        return out.extend_from_slice(text);
    }
    push_quoted(out, text)
}

/// What keeps a file's name from being taken for an option.
fn guard(name: &[u8]) -> &'static [u8]
    ensures { result.now ≡ commands.guard_of name.now }
{
    match name {
        [b'-', ..] => b"./",
        _ => b"",
    }
}

/// Adds the word for a file's name.
pub fn push_file_word(alloc: Global, out: &mut Vec<u8>, name: &[u8]) -> Result<(), AllocError>
    ensures { OnOk result (out.new.items ≡ out.old.items ++ commands.file_word name.now) }
{
    let mut whole = Vec::from_slice(alloc, guard(name))?;
    whole.extend_from_slice(name)?;
    push_word(out, whole.as_slice())
}

/// Adds the option for the turns, unless they are those without one.
fn push_turns(alloc: Global, out: &mut Vec<u8>, turns: u32) -> Result<(), AllocError>
    ensures { OnOk result (out.new.items ≡ out.old.items ++ commands.turns_words turns) }
{
    if turns == 1000 {
        return Ok(());
    }
    out.extend_from_slice(format!(in alloc; " --turns {turns}")?.as_bytes())
}

/// Adds the file that has the specification, unless it is standard input.
fn push_file(alloc: Global, out: &mut Vec<u8>, name: &str) -> Result<(), AllocError>
    ensures { OnOk result (out.new.items ≡ out.old.items ++ commands.file_words name.now) }
{
    if name == "-" {
        return Ok(());
    }
    out.extend_from_slice(b" ")?;
    push_file_word(alloc, out, name.as_bytes())
}

/// The line that shows how a run of `steps` steps is made by `asm` under the script that is
/// printed, of the specification in the file of this name.
pub fn command(alloc: Global, steps: u64, turns: u32, name: &str) -> Result<Vec<u8>, AllocError>
    ensures { IfOk result (λ line. line.items ≡ commands.command steps turns name.now) }
{
    let mut line = format!(in alloc; "asm --steps {steps} --script THIS")?.into_bytes();
    push_turns(alloc, &mut line, turns)?;
    push_file(alloc, &mut line, name)?;
    Ok(line)
}
