//! Texts of JSON.
ghost use Rattle.std.specs.Prelude.{◌≡◌, ◌++◌, ◌<◌, OnOk};
ghost use Rattle.asm_explore_table.specs.JsonTexts.{escaped, hex_digit as digit_for, is_marked, is_printable, string_text};
ghost use Rattle.asm_explore_table.specs.code.JsonParts.{separator};

use std::alloc::AllocError;

/// The digit that stands for a number below 16.
fn hex_digit(n: u8) -> u8
    requires { n < 16 }
    ensures { result ≡ digit_for n }
{
    if n < 10 { b'0' + n } else { b'a' - 10 + n }
}

/// Whether a byte stands behind a backslash.
fn is_marked_byte(byte: u8) -> bool
    ensures { result ≡ is_marked byte }
{
    byte == b'"' || byte == b'\\'
}

/// Whether a byte is a printable one of ASCII.
fn is_printable_byte(byte: u8) -> bool
    ensures { result ≡ is_printable byte }
{
    b' ' <= byte && byte <= b'~'
}

/// Adds a byte as a string has it.
fn push_escaped(out: &mut Vec<u8>, byte: u8) -> Result<(), AllocError>
    ensures { OnOk result (out.new.items ≡ out.old.items ++ escaped byte) }
{
    if is_marked_byte(byte) {
        return out.extend_from_slice(&[b'\\', byte]);
    }
    if is_printable_byte(byte) {
        return out.extend_from_slice(&[byte]);
    }
    out.extend_from_slice(b"\\u00")?;
    out.extend_from_slice(&[hex_digit(byte / 16), hex_digit(byte % 16)])
}

/// Adds a string.
pub(crate) fn push_string(out: &mut Vec<u8>, text: &[u8]) -> Result<(), AllocError>
    ensures { OnOk result (out.new.items ≡ out.old.items ++ string_text text.now) }
{
    out.extend_from_slice(b"\"")?;
    for k in 0..text.len() {
        push_escaped(out, text[k])?;
    }
    out.extend_from_slice(b"\"")
}

/// Adds a comma, unless this is the first of a list.
pub(crate) fn push_separator(out: &mut Vec<u8>, is_first: bool) -> Result<(), AllocError>
    ensures { OnOk result (out.new.items ≡ out.old.items ++ separator is_first) }
{
    if is_first {
        return Ok(());
    }
    out.extend_from_slice(b",")
}
