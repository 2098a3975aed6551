//! Positions in a text in words, and the names that stand there.
ghost use Rattle.std.specs.Prelude.{◌≡◌, ◌++◌, OnOk};
ghost use Rattle.std.specs.List.{prefix_len};
ghost use Rattle.asm_syntax.specs.Tokens.{is_letter_or_digit};
ghost use Rattle.asm_syntax.specs.Tokens as tokens;
ghost use Rattle.asm_explore_texts.specs.Positions.{position_text};
ghost use Rattle.asm_explore_texts.specs.Positions as positions;

use crate::position::Position;
use std::alloc::{AllocError, Global};

/// Adds the line and the column of an offset in a text.
pub fn push_position(
    alloc: Global,
    out: &mut Vec<u8>,
    text: &[u8],
    at: usize,
) -> Result<(), AllocError>
    ensures { OnOk result (out.new.items ≡ out.old.items ++ position_text text.now at) }
{
    let Position { line, column } = Position::of(text, at);
    out.extend_from_slice(format!(in alloc; "line {line}, column {column}")?.as_bytes())
}

/// Adds the name that stands at an offset of a text.
pub fn push_name(out: &mut Vec<u8>, text: &[u8], at: usize) -> Result<(), AllocError>
    ensures { OnOk result (out.new.items ≡ out.old.items ++ positions.name_at text.now at) }
{
    out.extend_from_slice(name_at(text, at))
}

/// The letters, digits and `_` from an offset of a text on.
pub fn name_at(text: &[u8], at: usize) -> &[u8]
    ensures { result.now ≡ positions.name_at text.now at }
{
    let (_, rest) = text.split_at(at.min(text.len()));
    &rest[..name_length(rest)]
}

/// Whether they are a whole name of the text, or a reserved word.
pub fn is_name_at(text: &[u8], at: usize) -> bool
    ensures { result ≡ positions.is_name_at text.now at }
{
    let Some(first) = text.get(at) else {
        return false;
    };
    if at == 0 {
        return is_letter(*first);
    }
    is_letter(*first) && !is_in_names(text[at - 1])
}

/// How many letters, digits and `_` a text begins with.
fn name_length(text: &[u8]) -> usize
    ensures { result ≡ prefix_len is_letter_or_digit text.now }
{
    let mut rest = text;
    let mut length: usize = 0;
    while let [byte, behind @ ..] = rest {
        if !is_in_names(*byte) {
            break;
        }
        length += 1;
        rest = behind;
    }
    length
}

/// Whether the byte is a letter, a digit or `_`.
fn is_in_names(byte: u8) -> bool
    ensures { result ≡ is_letter_or_digit byte }
{
    is_letter(byte) || byte.is_ascii_digit()
}

/// Whether the byte is a letter or `_`.
fn is_letter(byte: u8) -> bool
    ensures { result ≡ tokens.is_letter byte }
{
    byte.is_ascii_alphabetic() || byte == b'_'
}
