//! The lines of scripts.
ghost use Rattle.std.specs.Prelude.{◌≡◌, ◌==◌, map, IfOk};
ghost use Rattle.std.specs.List.{slice_split};
ghost use Rattle.std.specs.Option.{option_map};
ghost use Rattle.std.specs.Str.Lines.{strip_carriage_return};
ghost use Rattle.asm_reader.specs.ScriptText as spec;
ghost use Rattle.asm_reader.specs.ScriptText.{line_said};

use crate::script::{ReadLine, When};
use std::alloc::{AllocError, Global};

/// The most digits that a number may have.
const MAX_DIGITS: usize = 9;

/// The line without the carriage return at its end, if it has one.
pub fn without_return(line: &[u8]) -> &[u8]
    ensures { result.now ≡ strip_carriage_return line.now }
{
    match line {
        [front @ .., b'\r'] => front,
        _ => line,
    }
}

/// Whether the line says nothing.
pub fn is_skipped(line: &[u8]) -> bool
    ensures { result ≡ spec.is_skipped line.now }
{
    matches!(line, [] | [b'#', ..])
}

/// What is between the bytes that are this one.
pub fn parts(alloc: Global, text: &[u8], at: u8) -> Result<Vec<&[u8]>, AllocError>
    ensures { IfOk result (λ parts. map (λ p. p.now) parts.items ≡ slice_split (λ b. b == at) text.now) }
{
    text.split(|b| *b == at).collect(alloc)
}

/// The value of one to nine digits.
fn number(digits: &[u8]) -> Option<u32>
    ensures { result ≡ spec.number_of digits.now }
{
    if digits.is_empty() || digits.len() > MAX_DIGITS {
        return None;
    }
    let mut value = 0;
    for digit in digits {
        if !digit.is_ascii_digit() {
            return None;
        }
        value = 10 * value + u32::from(*digit - b'0');
    }
    Some(value)
}

/// The steps for which the line holds whose first field this is. Steps count from 1.
fn when(field: &[u8]) -> Option<When>
    ensures { result ≡ spec.when_of field.now }
{
    if field == b"*".as_slice() {
        return Some(When::EveryStep);
    }
    match number(field) {
        None | Some(0) => None,
        Some(step) => Some(When::Step(step)),
    }
}

/// The path that is written so.
fn path(alloc: Global, text: &[u8]) -> Result<Option<Vec<u32>>, AllocError>
    ensures { IfOk result (λ p. option_map (λ numbers. numbers.items) p ≡ spec.path_of text.now) }
{
    let mut numbers = Vec::new(alloc);
    if text == b"-".as_slice() {
        return Ok(Some(numbers));
    }
    for digits in text.split(|b| *b == b'.') {
        match number(digits) {
            Some(number) => numbers.push(number)?,
            None => return Ok(None),
        }
    }
    Ok(Some(numbers))
}

/// What the line says, if it has the form.
pub fn line_said(alloc: Global, line: &[u8]) -> Result<Option<ReadLine>, AllocError>
    ensures { IfOk result (λ c. option_map line_said c ≡ spec.line_of line.now) }
{
    let fields = parts(alloc, line, b' ')?;
    let [at, place, chosen] = fields.as_slice() else {
        return Ok(None);
    };
    let (Some(when), Some(path), Some(number)) = (when(at), path(alloc, place)?, number(chosen))
    else {
        return Ok(None);
    };
    Ok(Some(ReadLine { when, path, number }))
}
