//! Checked specifications of texts.
use asm_check::{Checked, check};
use asm_reader::read;
use std::alloc::{AllocError, Global};

/// A text of the tests is refused, or memory ran out.
#[derive(Clone, Copy, Debug)]
pub struct Unchecked;

pub fn checked_of(alloc: Global, text: &[u8]) -> Result<Checked, Unchecked> {
    let Ok(spec) = read(alloc, text) else {
        return Err(Unchecked);
    };
    match check(alloc, spec) {
        Ok(checked) => Ok(checked),
        Err(_) => Err(Unchecked),
    }
}

fn joined(alloc: Global, front: &str, rest: &str) -> Result<String, AllocError> {
    let mut text = String::from_str(alloc, front)?;
    text.push_str(rest)?;
    Ok(text)
}

/// The specification of a text that comes in two parts.
pub fn checked_of_both(alloc: Global, front: &str, rest: &str) -> Result<Checked, Unchecked> {
    match joined(alloc, front, rest) {
        Ok(text) => checked_of(alloc, text.as_bytes()),
        Err(_) => Err(Unchecked),
    }
}
