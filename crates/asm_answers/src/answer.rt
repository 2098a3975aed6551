//! Answers to texts, as tables write them: `read`, `tree` and the tree, `beginnings`, `checked`, a
//! refusal as `read 5 at 30` or `check 9 at 26`, or what is said of a script.
use crate::printed::line;
use crate::{refusal, script};
use asm_check::check;
use asm_reader::read;
use asm_syntax::InputError;
use asm_syntax::spec::Spec;
use std::alloc::{AllocError, Global};

type Answer = Result<String, AllocError>;

/// The answer that is expected, with the offset of the mark for the word `mark`.
pub fn wanted(alloc: Global, answer: &str, mark: Option<usize>) -> Answer {
    match (answer.strip_suffix("mark"), mark) {
        (Some(front), Some(at)) => format!(in alloc; "{front}{at}"),
        _ => String::from_str(alloc, answer),
    }
}

/// The answer that is found, of the kind that is wanted.
pub fn found(alloc: Global, wanted: &str, text: &[u8]) -> Answer {
    let (kind, _) = wanted.split_once(' ').unwrap_or((wanted, ""));
    match kind {
        "script" | "asked" => script::found(alloc, wanted, text),
        _ => found_of_spec(alloc, kind, text),
    }
}

/// The answer to a specification.
fn found_of_spec(alloc: Global, kind: &str, text: &[u8]) -> Answer {
    let spec = match read(alloc, text) {
        Ok(spec) => spec,
        Err(InputError::Named(reason)) => return refusal::of_read(alloc, reason),
        Err(InputError::Memory) => return Err(AllocError),
    };
    match kind {
        "tree" => {
            let line = line(alloc, &spec)?;
            format!(in alloc; "tree {line}")
        }
        "beginnings" => beginnings(alloc, text),
        "check" | "checked" => checked(alloc, spec),
        _ => String::from_str(alloc, "read"),
    }
}

/// Whether the text that was read is well formed, or the fault that is first in it.
fn checked(alloc: Global, spec: Spec) -> Answer {
    match check(alloc, spec) {
        Ok(_) => String::from_str(alloc, "checked"),
        Err(InputError::Named(fault)) => refusal::of_check(alloc, fault),
        Err(InputError::Memory) => Err(AllocError),
    }
}

/// Whether each beginning of a text that is read is read too, or is refused as beginnings may be:
/// the last byte can be one that begins no token alone, and the tokens can end anywhere.
fn beginnings(alloc: Global, text: &[u8]) -> Answer {
    for length in 0..text.len() {
        match read(alloc, &text[..length]) {
            Ok(_) => {}
            Err(InputError::Named(reason)) => {
                if !matches!(reason.number(), 2 | 3 | 5 | 6) {
                    let refusal = refusal::of_read(alloc, reason)?;
                    return format!(in alloc; "a beginning: {refusal}");
                }
            }
            Err(InputError::Memory) => return Err(AllocError),
        }
    }
    String::from_str(alloc, "beginnings")
}
