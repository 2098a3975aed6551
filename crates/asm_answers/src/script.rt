//! Answers to scripts, as tables write them: a refusal as `script 1 line 2`, or questions that an
//! accepted script is asked, each with the number that it returns, as `asked 1 - 5, 2 0.3 1`: a
//! step, a path in it and the number there.
use crate::refusal;
use asm_reader::{Picks, Script, read_script};
use asm_syntax::InputError;
use std::alloc::{AllocError, Global};

type Answer = Result<String, AllocError>;

/// The refusal of a script, or what it returns for the questions that are wanted.
pub fn found(alloc: Global, wanted: &str, text: &[u8]) -> Answer {
    let script = match read_script(alloc, text) {
        Ok(script) => script,
        Err(InputError::Named(reason)) => return refusal::of_script(alloc, reason),
        Err(InputError::Memory) => return Err(AllocError),
    };
    match wanted.strip_prefix("asked ") {
        Some(questions) => answered(alloc, &script, questions),
        None => String::from_str(alloc, "asked"),
    }
}

/// The questions, each with what the script returns instead of the one that is wanted.
fn answered(alloc: Global, script: &Script, questions: &str) -> Answer {
    let mut answers = String::from_str(alloc, "asked")?;
    let mut is_first = true;
    for question in questions.split(", ") {
        let spot = question.rsplit_once(' ').map_or("", |(spot, _)| spot);
        answers.push_str(if is_first { " " } else { ", " })?;
        is_first = false;
        match picked(alloc, script, spot)? {
            Some(number) => write!(answers, "{spot} {number}")?,
            None => answers.push_str("no question")?,
        }
    }
    Ok(answers)
}

/// The number that the script returns at a step and a path, as `2 0.3`.
fn picked(alloc: Global, script: &Script, spot: &str) -> Result<Option<u64>, AllocError> {
    let Some((step, path)) = spot.split_once(' ') else {
        return Ok(None);
    };
    let Ok(step) = step.parse::<u64>() else {
        return Ok(None);
    };
    let Some(path) = numbers(alloc, path)? else {
        return Ok(None);
    };
    Ok(Some(script.pick(step, path.as_slice())))
}

/// The numbers of a path, as `0.3`; `-` has none.
fn numbers(alloc: Global, path: &str) -> Result<Option<Vec<u64>>, AllocError> {
    let mut numbers = Vec::new(alloc);
    if path == "-" {
        return Ok(Some(numbers));
    }
    for number in path.split('.') {
        let Ok(number) = number.parse::<u64>() else {
            return Ok(None);
        };
        numbers.push(number)?;
    }
    Ok(Some(numbers))
}
