//! Refusals as tables write them: `read 5 at 30`, `read 6`, `check 9 at 26`, `script 1 line 2`,
//! `script 3`, `limits`.
use asm_check::CheckError;
use asm_reader::{ReadError, ScriptError};
use asm_run::error::RunError;
use std::alloc::{AllocError, Global};

type Answer = Result<String, AllocError>;

/// Why a text isn't read.
pub fn of_read(alloc: Global, reason: ReadError) -> Answer {
    let number = reason.number();
    match reason.at() {
        Some(at) => format!(in alloc; "read {number} at {at}"),
        None => format!(in alloc; "read {number}"),
    }
}

/// The fault of a specification.
pub fn of_check(alloc: Global, fault: CheckError) -> Answer {
    let number = fault.number();
    let at = fault.at;
    format!(in alloc; "check {number} at {at}")
}

/// Why a text is no script.
pub fn of_script(alloc: Global, reason: ScriptError) -> Answer {
    let number = reason.number();
    match reason.line() {
        Some(line) => format!(in alloc; "script {number} line {line}"),
        None => format!(in alloc; "script {number}"),
    }
}

/// Why a specification isn't run.
pub fn of_run(alloc: Global, reason: RunError) -> Answer {
    match reason {
        RunError::Read(reason) => of_read(alloc, reason),
        RunError::Check(fault) => of_check(alloc, fault),
        RunError::Script(reason) => of_script(alloc, reason),
        RunError::Limits => String::from_str(alloc, "limits"),
        RunError::Write => String::from_str(alloc, "write"),
        RunError::Memory => Err(AllocError),
    }
}
