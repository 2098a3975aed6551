//! How refusals of a run are told in words.
use asm_check::{CheckError, FaultKind};
use asm_reader::{ReadError, ScriptError};
use asm_run::error::RunError;
use std::test::Fail;

#[test]
fn refusals_have_words(rt: HostRuntime) -> Result<(), Fail> {
    let read = RunError::Read(ReadError::UnexpectedEnd);
    let check = RunError::Check(CheckError {
        kind: FaultKind::Init,
        at: 9,
    });
    let script = RunError::Script(ScriptError::BadLine { line: 1 });
    for (refusal, words) in [
        (read, "the text is refused"),
        (check, "the specification has a fault"),
        (script, "the script is refused"),
        (RunError::Limits, "a limit is out of its range"),
        (RunError::Memory, "memory ran out"),
        (RunError::Write, "the trace could not be written"),
    ] {
        assert!(rt; format!(in rt.alloc(); "{refusal}")?.as_str() == words);
    }
    Ok(())
}
