//! The program `asm`: reads a specification and writes the trace of its run.
#![tactic(auto)]

use asm_files::folder::Disk;
use asm_files::input::words;
use asm_files::output::{Through, buffered};
use asm_tool::fault::Fault;
use asm_tool::status::{refusal, status};
use std::process::ExitCode;

fn main(rt: HostRuntime) -> ExitCode {
    let mut err = Through::new(rt.stderr());
    let status = match words(&rt) {
        Ok(words) => match buffered(rt.alloc(), rt.stdout()) {
            Ok(mut out) => {
                let (disk, input) = (Disk::new(&rt), rt.stdin());
                status(&rt, &disk, words.as_slice(), input, &mut out, &mut err)
            }
            Err(error) => refusal(&Fault::from(error), &mut err),
        },
        Err(fault) => refusal(&Fault::from(fault), &mut err),
    };
    ExitCode::from(status)
}
