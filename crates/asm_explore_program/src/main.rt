//! The program `asm-explore`: reads a specification and looks for faults in its runs.
#![tactic(auto)]

use asm_explore_tool::files::SystemFiles;
use asm_explore_tool::no_answer::NoAnswer;
use asm_explore_tool::status::{refusal, status};
use asm_files::input::words;
use asm_files::output::{Through, buffered};
use std::io::IsTerminal;
use std::process::ExitCode;

fn main(rt: HostRuntime) -> ExitCode {
    let err = rt.stderr();
    let is_terminal = err.is_terminal();
    let mut err = Through::new(err);
    let status = match words(&rt) {
        Ok(words) => match buffered(rt.alloc(), rt.stdout()) {
            Ok(mut out) => {
                let (mut files, input) = (SystemFiles::new(&rt), rt.stdin());
                let words = words.as_slice();
                status(
                    &rt,
                    &mut files,
                    words,
                    input,
                    &mut out,
                    &mut err,
                    is_terminal,
                )
            }
            Err(error) => refusal(&NoAnswer::from(error), &mut err),
        },
        Err(fault) => refusal(&NoAnswer::from(fault), &mut err),
    };
    ExitCode::from(status)
}
