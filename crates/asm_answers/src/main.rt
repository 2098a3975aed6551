//! The program `asm_answers`: reads texts and what is expected of each from standard input, and
//! writes where something else is found. If memory runs out it ends by an error and counts nothing:
//! `rt try --fail-alloc N` lets that happen.
#![tactic(auto)]

mod answer;
mod parts;
mod printed;
mod refusal;
mod run;
mod script;
mod table;
mod text;

use std::io;
use std::process::ExitCode;

fn main(rt: HostRuntime) -> io::Result<ExitCode> {
    let alloc = rt.alloc();
    let table = io::read_to_string(alloc, rt.stdin())?;
    let counts = table::compare(&rt, alloc, table.as_str(), &mut rt.stdout())?;
    Ok(if counts.others == 0 {
        ExitCode::SUCCESS
    } else {
        ExitCode::FAILURE
    })
}
