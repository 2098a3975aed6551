//! The result of random runs.
use asm_explore::{BadRun, Unwritten};

/// What is found by random runs.
#[derive(Drop)]
pub enum RandomFinding {
    /// No run goes wrong that was made. Others may.
    Nothing,
    /// The run with this number, from 0, goes wrong. Here it is as short as it was made: a run
    /// under a script that has fewer lines, and maybe goes wrong in another step, and by another
    /// fault; but if the run ends in a deadlock, so does this one, and if not, it doesn't.
    Bad { run: u32, bad: BadRun },
    /// The first state isn't right.
    WrongFirst,
    /// A run goes wrong, but the script with the choices that it makes can't be written.
    Unwritten(Unwritten),
}

/// The result.
#[derive(Drop)]
pub struct RandomResult {
    pub finding: RandomFinding,
    /// This many runs were made.
    pub runs: u32,
    /// This many steps were made in them.
    pub steps: u64,
    /// Whether each line of the script, and each step, was tried to be left out.
    pub shortest: bool,
}
