//! A run of limited length.
use asm_check::Checked;
use asm_reader::Picks;

/// The run of a specification under a script, of at most `steps` steps.
#[derive(Clone, Copy)]
pub struct LimitedRun<'r, P: Picks> {
    pub checked: &'r Checked,
    pub turns: u32,
    pub script: &'r P,
    pub steps: u32,
}
