//! The choices of a step.
use asm_reader::Picks;

/// Who says which candidates are taken in a step.
#[derive(Drop)]
pub struct Choices<'a, P: Picks> {
    pub script: &'a P,
    /// The number of the step, from 1.
    pub step: u64,
}
