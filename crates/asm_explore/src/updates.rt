//! The updates of an outcome.
ghost use Rattle.asm_explore.specs.code.FaultMarks.{IsMarked, marked_is};

use asm_updates::summary::Summary;

/// The updates of an outcome.
#[derive(Drop)]
pub struct Updates {
    pub set: Summary,
    pub ghost marked: { IsMarked set } by { marked_is set },
}
