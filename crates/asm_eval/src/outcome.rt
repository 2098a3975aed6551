//! What comes of evaluating a rule.
ghost use Rattle.std.specs.Prelude.{◌<◌, ◌^◌};

use crate::path::Path;
use asm_updates::summary::Summary;

/// What a rule yields.
#[derive(Drop)]
pub enum Outcome {
    /// An update set, with the number of elements for which the condition of a `forall` held, cut
    /// off if it doesn't fit.
    Set { set: Summary, instances: u64 },
    /// No set: the `iterate` at this path has made its last turn.
    Exhausted(Path),
}

/// What has been formed of a step's set so far, and where the evaluation stands.
#[derive(Drop)]
pub struct Forming {
    pub set: Summary,
    /// Cut off if the number doesn't fit.
    pub instances: u64,
    /// The path of the rule that is evaluated: its numbers come and go here, so that no path is
    /// built anew.
    pub path: Vec<u64>,
    /// Sets that sequences have done with, kept for the next ones.
    pub spare: Vec<Summary>,
    pub ghost in_range: { instances < 2 ^ 64 },
}
