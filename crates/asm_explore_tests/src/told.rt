//! What is told of a specification.
use asm_explore::{ExplorationResult, Fault, Finding};

/// What is found, without its texts.
#[derive(Clone, Copy, Debug, PartialEq, Eq)]
pub enum Verdict {
    Closed,
    SafeTo(u32),
    /// The step that goes wrong.
    Bad(u64, Fault),
    WrongFirst,
    /// Up to how many steps it is safe, if any.
    TooManyStates(Option<u32>),
    /// The same, and the outcomes of a part and of what is beside it.
    TooManyOutcomes(Option<u32>, usize, usize),
    NoMemory(Option<u32>),
    /// The step that goes wrong.
    Unwritten(u64, Fault),
}

/// What is found, and what was counted.
#[derive(Clone, Copy, Debug, PartialEq, Eq)]
pub struct Told {
    pub verdict: Verdict,
    pub states: usize,
    pub depth: u32,
    pub outcomes: usize,
    pub widest: usize,
    pub quiet: usize,
}

fn verdict_of(finding: &Finding) -> Verdict {
    match finding {
        Finding::Closed => Verdict::Closed,
        Finding::SafeTo(depth) => Verdict::SafeTo(*depth),
        Finding::BadStep(bad) => Verdict::Bad(bad.step, bad.fault),
        Finding::WrongFirst => Verdict::WrongFirst,
        Finding::TooManyStates(safe) => Verdict::TooManyStates(*safe),
        Finding::TooManyOutcomes { safe, crowd } => {
            Verdict::TooManyOutcomes(*safe, crowd.first, crowd.others)
        }
        Finding::NoMemory(safe) => Verdict::NoMemory(*safe),
        Finding::Unwritten(unwritten) => Verdict::Unwritten(unwritten.step, unwritten.fault),
    }
}

/// What a result tells.
pub fn told_by(answered: &ExplorationResult) -> Told {
    Told {
        verdict: verdict_of(&answered.finding),
        states: answered.states,
        depth: answered.depth,
        outcomes: answered.outcomes,
        widest: answered.widest,
        quiet: answered.quiet,
    }
}
