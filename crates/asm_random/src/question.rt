//! What is looked for by random runs.
ghost use Rattle.std.specs.Prelude.{◌<◌, ◌^◌};

use asm_syntax::term::Term;

/// What is looked for, and how long.
#[derive(Drop)]
pub struct RandomQuestion {
    /// What is to hold in each state.
    pub always: Option<Term>,
    /// What is to hold in each quiet state, in which nothing changes any more, whatever is chosen.
    pub when_quiet: Option<Term>,
    pub turns: u32,
    /// Each run is of at most this many steps.
    pub steps: u32,
    /// This many runs are made.
    pub runs: u32,
    /// What is drawn depends on it alone.
    pub seed: u64,
    /// How many outcomes of a step may be listed at once, to see whether it changes nothing.
    pub outcomes: usize,
    pub ghost turns_in_range: { turns < 2 ^ 32 },
}
