//! Which run is drawn.
ghost use Rattle.std.specs.Prelude.{◌<◌, ◌^◌};

use asm_syntax::term::Term;

/// Which run is drawn: as run 0 of the runs from a seed.
#[derive(Drop)]
pub struct DrawQuestion {
    /// The run is drawn up to a state in which this isn't true.
    pub always: Option<Term>,
    pub turns: u32,
    /// It is of at most this many steps.
    pub steps: u32,
    /// What is drawn depends on it alone.
    pub seed: u64,
    pub ghost turns_in_range: { turns < 2 ^ 32 },
}
