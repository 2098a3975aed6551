//! How a run ends.
ghost use Rattle.std.specs.Prelude.{◌≡◌};
ghost use Rattle.asm_run.specs.Ends.{kind_of, step_of};

use asm_eval::Path;
use asm_state::arguments::Arguments;
use asm_state::word::Word;

/// Why no further step was made.
#[derive(Debug, Drop)]
pub enum End {
    /// All steps were made.
    Limit,
    /// In this step a location has several values: that of the function with this number, with
    /// these arguments. These are the least and the greatest of the values.
    Clash {
        step: u64,
        function: usize,
        arguments: Arguments,
        least: Word,
        greatest: Word,
    },
    /// In this step an update is outside the domain of the function with this number.
    Outside {
        step: u64,
        function: usize,
    },
    /// In this step the `iterate` at this path made as many turns as the limit allows.
    Exhausted {
        step: u64,
        path: Path,
    },
}

/// A kind of end.
#[derive(Clone, Copy, Debug, PartialEq, Eq)]
pub enum EndKind {
    Limit,
    Clash,
    Outside,
    Exhausted,
}

impl End {
    /// Its kind.
    pub fn kind(&self) -> EndKind
        ensures { result ≡ kind_of self.now }
    {
        match self {
            End::Limit => EndKind::Limit,
            End::Clash { .. } => EndKind::Clash,
            End::Outside { .. } => EndKind::Outside,
            End::Exhausted { .. } => EndKind::Exhausted,
        }
    }

    /// The number of the step in which the run ends, if it doesn't make all its steps.
    pub fn step(&self) -> Option<u64>
        ensures { result ≡ step_of self.now }
    {
        match self {
            End::Limit => None,
            End::Clash { step, .. } | End::Outside { step, .. } | End::Exhausted { step, .. } => {
                Some(*step)
            }
        }
    }
}
