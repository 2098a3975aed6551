//! Lines of scripts that are written.
ghost use Rattle.std.specs.Prelude.{◌≡◌};
ghost use Rattle.asm_explore.specs.WrittenScripts.{is_written};

/// A line of a script: in this step the `choose` at this path takes the candidate with this number.
#[derive(Clone, Copy, Debug)]
pub struct ScriptLine<'a> {
    pub step: u64,
    pub path: &'a [u64],
    pub number: u64,
}

/// Whether there is a line if the first candidate is taken, as it is without one.
#[derive(Clone, Copy, Debug, PartialEq, Eq)]
pub enum Zeros {
    /// Each line is written.
    Written,
    /// Those with number 0 are left out.
    LeftOut,
}

impl Zeros {
    /// Whether a line with this number is written.
    pub(crate) fn writes(self, number: u64) -> bool
        ensures { result ≡ is_written self number }
    {
        match self {
            Zeros::Written => true,
            Zeros::LeftOut => number != 0,
        }
    }
}
