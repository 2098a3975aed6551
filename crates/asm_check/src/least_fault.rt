//! The least fault, as a search meets one after another.
ghost use Rattle.std.specs.Prelude.{◌≡◌, false, None, [], ◌∷◌};
ghost use Rattle.asm_check.specs.Errors.{number_of, found_of};
ghost use Rattle.asm_check.specs.code.LeastFaults.{least_after, is_before};

use crate::error::{CheckError, FaultKind};

/// The least fault that was met so far: the least offset, and there the least number.
#[derive(Clone, Copy)]
pub(crate) struct LeastFault {
    pub found: Option<CheckError>,
}

impl LeastFault {
    pub(crate) fn new() -> LeastFault
        ensures { found_of result.found ≡ None }
    {
        LeastFault { found: None }
    }

    /// A fault is met.
    pub(crate) fn note(&mut self, kind: FaultKind, at: usize)
        ensures { found_of self.new.found ≡ least_after (found_of self.old.found) ((at, number_of kind) ∷ []) }
    {
        let met = CheckError { kind, at };
        let is_sooner = match self.found {
            None => true,
            Some(found) => (met.at, met.number()) < (found.at, found.number()),
        };
        if is_sooner {
            self.found = Some(met);
        }
    }

    /// Whether a fault of this kind and at this offset would change what is found.
    pub(crate) fn is_less(&self, kind: FaultKind, at: usize) -> bool
        ensures exact { result ≡ is_before (at, number_of kind) (found_of self.now.found) }
        ensures kept { result ≡ false → least_after (found_of self.now.found) ((at, number_of kind) ∷ []) ≡ found_of self.now.found }
    {
        match self.found {
            None => true,
            Some(found) => {
                let met = CheckError { kind, at };
                (met.at, met.number()) < (found.at, found.number())
            }
        }
    }
}
