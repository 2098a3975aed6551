//! Faults of update sets.
ghost use Rattle.std.specs.Prelude.{◌<◌, Some, IfNone, IfSome};
ghost use Rattle.asm_state.specs.Signature.{count_of, location_at};
ghost use Rattle.asm_state.specs.UpdateLaws.{LeavesNoFault};
ghost use Rattle.asm_updates.specs.code.SummaryRanges.{range};
ghost use Rattle.asm_updates.specs.code.Faults.{IsFaultAt};

use asm_state::signature::Signature;
use asm_state::word::Word;

/// Why a set can't be fired: a location has two values, or a function is updated outside its
/// domain.
#[derive(Clone, Copy, Debug, PartialEq, Eq)]
pub enum Fault {
    Clash {
        location: usize,
        low: Word,
        high: Word,
    },
    Outside {
        function: usize,
    },
}

/// The fault of a location with these bounds.
pub(crate) fn fault_at(
    signature: &Signature,
    location: usize,
    low: Word,
    high: Word,
) -> Option<Fault>
    requires { location < count_of signature.now }
    ensures settled { IfNone result (LeavesNoFault (location_at signature.now location) (Some (range (low, high)))) }
    ensures fault { IfSome result (IsFaultAt signature.now location low high) }
{
    if let Some(function) = signature.stray(location) {
        return Some(Fault::Outside { function });
    }
    if low.code() == high.code() {
        None
    } else {
        Some(Fault::Clash {
            location,
            low,
            high,
        })
    }
}
