//! The end of a run in a step that isn't fired.
ghost use Rattle.std.specs.Prelude.{IfOk};
ghost use Rattle.asm_state.specs.Signature.{location_at};
ghost use Rattle.asm_state.specs.Updates.{UpdateSet, Clash, IsFirstFault};
ghost use Rattle.asm_updates.specs.code.SummaryRanges.{range};
ghost use Rattle.asm_updates.specs.code.Faults.{fault_of};
ghost use Rattle.asm_meaning.specs.Run.{AtFault};
ghost use Rattle.asm_run.specs.Headline.{IsReturned};

use crate::end::End;
use asm_state::location::Location;
use asm_state::signature::Signature;
use asm_state::word::Word;
use asm_updates::fault::Fault;
use std::alloc::{AllocError, Global};

/// The end in a step whose set has this first fault.
pub fn end_at_fault(
    alloc: Global,
    signature: &Signature,
    step: u64,
    fault: Fault,
) -> Result<End, AllocError>
    requires { (U : UpdateSet) × IsFirstFault U (fault_of signature.now fault) }
    ensures { (U : UpdateSet) → IsFirstFault U (fault_of signature.now fault) → IfOk result (IsReturned (AtFault step U)) }
{
    match fault {
        Fault::Clash {
            location,
            low,
            high,
        } => end_at_clash(alloc, signature, step, location, (low, high)),
        Fault::Outside { function } => Ok(End::Outside { step, function }),
    }
}

/// The same if that is a location with several values, between these bounds.
fn end_at_clash(
    alloc: Global,
    signature: &Signature,
    step: u64,
    location: usize,
    bounds: (Word, Word),
) -> Result<End, AllocError>
    requires { (U : UpdateSet) × IsFirstFault U (Clash (location_at signature.now location) (range bounds)) }
    ensures { (U : UpdateSet) → IsFirstFault U (Clash (location_at signature.now location) (range bounds)) → IfOk result (IsReturned (AtFault step U)) }
{
    match signature.location(alloc, location)? {
        Location::Proper {
            function,
            arguments,
        } => Ok(End::Clash {
            step,
            function,
            arguments,
            least: bounds.0,
            greatest: bounds.1,
        }),
        Location::Stray { .. } => unreachable!(),
    }
}
