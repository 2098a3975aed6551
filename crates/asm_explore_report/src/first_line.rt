//! The first line of a report that has found a fault.
ghost use Rattle.std.specs.Prelude.{◌≡◌, IfOk};
ghost use Rattle.std.specs.String.{string_bytes};
ghost use Rattle.asm_explore_report.specs.FirstLine.{fault_line, first_state_line, place_of};

use asm_explore::Fault;
use std::alloc::{AllocError, Global};

/// Where a fault of a step is said to be: in it, or in the state before or after it.
fn place(alloc: Global, fault: Fault, step: u64) -> Result<String, AllocError>
    ensures { IfOk result (λ text. string_bytes text ≡ place_of fault step) }
{
    match fault {
        Fault::Exhausted | Fault::Inconsistent => format!(in alloc; "in step {step}"),
        Fault::Wrong => format!(in alloc; "after step {step}"),
        Fault::Deadlock => {
            let before = step.saturating_sub(1);
            format!(in alloc; "after step {before}")
        }
    }
}

/// The line of a fault of a step, which these words describe.
pub fn of_fault(alloc: Global, fault: Fault, step: u64, words: &[u8]) -> Result<Vec<u8>, AllocError>
    ensures { IfOk result (λ line. line.items ≡ fault_line fault step words.now) }
{
    let place = place(alloc, fault, step)?;
    let mut line = format!(in alloc; "fault {place}: ")?.into_bytes();
    line.extend_from_slice(words)?;
    Ok(line)
}

/// The line of a first state in which a condition isn't true.
pub fn of_first(alloc: Global, words: &[u8]) -> Result<Vec<u8>, AllocError>
    ensures { IfOk result (λ line. line.items ≡ first_state_line words.now) }
{
    let mut line = Vec::from_slice(alloc, b"fault after step 0: ")?;
    line.extend_from_slice(words)?;
    Ok(line)
}
