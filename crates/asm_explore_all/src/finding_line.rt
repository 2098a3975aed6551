//! The first line of a report of all runs.
ghost use Rattle.std.specs.Prelude.{◌≡◌, IfOk};
ghost use Rattle.asm_explore_all.specs.FindingLine.{first_line as line_of, limit_line};

use asm_explore::Finding;
use asm_explore_report::first_line::{of_fault, of_first};
use std::alloc::{AllocError, Global};

/// What ended the search, and up to how many steps it is safe, if up to any.
fn of_limit(alloc: Global, name: &str, safe: Option<u32>) -> Result<Vec<u8>, AllocError>
    ensures { IfOk result (λ line. line.items ≡ limit_line name.now safe) }
{
    match safe {
        Some(depth) => Ok(format!(in alloc; "{name}, safe up to {depth} steps")?.into_bytes()),
        None => Vec::from_slice(alloc, name.as_bytes()),
    }
}

/// What is found, in a line. These words describe the fault, if there is one.
pub(crate) fn finding_line(
    alloc: Global,
    finding: &Finding,
    words: &[u8],
) -> Result<Vec<u8>, AllocError>
    ensures { IfOk result (λ line. line.items ≡ line_of finding.now words.now) }
{
    match finding {
        Finding::Closed => Vec::from_slice(alloc, b"closed"),
        Finding::SafeTo(depth) => {
            Ok(format!(in alloc; "safe up to {depth} steps")?.into_bytes())
        }
        Finding::BadStep(bad) => of_fault(alloc, bad.fault, bad.step, words),
        Finding::WrongFirst => of_first(alloc, words),
        Finding::TooManyStates(safe) => of_limit(alloc, "too many states", *safe),
        Finding::TooManyOutcomes { safe, .. } => of_limit(alloc, "too many outcomes", *safe),
        Finding::NoMemory(safe) => of_limit(alloc, "too much memory", *safe),
        Finding::Unwritten(unwritten) => of_fault(alloc, unwritten.fault, unwritten.step, words),
    }
}
