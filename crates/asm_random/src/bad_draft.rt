//! Runs that go wrong.
ghost use Rattle.std.specs.Prelude.{◌≤◌, ℕ, IfNone, IfOk, IfSome};
ghost use Rattle.asm_random.specs.code.DraftSteps.{IsFineDraft};
ghost use Rattle.asm_random.specs.code.ResolvedRuns.{CanRun};
ghost use Rattle.asm_random.specs.code.ShorterRuns.{IsWrongFor};

use crate::bad_end::{BadEnd, wrong_under};
use crate::draft::Draft;
use asm_explore::ResolvedQuestion;
use std::alloc::{AllocError, Global};

/// A run that goes wrong.
#[derive(Drop)]
pub(crate) struct BadDraft {
    /// It is the run under this draft.
    pub(crate) draft: Draft,
    pub(crate) wrong: BadEnd,
}

/// The run of `steps` steps under the draft, if it goes wrong.
pub(crate) fn wrong_run(
    alloc: Global,
    specified: &ResolvedQuestion<'_>,
    draft: Draft,
    steps: u32,
) -> Result<Option<BadDraft>, AllocError>
    requires { CanRun specified.now }
    ensures wrong { (most : ℕ) → steps ≤ most → IfOk result (λ found. IfSome found (IsWrongFor specified.now most)) }
    ensures fine { IfOk result (λ found. IfNone found (IsFineDraft specified.now steps draft steps)) }
{
    match wrong_under(alloc, specified, &draft, steps)? {
        Some(wrong) => Ok(Some(BadDraft { draft, wrong })),
        None => Ok(None),
    }
}
