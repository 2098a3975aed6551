//! Runs under a script.
ghost use Rattle.std.specs.Prelude.{◌≡◌, IfNone, IfOk, IfSome};
ghost use Rattle.asm_explore.specs.Search.{steps_to};
ghost use Rattle.asm_random.specs.BadDrafts.{IsWrongUnder};
ghost use Rattle.asm_random.specs.FineRuns.{IsFineRun};
ghost use Rattle.asm_random.specs.code.FaultKinds.{is_deadlock};
ghost use Rattle.asm_random.specs.code.ResolvedRuns.{CanRun, crowds_in, rests_in, right_in, specification_in};

use crate::position::Position;
use crate::stepping::step_from;
use asm_eval::Choices;
use asm_explore::{Fault, ResolvedQuestion};
use asm_meaning::laws::run_laws;
use asm_reader::Picks;
use std::alloc::{AllocError, Global};

/// How a run goes wrong.
#[derive(Clone, Copy, Debug, PartialEq, Eq)]
pub(crate) struct BadEnd {
    /// In this step, and in none before.
    pub(crate) step: u32,
    pub(crate) fault: Fault,
}

impl BadEnd {
    /// Whether it ends in a deadlock.
    pub(crate) fn is_deadlock(self) -> bool
        ensures { result ≡ is_deadlock self.fault }
    {
        match self.fault {
            Fault::Deadlock => true,
            Fault::Exhausted | Fault::Inconsistent | Fault::Wrong => false,
        }
    }

    /// The steps that lead to it. A deadlock is the state that its step begins in.
    pub(crate) fn steps_to_it(self) -> u32
        ensures { result ≡ steps_to self.fault self.step }
    {
        match self.fault {
            Fault::Deadlock => self.step.saturating_sub(1),
            Fault::Exhausted | Fault::Inconsistent | Fault::Wrong => self.step,
        }
    }
}

/// How the run of `steps` steps under the script goes wrong, if it does.
pub(crate) fn wrong_under<P: Picks>(
    alloc: Global,
    specified: &ResolvedQuestion<'_>,
    script: &P,
    steps: u32,
) -> Result<Option<BadEnd>, AllocError>
    requires { CanRun specified.now }
    ensures wrong { let m = specified.now in
        IfOk result (λ found. IfSome found (λ w. IsWrongUnder (specification_in m) m.turns (crowds_in m) steps (right_in m) (rests_in m) (P.script script.now) w.step w.fault)) }
    ensures fine { let m = specified.now in
        IfOk result (λ found. IfNone found (IsFineRun (specification_in m) m.turns (crowds_in m) steps (right_in m) (rests_in m) record { script = P.script script.now; steps = steps })) }
{
    run_laws();
    let mut at = Position::first(alloc, specified)?;
    for done in 0..steps {
        let choices = Choices {
            script,
            step: u64::from(done) + 1,
        };
        match step_from(alloc, specified, &choices, &at)? {
            Ok(next) => at = next,
            Err(fault) => {
                return Ok(Some(BadEnd {
                    step: done + 1,
                    fault,
                }));
            }
        }
    }
    Ok(None)
}
