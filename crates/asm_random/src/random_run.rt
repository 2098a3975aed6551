//! A random run.
ghost use Rattle.std.specs.Prelude.{IfNone, IfOk, IfSome};
ghost use Rattle.asm_random.specs.code.DraftSteps.{IsFineDraft, IsWrongDraft};
ghost use Rattle.asm_random.specs.code.ResolvedRuns.{CanRun};

use crate::draft::Draft;
use crate::drawn_step::draw_step;
use crate::position::Position;
use crate::random_source::RandomSource;
use crate::stepping::step_from;
use asm_eval::Choices;
use asm_explore::{Fault, ResolvedQuestion};
use asm_meaning::laws::run_laws;
use std::alloc::{AllocError, Global};

/// A run that was drawn.
#[derive(Drop)]
pub(crate) struct DrawnRun {
    pub(crate) draft: Draft,
    /// This many steps were made.
    pub(crate) steps: u32,
    /// How the last of them went wrong, if it did.
    pub(crate) fault: Option<Fault>,
}

/// A run of at most `steps` steps. It ends when it goes wrong, and when a step makes no choice and
/// changes nothing: no later one does.
pub(crate) fn random_run(
    alloc: Global,
    specified: &ResolvedQuestion<'_>,
    source: RandomSource,
    steps: u32,
) -> Result<DrawnRun, AllocError>
    requires { CanRun specified.now }
    ensures wrong { IfOk result (λ drawn. IfSome drawn.fault (IsWrongDraft specified.now steps drawn.draft drawn.steps)) }
    ensures fine { IfOk result (λ drawn. IfNone drawn.fault (IsFineDraft specified.now steps drawn.draft drawn.steps)) }
{
    run_laws();
    let mut draft = Draft::new(alloc);
    let mut at = Position::first(alloc, specified)?;
    for done in 0..steps {
        let chosen = draw_step(alloc, specified, source, &at.state, &mut draft)?;
        let choices = Choices {
            script: &draft,
            step: u64::from(done) + 1,
        };
        let next = match step_from(alloc, specified, &choices, &at)? {
            Ok(next) => next,
            Err(fault) => {
                let (steps, fault) = (done + 1, Some(fault));
                return Ok(DrawnRun {
                    draft,
                    steps,
                    fault,
                });
            }
        };
        if !chosen && next.stays {
            let (steps, fault) = (done + 1, None);
            return Ok(DrawnRun {
                draft,
                steps,
                fault,
            });
        }
        at = next;
    }
    let fault = None;
    Ok(DrawnRun {
        draft,
        steps,
        fault,
    })
}
