//! What is found if a run goes wrong.
ghost use Rattle.std.specs.Prelude.{ℕ, IfOk};
ghost use Rattle.asm_random.specs.RandomResults.{Claims, Counts, IsLast};
ghost use Rattle.asm_random.specs.code.ResolvedRuns.{CanRun, crowds_in, rests_in, right_in, specification_in};
ghost use Rattle.asm_random.specs.code.ShorterRuns.{IsWrongFor};

use crate::bad_draft::BadDraft;
use crate::random_result::RandomFinding;
use crate::shortening::shorten;
use asm_explore::{BadRun, ResolvedQuestion, Unwritten, chosen_text};
use std::alloc::{AllocError, Global};

/// What is found if the run with this number goes wrong: with the script of the choices that it
/// makes, and that lead to the fault.
fn finding_of(
    alloc: Global,
    specified: &ResolvedQuestion<'_>,
    number: u32,
    run: &BadDraft,
) -> Result<RandomFinding, AllocError>
    requires { CanRun specified.now }
    ensures claims { let m = specified.now in
        (most : ℕ) → IsWrongFor m most run.now →
        IfOk result (Claims (specification_in m) m.turns (crowds_in m) most (right_in m) (rests_in m)) }
    ensures counts { let m = specified.now in
        (most asked runs total : ℕ) → IsLast (specification_in m) m.turns (crowds_in m) most (right_in m) (rests_in m) asked runs total number run.now.wrong.step run.now.wrong.fault →
        IfOk result (Counts (specification_in m) m.turns (crowds_in m) most (right_in m) (rests_in m) asked runs total) }
{
    let (step, fault) = (u64::from(run.wrong.step), run.wrong.fault);
    match chosen_text(alloc, specified, &run.draft, run.wrong.steps_to_it())? {
        Some(script) => Ok(RandomFinding::Bad {
            run: number,
            bad: BadRun {
                script,
                step,
                fault,
            },
        }),
        None => Ok(RandomFinding::Unwritten(Unwritten { step, fault })),
    }
}

/// What is found if a run goes wrong.
#[derive(Drop)]
pub(crate) struct ShortFinding {
    pub(crate) finding: RandomFinding,
    /// Whether no line of the script can go, and no step.
    pub(crate) shortest: bool,
}

/// What is found if the run with this number goes wrong, made shorter.
pub(crate) fn short_finding(
    alloc: Global,
    specified: &ResolvedQuestion<'_>,
    number: u32,
    run: BadDraft,
) -> Result<ShortFinding, AllocError>
    requires { CanRun specified.now }
    ensures claims { let m = specified.now in
        (most : ℕ) → IsWrongFor m most run →
        IfOk result (λ found. Claims (specification_in m) m.turns (crowds_in m) most (right_in m) (rests_in m) found.finding) }
    ensures counts { let m = specified.now in
        (most asked runs total : ℕ) → IsLast (specification_in m) m.turns (crowds_in m) most (right_in m) (rests_in m) asked runs total number run.wrong.step run.wrong.fault →
        IfOk result (λ found. Counts (specification_in m) m.turns (crowds_in m) most (right_in m) (rests_in m) asked runs total found.finding) }
{
    let mut run = run;
    let shortest = shorten(alloc, specified, &mut run)?;
    let finding = finding_of(alloc, specified, number, &run)?;
    Ok(ShortFinding { finding, shortest })
}
