//! The first state of a run in which a condition isn't true.
ghost use Rattle.std.specs.Prelude.{◌≡◌, ◌≤◌, ◌+◌, List, None, Some, IfNone, IfOk, IfSome};
ghost use Rattle.asm_state.specs.declared.operation.Op.{Op};
ghost use Rattle.asm_syntax.specs.code.Views.{spec_of};
ghost use Rattle.asm_syntax.specs.declared.term.Term.{Term as Code};
ghost use Rattle.asm_step.specs.code.Steps.{HasMainRule};
ghost use Rattle.asm_explore_texts.specs.Comments.{lines_of};
ghost use Rattle.asm_explore_texts.specs.code.CodedConditions.{IsJoined, terms_in};
ghost use Rattle.asm_explore_report.specs.BrokenRuns.{HoldBefore, IsFirstBroken};

use crate::broken_condition::broken_in;
use crate::fault_words::Subject;
use crate::told::Told;
use asm_check::Checked;
use asm_eval::Choices;
use asm_meaning::laws::run_laws;
use asm_reader::Picks;
use asm_resolve::main_rule::resolve_main;
use asm_state::state::State;
use asm_step::{ResolvedSpecification, Step, make_step};
use asm_syntax::term::Term;
use std::alloc::{AllocError, Global};

/// A state of a run in which a condition isn't true: how many steps lead to it, and what is told of
/// the condition.
#[derive(Drop)]
pub struct BrokenState {
    pub steps: u32,
    pub told: Told,
}

/// What is told of a state that so many steps lead to.
fn broken_state(steps: u32, told: Option<Told>) -> Option<BrokenState>
    ensures some { IfSome result (λ broken. (broken.steps ≡ steps) × (told ≡ Some broken.told)) }
    ensures none { IfNone result (told ≡ None) }
{
    match told {
        Some(told) => Some(BrokenState { steps, told }),
        None => None,
    }
}

/// The first state of a resolved run in which a condition isn't true.
fn broken_by_run<P: Picks>(
    alloc: Global,
    resolved: &ResolvedSpecification<'_>,
    always: &Option<Term>,
    script: &P,
    steps: u32,
) -> Result<Option<BrokenState>, AllocError>
    requires { HasMainRule resolved.now }
    ensures some { let m = resolved.now in (links : List (Op × Code)) → IsJoined links always.now →
        IfOk result (λ found. IfSome found (λ broken. (broken.steps ≤ steps)
        × IsFirstBroken (spec_of m.checked.now.spec) (terms_in links) m.turns (P.script script.now) broken.steps broken.told.words.items (lines_of broken.told.because.items))) }
    ensures none { let m = resolved.now in (links : List (Op × Code)) → IsJoined links always.now →
        IfOk result (λ found. IfNone found (HoldBefore (spec_of m.checked.now.spec) (terms_in links) m.turns (P.script script.now) (steps + 1))) }
{
    run_laws();
    let checked = resolved.checked;
    let mut state = State::initial(alloc, checked.signature())?;
    for done in 0..steps {
        let told = broken_in(alloc, checked, always, &state)?;
        if told.is_some() {
            return Ok(broken_state(done, told));
        }
        let choices = Choices {
            script,
            step: u64::from(done) + 1,
        };
        let made = make_step(alloc, resolved, &choices, &state)?;
        match made {
            Step::Next(next) => state = next,
            Step::Faulty(_) => return Ok(None),
            Step::Exhausted(_) => return Ok(None),
        }
    }
    let told = broken_in(alloc, checked, always, &state)?;
    Ok(broken_state(steps, told))
}

/// The first state of the run of a specification in which a condition isn't true. The main rule is
/// resolved once.
fn broken_of<P: Picks>(
    alloc: Global,
    checked: &Checked,
    turns: u32,
    always: &Option<Term>,
    script: &P,
    steps: u32,
) -> Result<Option<BrokenState>, AllocError>
    ensures some { let s = spec_of checked.now.spec in (links : List (Op × Code)) → IsJoined links always.now →
        IfOk result (λ found. IfSome found (λ broken. (broken.steps ≤ steps)
        × IsFirstBroken s (terms_in links) turns (P.script script.now) broken.steps broken.told.words.items (lines_of broken.told.because.items))) }
    ensures none { let s = spec_of checked.now.spec in (links : List (Op × Code)) → IsJoined links always.now →
        IfOk result (λ found. IfNone found (HoldBefore s (terms_in links) turns (P.script script.now) (steps + 1))) }
{
    let code = resolve_main(alloc, checked)?;
    let resolved = ResolvedSpecification {
        checked,
        code: &code,
        turns,
    };
    let broken = broken_by_run(alloc, &resolved, always, script, steps);
    drop(code);
    broken
}

/// The first state of the run under a script, of at most `steps` steps, in which a condition isn't
/// true. Without a condition no run is made.
pub fn first_broken<P: Picks>(
    alloc: Global,
    subject: &Subject<'_>,
    script: &P,
    steps: u32,
) -> Result<Option<BrokenState>, AllocError>
    ensures some { let s = spec_of subject.now.checked.now.spec in (links : List (Op × Code)) → IsJoined links subject.now.always.now →
        IfOk result (λ found. IfSome found (λ broken. (broken.steps ≤ steps)
        × IsFirstBroken s (terms_in links) subject.now.turns (P.script script.now) broken.steps broken.told.words.items (lines_of broken.told.because.items))) }
    ensures none { let s = spec_of subject.now.checked.now.spec in (links : List (Op × Code)) → IsJoined links subject.now.always.now →
        IfOk result (λ found. IfNone found (HoldBefore s (terms_in links) subject.now.turns (P.script script.now) (steps + 1))) }
{
    if subject.always.is_none() {
        return Ok(None);
    }
    let (checked, turns) = (subject.checked, subject.turns);
    let broken = broken_of(alloc, checked, turns, subject.always, script, steps)?;
    Ok(broken)
}
