//! The fault that is found, in words.
//!
//! The words for a run that goes wrong come from making the run again. If it ended otherwise than
//! the search found, the program would end with an error of its own (`Unshown::Unconfirmed`) and
//! give no report.
ghost use Rattle.std.specs.Prelude.{◌≡◌, List, length, IfOk, IfSome};
ghost use Rattle.std.specs.String.{string_bytes};
ghost use Rattle.asm_state.specs.code.Contents.{IsStateOf};
ghost use Rattle.asm_state.specs.Signature.{count_of, state_of};
ghost use Rattle.asm_state.specs.declared.operation.Op.{Op};
ghost use Rattle.asm_syntax.specs.code.Views.{spec_of};
ghost use Rattle.asm_syntax.specs.declared.term.Term.{Term as Code};
ghost use Rattle.asm_check.specs.Shapes.{shape_of};
ghost use Rattle.asm_reader.specs.ScriptLines as lines;
ghost use Rattle.asm_reader.specs.ScriptText.{IsScript};
ghost use Rattle.asm_meaning.specs.Declarations.{specification_of};
ghost use Rattle.asm_explore.specs.Search.{steps_to};
ghost use Rattle.asm_run.specs.Headline.{IsAccepted};
ghost use Rattle.asm_explore_texts.specs.code.CodedConditions.{IsJoined, terms_in};
ghost use Rattle.asm_meaning.specs.Run.{IsAfter};
ghost use Rattle.asm_explore_texts.specs.Comments.{lines_of};
ghost use Rattle.asm_explore_report.specs.FaultWords.{BadTells, IsBroken};

use crate::broken_condition::broken_in;
use crate::confirm_run::end_words;
use crate::shown_run::run_of;
use crate::told::Told;
use asm_check::Checked;
use asm_explore::{BadRun, Fault as StepFault};
use asm_explore_words::fault::Unshown;
use asm_reader::{Script, one_script, read_script};
use asm_resolve::main_rule::resolve_main;
use asm_state::state::State;
use asm_step::{ResolvedSpecification, state_after};
use asm_syntax::InputError;
use asm_syntax::term::Term;
use std::alloc::{AllocError, Global};
use std::thread::Threads;

/// What is said when the script of a run that goes wrong can't be written.
pub const UNWRITTEN: &[u8] = b"its script can't be written";

/// What a run is looked at for: a specification, the condition that is to be true in each state,
/// and how many turns exhaust an `iterate` or a `while`.
#[derive(Clone, Copy)]
pub struct Subject<'s> {
    pub checked: &'s Checked,
    pub always: &'s Option<Term>,
    pub turns: u32,
}

/// The words for a state in which a condition isn't true, with a line that says why.
fn words_in(alloc: Global, subject: &Subject<'_>, state: &State) -> Result<Told, Unshown>
    requires { length state.now ≡ count_of (shape_of (spec_of subject.now.checked.now.spec)) }
    ensures { (links : List (Op × Code)) → IsJoined links subject.now.always.now →
        IfOk result (λ told. IsBroken (spec_of subject.now.checked.now.spec) (terms_in links) (state_of (shape_of (spec_of subject.now.checked.now.spec)) state.now) told.words.items (lines_of told.because.items)) }
{
    match broken_in(alloc, subject.checked, subject.always, state)? {
        Some(told) => Ok(told),
        None => Err(Unshown::Unconfirmed),
    }
}

/// The state after `steps` steps of the run under a script, or none if the run ends before. The main
/// rule is resolved once.
fn state_in_run(
    alloc: Global,
    checked: &Checked,
    turns: u32,
    script: &Script,
    steps: u32,
) -> Result<Option<State>, AllocError>
    ensures state { IfOk result (λ last. IfSome last (IsStateOf (shape_of (spec_of checked.now.spec)))) }
    ensures after { let s = spec_of checked.now.spec in
        IfOk result (λ last. IfSome last (λ A. IsAfter (specification_of s) turns script.now steps (state_of (shape_of s) A))) }
{
    let code = resolve_main(alloc, checked)?;
    let resolved = ResolvedSpecification {
        checked,
        code: &code,
        turns,
    };
    let last = state_after(alloc, &resolved, script, steps);
    drop(code);
    last
}

/// The last state of the run under the script that was found.
fn last_state(alloc: Global, subject: &Subject<'_>, bad: &BadRun) -> Result<State, Unshown>
    ensures whole { IfOk result (λ s. length s ≡ count_of (shape_of (spec_of subject.now.checked.now.spec))) }
    ensures after { let s = spec_of subject.now.checked.now.spec in (script : lines.Script) → IsScript (string_bytes bad.now.script) script →
        IfOk result (λ A. IsAfter (specification_of s) subject.now.turns script (steps_to bad.now.fault bad.now.step) (state_of (shape_of s) A)) }
{
    let Ok(steps) = u32::try_from(run_of(bad).steps) else {
        return Err(Unshown::Unconfirmed);
    };
    one_script();
    let script = match read_script(alloc, bad.script.as_bytes()) {
        Ok(script) => script,
        Err(InputError::Memory) => return Err(Unshown::Memory),
        Err(InputError::Named(_)) => return Err(Unshown::Unconfirmed),
    };
    let last = state_in_run(alloc, subject.checked, subject.turns, &script, steps)?;
    match last {
        Some(state) => Ok(state),
        None => Err(Unshown::Unconfirmed),
    }
}

/// The words for a first state in which a condition isn't true, with a line that says why.
pub fn first_words(alloc: Global, subject: &Subject<'_>) -> Result<Told, Unshown>
    ensures { (links : List (Op × Code)) → IsJoined links subject.now.always.now →
        IfOk result (λ told. IsBroken (spec_of subject.now.checked.now.spec) (terms_in links) (specification_of (spec_of subject.now.checked.now.spec)).initial told.words.items (lines_of told.because.items)) }
{
    let first = State::initial(alloc, subject.checked.signature())?;
    let told = words_in(alloc, subject, &first)?;
    Ok(told)
}

/// The words for a run that goes wrong of the specification with this text, which is that of the
/// subject; with a line that says why, if a condition isn't true. The run is made again.
pub fn bad_words<R: Threads + Sync>(
    rt: &R,
    alloc: Global,
    text: &[u8],
    subject: &Subject<'_>,
    bad: &BadRun,
) -> Result<Told, Unshown>
    ensures { (links : List (Op × Code)) → IsJoined links subject.now.always.now → IsAccepted text.now (spec_of subject.now.checked.now.spec) →
        IfOk result (λ told. BadTells (spec_of subject.now.checked.now.spec) (terms_in links) subject.now.turns bad.now told.words.items (lines_of told.because.items)) }
{
    let end = end_words(rt, alloc, text, subject.checked, subject.turns, bad)?;
    match bad.fault {
        StepFault::Exhausted | StepFault::Inconsistent => Ok(Told::alone(alloc, end)),
        StepFault::Wrong => {
            let last = last_state(alloc, subject, bad)?;
            words_in(alloc, subject, &last)
        }
        StepFault::Deadlock => {
            let words = Vec::from_slice(alloc, b"deadlock")?;
            Ok(Told::alone(alloc, words))
        }
    }
}
