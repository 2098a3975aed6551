//! The exploration of a machine, and its result.
ghost use Rattle.std.specs.Prelude.{◌≡◌, ◌≢◌, ◌∷◌, ◌<◌, ◌≤◌, ◌+◌, ℕ, List, suc, Some, true, IfOk, IfSome, length, slice_get};
ghost use Rattle.asm_state.specs.code.Contents.{IsStateOf};
ghost use Rattle.asm_state.specs.Location.{State as Contents};
ghost use Rattle.asm_state.specs.Signature.{count_of, state_of};
ghost use Rattle.asm_explore.specs.declared.fault.Fault.TheVariants.{Deadlock};
ghost use Rattle.asm_explore.specs.ExplorationResults.{Claims, IsExplorationResult, IsLookedThrough, IsQuietRun};
ghost use Rattle.asm_explore.specs.code.PackedNodes.{Node};
ghost use Rattle.asm_explore.specs.code.OutcomeLists.{Each};
ghost use Rattle.asm_explore.specs.code.QuietStates.{IsFirstQuiet};
ghost use Rattle.asm_explore.specs.code.ReachedStates.{AreInside, GoesWrongSo, IsGood, IsLinked, Rises};
ghost use Rattle.asm_explore.specs.code.StepOutcomes.{IsOverLimitOf};
ghost use Rattle.asm_explore.specs.Search.{HoldsBefore, IsAliveOrCrowded, IsDeadlock, IsSafeUpTo, steps_to};
ghost use Rattle.asm_explore.specs.StateLists.{IsAmongFirst};

use crate::exploration_result::{BadRun, ExplorationResult, Finding, QuietRun, Unwritten};
use crate::fault::Fault;
use crate::machine::Machine;
use crate::outcomes::listed_outcome::Choice;
use crate::progress::{Progress, Watch};
use crate::search::explore;
use crate::search_error::SearchError;
use crate::search_result::{BadStep, SearchEnd, SearchResult};
use crate::settled::before;
use crate::states::nodes::Nodes;
use crate::states::trail::trail_to;
use asm_state::state::State;
use std::alloc::{AllocError, Global};

/// The depth of the last node, which no other is above.
fn greatest_depth(nodes: &Nodes) -> u32
    requires { Rises nodes.now }
    ensures { Each (λ n. n.depth ≤ result) nodes.now }
{
    let count = nodes.len();
    if count > 0 { nodes.depth(count - 1) } else { 0 }
}

/// The steps that lead to a fault of the step after `before` steps. A deadlock is there before it.
fn steps_to(fault: Fault, before: u32) -> u32
    requires { fault ≢ Deadlock → before < 4_294_967_295 }
    ensures { result ≡ steps_to fault (before + 1) }
{
    match fault {
        Fault::Deadlock => before,
        Fault::Exhausted | Fault::Inconsistent | Fault::Wrong => before + 1,
    }
}

/// What is found if the step of a node goes wrong, up to whose depth no run does.
fn bad_run<M: Machine>(
    alloc: Global,
    machine: &M,
    initial: &State,
    nodes: &Nodes,
    bad: BadStep,
    steps: u32,
    whole: u32,
) -> Result<Finding, AllocError>
    requires machine { M.is_sound machine.now }
    requires initial { length initial.now ≡ count_of (M.shape machine.now) }
    requires nodes { Each (IsGood (M.shape machine.now) (M.right machine.now)) nodes.now }
    requires linked { Each (IsLinked (M.shape machine.now) (M.specification machine.now) (M.turns machine.now) nodes.now) nodes.now }
    requires inside { AreInside (M.shape machine.now) (M.specification machine.now) (M.turns machine.now) (M.within machine.now) nodes.now }
    requires wrong { GoesWrongSo (M.specification machine.now) (M.turns machine.now) (M.right machine.now) (M.rests machine.now) (M.within machine.now) (M.shape machine.now) nodes.now bad }
    requires low { whole ≤ steps }
    requires deep { (n : Node) → slice_get nodes.now bad.from ≡ Some n → (n.depth ≡ whole) × (bad.fault ≢ Deadlock → n.depth < steps) }
    requires safe { IsSafeUpTo (M.specification machine.now) (M.turns machine.now) (M.within machine.now) (λ A. (M.right machine.now) A ≡ true) whole }
    requires alive { HoldsBefore (M.specification machine.now) (M.turns machine.now) (M.within machine.now) (λ A. ¬ (IsDeadlock (M.specification machine.now) (M.turns machine.now) (M.rests machine.now) A)) whole }
    requires outranked { bad.fault ≢ Deadlock → HoldsBefore (M.specification machine.now) (M.turns machine.now) (M.within machine.now) (IsAliveOrCrowded (M.specification machine.now) (M.turns machine.now) (IsOverLimitOf (M.made machine.now) (M.limit machine.now)) (M.rests machine.now)) (suc whole) }
    ensures through { (looked : ℕ) (states : List Contents) → HoldsBefore (M.specification machine.now) (M.turns machine.now) (M.within machine.now) (IsAmongFirst looked states) whole →
        IfOk result (IsLookedThrough (M.specification machine.now) (M.turns machine.now) (M.within machine.now) (IsAmongFirst looked states)) }
    ensures claims { (limit : ℕ) (states : List Contents) → IfOk result (Claims (M.specification machine.now) (M.turns machine.now) (IsOverLimitOf (M.made machine.now) (M.limit machine.now)) steps limit (M.right machine.now) (M.rests machine.now) (M.within machine.now) states) }
{
    let trail = match trail_to(alloc, machine, nodes, bad.from, initial) {
        Ok(trail) => trail,
        Err(SearchError::Outcomes(crowd)) => {
            return Ok(Finding::TooManyOutcomes {
                safe: before(whole),
                crowd,
            });
        }
        Err(SearchError::Memory) => return Err(AllocError),
        Err(SearchError::States) => unreachable!(),
    };
    let (step, fault) = (u64::from(whole) + 1, bad.fault);
    let back = with_first(bad.choices, trail)?;
    match machine.chosen_text(alloc, back.as_slice(), steps_to(fault, whole))? {
        Some(script) => Ok(Finding::BadStep(BadRun {
            script,
            step,
            fault,
        })),
        None => Ok(Finding::Unwritten(Unwritten { step, fault })),
    }
}

/// Some choices, and others after them.
fn with_first(first: Vec<Choice>, others: Vec<Vec<Choice>>) -> Result<Vec<Vec<Choice>>, AllocError>
    ensures { IfOk result (λ all. all.items ≡ first ∷ others.items) }
{
    let mut all = others;
    all.insert(0, first)?;
    Ok(all)
}

/// A run that comes to the first of the quiet nodes, unless there is none, or it isn't found again
/// or written.
fn quiet_run<M: Machine>(
    alloc: Global,
    machine: &M,
    initial: &State,
    nodes: &Nodes,
    quiet: &[u32],
) -> Option<QuietRun>
    requires machine { M.is_sound machine.now }
    requires initial { length initial.now ≡ count_of (M.shape machine.now) }
    requires nodes { Each (IsGood (M.shape machine.now) (M.right machine.now)) nodes.now }
    requires linked { Each (IsLinked (M.shape machine.now) (M.specification machine.now) (M.turns machine.now) nodes.now) nodes.now }
    requires inside { AreInside (M.shape machine.now) (M.specification machine.now) (M.turns machine.now) (M.within machine.now) nodes.now }
    requires first { IsFirstQuiet (M.shape machine.now) (M.specification machine.now) (M.turns machine.now) (M.within machine.now) nodes.now quiet.now }
    ensures run { IfSome result (IsQuietRun (M.specification machine.now) (M.turns machine.now) (M.within machine.now)) }
    ensures some { IfSome result (λ run. 0 < length quiet.now) }
{
    if quiet.len() == 0 {
        return None;
    }
    let first = quiet[0] as usize;
    let Ok(trail) = trail_to(alloc, machine, nodes, first, initial) else {
        return None;
    };
    let steps = nodes.depth(first);
    match machine.chosen_text(alloc, trail.as_slice(), steps) {
        Ok(Some(script)) => Some(QuietRun {
            script,
            steps: u64::from(steps),
        }),
        Ok(None) | Err(AllocError) => None,
    }
}

/// Looks through all runs of `steps` steps, of at most `limit` states.
pub fn explore_machine<M: Machine, W: Watch<Progress>>(
    alloc: Global,
    machine: &M,
    initial: &State,
    steps: u32,
    limit: u32,
    watch: &mut W,
) -> Result<ExplorationResult, AllocError>
    requires machine { M.is_sound machine.now }
    requires kept { IsStateOf (M.shape machine.now) initial.now }
    requires initial { state_of (M.shape machine.now) initial.now ≡ (M.specification machine.now).initial }
    ensures { IfOk result (IsExplorationResult (M.specification machine.now) (M.turns machine.now) (IsOverLimitOf (M.made machine.now) (M.limit machine.now)) steps limit (M.right machine.now) (M.rests machine.now) (M.within machine.now)) }
{
    if !machine.is_right(alloc, initial) {
        return Ok(ExplorationResult {
            finding: Finding::WrongFirst,
            states: 0,
            depth: 0,
            outcomes: 0,
            widest: 0,
            quiet: 0,
            first_quiet: None,
        });
    }
    let SearchResult {
        nodes,
        whole,
        safe,
        ended,
        outcomes,
        widest,
        quiet,
        ..
    } = explore(alloc, machine, initial, steps, limit, watch)?;
    let finding = match ended {
        SearchEnd::Closed => Finding::Closed,
        SearchEnd::AtLimit => Finding::SafeTo(whole),
        SearchEnd::BadStep(bad) => bad_run(alloc, machine, initial, &nodes, bad, steps, whole)?,
        SearchEnd::TooManyStates => Finding::TooManyStates(safe),
        SearchEnd::TooManyOutcomes(crowd) => Finding::TooManyOutcomes { safe, crowd },
        SearchEnd::Memory => Finding::NoMemory(safe),
    };
    let first_quiet = quiet_run(alloc, machine, initial, &nodes, quiet.as_slice());
    Ok(ExplorationResult {
        finding,
        states: nodes.len(),
        depth: greatest_depth(&nodes),
        outcomes,
        widest,
        quiet: quiet.len(),
        first_quiet,
    })
}
