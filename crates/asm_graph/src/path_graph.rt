//! The graph of the states of one run.
ghost use Rattle.std.specs.Prelude.{◌≡◌, ◌+◌, ◌<◌, ◌^◌, ◌∷◌, [], length, IfErr, IfOk, OnOk};
ghost use Rattle.asm_state.specs.code.Contents.{IsStateOf};
ghost use Rattle.asm_state.specs.Signature.{count_of, state_of};
ghost use Rattle.asm_check.specs.Shapes.{shape_of};
ghost use Rattle.asm_meaning.specs.Declarations.{specification_of};
ghost use Rattle.asm_syntax.specs.code.Views.{spec_of};
ghost use Rattle.asm_explore.specs.RunChoices.{chosen_from};
ghost use Rattle.asm_explore.specs.Search.{LeadsOn};
ghost use Rattle.asm_explore.specs.TakenChoices.{steps_from};
ghost use Rattle.asm_explore.specs.code.ResolvedConditions.{IsSpecified, holds_in, term_holds};
ghost use Rattle.asm_explore.specs.code.StepLeads.{situation_of};
ghost use Rattle.asm_graph.specs.Graphs.{HasFault};
ghost use Rattle.asm_graph.specs.PathGraphs.{IsEdgesOf, IsPathGraph, IsPathNode};
ghost use Rattle.asm_graph.specs.code.WaySoFar.{HasNodeMore, IsEndOf, IsWayMore};

use crate::find_node::{hash_of, is_same_state};
use crate::graph::{Edge, EdgeEnd, Graph, Node, Step, StepFault};
use crate::made_choices::made_choices;
use crate::next_state::kind_of;
use asm_check::Checked;
use asm_eval::Choices;
use asm_explore::condition::condition_code;
use asm_explore::{Choice, Machine, Question, ResolvedQuestion};
use asm_reader::Picks;
use asm_resolve::main_rule::resolve_main;
use asm_state::state::State;
use asm_step::{ResolvedSpecification, Step as Made, make_step};
use std::alloc::{AllocError, Global};

/// A node for the state after `depth` steps.
fn path_node(
    alloc: Global,
    specified: &ResolvedQuestion<'_>,
    state: &State,
    depth: u32,
) -> Result<Node, AllocError>
    requires specified { IsSpecified specified.now }
    requires whole { length state.now ≡ count_of (shape_of (spec_of specified.now.checked.now.spec)) }
    ensures node { let shape = shape_of (spec_of specified.now.checked.now.spec) in
        IfOk result (IsPathNode shape (holds_in shape specified.now.always.now) (holds_in shape specified.now.when_quiet.now) (state_of shape state.now)) }
    ensures whole { IfOk result (λ n. length n.state ≡ count_of (shape_of (spec_of specified.now.checked.now.spec))) }
{
    let right = specified.is_right(alloc, state);
    let rests = specified.may_rest(alloc, state);
    let hash = hash_of(state, specified.checked.signature().count());
    let state = state.copy(alloc)?;
    Ok(Node {
        state,
        depth,
        right,
        rests,
        hash,
    })
}

/// The state that the step from a state leads to, or its fault.
fn state_behind<P: Picks>(
    alloc: Global,
    specified: &ResolvedQuestion<'_>,
    choices: &Choices<'_, P>,
    state: &State,
) -> Result<Result<State, StepFault>, AllocError>
    requires specified { IsSpecified specified.now }
    requires state { IsStateOf (shape_of (spec_of specified.now.checked.now.spec)) state.now }
    ensures leads { let s = spec_of specified.now.checked.now.spec in let A = state_of (shape_of s) state.now in
        IfOk result (λ led. IfOk led (λ next. LeadsOn (steps_from (specification_of s) specified.now.turns A (situation_of P.script choices.now)) A (λ B. B ≡ state_of (shape_of s) next))) }
    ensures state { IfOk result (λ led. IfOk led (IsStateOf (shape_of (spec_of specified.now.checked.now.spec)))) }
    ensures fault { let s = spec_of specified.now.checked.now.spec in let A = state_of (shape_of s) state.now in
        IfOk result (λ led. IfErr led (λ fault. HasFault fault (steps_from (specification_of s) specified.now.turns A (situation_of P.script choices.now)))) }
{
    let resolved = ResolvedSpecification {
        checked: specified.checked,
        code: specified.code,
        turns: specified.turns,
    };
    match make_step(alloc, &resolved, choices, state)? {
        Made::Next(next) => Ok(Ok(next)),
        Made::Faulty(fault) => Ok(Err(kind_of(fault))),
        Made::Exhausted(_) => Ok(Err(StepFault::Exhausted)),
    }
}

/// Where the edge from the node with this number leads, and the state behind it, if the run goes on:
/// unless the step has a fault, or changes nothing.
fn end_of<P: Picks>(
    alloc: Global,
    specified: &ResolvedQuestion<'_>,
    choices: &Choices<'_, P>,
    number: u64,
    state: &State,
) -> Result<(EdgeEnd, Option<State>), AllocError>
    requires low { number + 1 < 2 ^ 64 }
    requires specified { IsSpecified specified.now }
    requires state { IsStateOf (shape_of (spec_of specified.now.checked.now.spec)) state.now }
    ensures { let s = spec_of specified.now.checked.now.spec in let A = state_of (shape_of s) state.now in
        IfOk result (λ made. IsEndOf (shape_of s) number A (steps_from (specification_of s) specified.now.turns A (situation_of P.script choices.now)) made.0 made.1) }
{
    match state_behind(alloc, specified, choices, state)? {
        Ok(next) => {
            if is_same_state(state, &next, specified.checked.signature().count()) {
                return Ok((EdgeEnd::Node(number as usize), None));
            }
            Ok((EdgeEnd::Node(number as usize + 1), Some(next)))
        }
        Err(fault) => Ok((EdgeEnd::Fault(fault), None)),
    }
}

/// A step with one edge.
fn one_edge(alloc: Global, choices: Vec<Choice>, to: EdgeEnd) -> Result<Step, AllocError>
    ensures { IfOk result (IsEdgesOf (record { choices = choices; to = to } ∷ [])) }
{
    let mut edges = Vec::new(alloc);
    edges.push(Edge { choices, to })?;
    Ok(Step::Edges(edges))
}

/// Adds a node for the state after `done` steps, with what is shown of the step from it.
fn add_node(
    alloc: Global,
    specified: &ResolvedQuestion<'_>,
    done: u64,
    state: &State,
    step: Step,
    graph: &mut Graph,
) -> Result<(), AllocError>
    requires specified { IsSpecified specified.now }
    requires whole { length state.now ≡ count_of (shape_of (spec_of specified.now.checked.now.spec)) }
    ensures { let shape = shape_of (spec_of specified.now.checked.now.spec) in
        OnOk result (HasNodeMore shape (holds_in shape specified.now.always.now) (holds_in shape specified.now.when_quiet.now) (state_of shape state.now) step graph.old graph.new) }
{
    let depth = done.min(u64::from(u32::MAX)) as u32;
    let node = path_node(alloc, specified, state, depth)?;
    graph.nodes.push(node)?;
    graph.steps.push(step)?;
    Ok(())
}

/// Adds a node for the state after `done` steps, and the edge that the run takes from it. Returns
/// the state behind it, if the run goes on.
fn step_on<P: Picks>(
    alloc: Global,
    specified: &ResolvedQuestion<'_>,
    script: &P,
    done: u64,
    state: &State,
    graph: &mut Graph,
) -> Result<Option<State>, AllocError>
    requires low { done + 1 < 2 ^ 64 }
    requires specified { IsSpecified specified.now }
    requires state { IsStateOf (shape_of (spec_of specified.now.checked.now.spec)) state.now }
    ensures { let s = spec_of specified.now.checked.now.spec in let shape = shape_of s in
        IfOk result (IsWayMore shape (holds_in shape specified.now.always.now) (holds_in shape specified.now.when_quiet.now) (specification_of s) specified.now.turns (P.script script.now) done (state_of shape state.now) graph.old graph.new) }
{
    let choices = Choices {
        script,
        step: done + 1,
    };
    let made = made_choices(alloc, specified, &choices, state)?;
    let (to, next) = end_of(alloc, specified, &choices, done, state)?;
    let step = one_edge(alloc, made, to)?;
    add_node(alloc, specified, done, state, step, graph)?;
    Ok(next)
}

/// The graph of the run of at most `limit` steps of a resolved specification.
fn path_of<P: Picks>(
    alloc: Global,
    specified: &ResolvedQuestion<'_>,
    script: &P,
    limit: u64,
) -> Result<Graph, AllocError>
    requires { IsSpecified specified.now }
    ensures { let s = spec_of specified.now.checked.now.spec in let shape = shape_of s in
        IfOk result (IsPathGraph shape (holds_in shape specified.now.always.now) (holds_in shape specified.now.when_quiet.now) (specification_of s) specified.now.turns (P.script script.now) limit) }
{
    let mut state = State::initial(alloc, specified.checked.signature())?;
    let mut graph = Graph {
        nodes: Vec::new(alloc),
        steps: Vec::new(alloc),
    };
    for done in 0..limit {
        match step_on(alloc, specified, script, done, &state, &mut graph)? {
            Some(next) => state = next,
            None => return Ok(graph),
        }
    }
    add_node(alloc, specified, limit, &state, Step::Cut, &mut graph)?;
    Ok(graph)
}

/// The limit of turns.
fn turns_of(question: &Question) -> u32
    ensures { result ≡ question.now.turns }
{
    question.turns
}

/// The graph of the states of the run of at most `limit` steps under a script, with the edges that
/// the run takes. Runs are followed from states in which the condition isn't true, too.
pub fn run_graph<P: Picks>(
    alloc: Global,
    checked: &Checked,
    question: &Question,
    script: &P,
    limit: u64,
) -> Result<Graph, AllocError>
    ensures { let s = spec_of checked.now.spec in let q = question.now in
        IfOk result (IsPathGraph (shape_of s) (term_holds checked.now q.always) (term_holds checked.now q.when_quiet) (specification_of s) q.turns (P.script script.now) limit) }
{
    let code = resolve_main(alloc, checked)?;
    let always = condition_code(alloc, checked, &question.always)?;
    let within = condition_code(alloc, checked, &question.within)?;
    let when_quiet = condition_code(alloc, checked, &question.when_quiet)?;
    let specified = ResolvedQuestion {
        checked,
        code: &code,
        turns: turns_of(question),
        limit: question.outcomes,
        always: &always,
        within: &within,
        when_quiet: &when_quiet,
    };
    let graph = path_of(alloc, &specified, script, limit)?;
    Ok(graph)
}
