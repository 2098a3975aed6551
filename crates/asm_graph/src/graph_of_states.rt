//! The graph of a checked specification.
ghost use Rattle.std.specs.Prelude.{◌<◌, IfErr, IfOk};
ghost use Rattle.asm_check.specs.Shapes.{shape_of};
ghost use Rattle.asm_meaning.specs.Declarations.{specification_of};
ghost use Rattle.asm_syntax.specs.code.Views.{spec_of};
ghost use Rattle.asm_explore.specs.code.ResolvedConditions.{term_holds, IsSpecified, holds_in};
ghost use Rattle.asm_explore.specs.code.MainRule.{IsMainOverLimit};
ghost use Rattle.asm_graph.specs.Graphs.{IsGraph, IsRefusal};

use crate::build_graph::build_graph;
use crate::graph::Graph;
use crate::graph_error::GraphError;
use asm_check::Checked;
use asm_explore::condition::condition_code;
use asm_explore::{Question, ResolvedQuestion};
use asm_resolve::main_rule::resolve_main;
use asm_state::state::State;
use std::alloc::Global;

/// The graph of a resolved specification.
fn graph_of(
    alloc: Global,
    specified: &ResolvedQuestion<'_>,
    steps: u32,
    most: u32,
) -> Result<Graph, GraphError>
    requires { IsSpecified specified.now }
    ensures graph { let s = spec_of specified.now.checked.now.spec in
        IfOk result (IsGraph (shape_of s) (specification_of s) specified.now.turns (holds_in (shape_of s) specified.now.within.now)
        (IsMainOverLimit specified.now.checked.now specified.now.turns specified.now.limit) steps most
        (holds_in (shape_of s) specified.now.always.now) (holds_in (shape_of s) specified.now.when_quiet.now)) }
    ensures refused { let s = spec_of specified.now.checked.now.spec in
        IfErr result (IsRefusal (specification_of s) specified.now.turns (holds_in (shape_of s) specified.now.within.now) steps most) }
{
    let initial = State::initial(alloc, specified.checked.signature())?;
    let graph = build_graph(alloc, specified, initial, steps, most)?;
    Ok(graph)
}

/// The graph of the states that the runs of a specification come to, if there are at most `most`.
/// The limit of states in the question isn't looked at. Runs are followed from states in which the
/// condition isn't true, too. No state is in the graph twice, and each is as deep as the fewest
/// steps that lead to it, unless fewer lead to it past a state whose step has too many outcomes.
pub fn state_graph(
    alloc: Global,
    checked: &Checked,
    question: &Question,
    most: u32,
) -> Result<Graph, GraphError>
    ensures graph { let s = spec_of checked.now.spec in let q = question.now in
        IfOk result (IsGraph (shape_of s) (specification_of s) q.turns (term_holds checked.now q.within)
        (IsMainOverLimit checked.now q.turns q.outcomes) q.steps most (term_holds checked.now q.always) (term_holds checked.now q.when_quiet)) }
    ensures refused { let s = spec_of checked.now.spec in let q = question.now in
        IfErr result (IsRefusal (specification_of s) q.turns (term_holds checked.now q.within) q.steps most) }
{
    let code = resolve_main(alloc, checked)?;
    let always = condition_code(alloc, checked, &question.always)?;
    let within = condition_code(alloc, checked, &question.within)?;
    let when_quiet = condition_code(alloc, checked, &question.when_quiet)?;
    let specified = ResolvedQuestion {
        checked,
        code: &code,
        turns: question.turns,
        limit: question.outcomes,
        always: &always,
        within: &within,
        when_quiet: &when_quiet,
    };
    let graph = graph_of(alloc, &specified, question.steps, most)?;
    Ok(graph)
}
