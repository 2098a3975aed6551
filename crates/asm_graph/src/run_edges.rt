//! The edges of a graph that a run takes.
ghost use Rattle.std.specs.Prelude.{◌≡◌, ◌==◌, [], IfOk};
ghost use Rattle.std.specs.List.{list_all, position};
ghost use Rattle.asm_explore.specs.TakenChoices.{Situation, picked};
ghost use Rattle.asm_graph.specs.Paths.{edges_at, run_edges, takes};
ghost use Rattle.asm_graph.specs.code.EdgeMarks.{AreMarks};

use crate::edge_marks::EdgeMarks;
use crate::graph::{Edge, EdgeEnd, Graph, Step};
use asm_explore::Choice;
use asm_reader::Picks;
use std::alloc::{AllocError, Global};

/// Whether a script makes this choice in a step.
fn is_taken<P: Picks>(script: &P, step: u64, choice: &Choice) -> bool
    ensures { let s : Situation = record { script = P.script script.now; step = step } in result ≡ (picked s choice.now.path == choice.now.number) }
{
    script.pick(step, choice.path.as_slice()) == choice.number
}

/// Whether a script makes the choices of an edge in a step.
fn takes_edge<P: Picks>(script: &P, step: u64, edge: &Edge) -> bool
    ensures { let s : Situation = record { script = P.script script.now; step = step } in result ≡ takes s edge.now }
{
    let choices = edge.choices.as_slice();
    choices.iter().all(|choice| is_taken(script, step, choice))
}

/// The number of the first edge whose choices a script makes in a step.
fn taken_edge<P: Picks>(edges: &[Edge], script: &P, step: u64) -> Option<usize>
    ensures { let s : Situation = record { script = P.script script.now; step = step } in result ≡ position (takes s) edges.now }
{
    edges.iter().position(|edge| takes_edge(script, step, edge))
}

/// The edges from the node with this number.
fn edges_from(steps: &[Step], node: usize) -> &[Edge]
    ensures { result.now ≡ edges_at steps.now node }
{
    match steps.get(node) {
        Some(Step::Edges(edges)) => edges.as_slice(),
        Some(Step::Cut | Step::Crowded) | None => &[],
    }
}

/// Marks the edges that the run of at most `limit` steps under a script takes from the first node
/// on: in each step the first edge whose choices the script makes. It ends where there is none.
pub fn run_marks<P: Picks>(
    alloc: Global,
    graph: &Graph,
    script: &P,
    limit: u64,
) -> Result<EdgeMarks, AllocError>
    ensures { IfOk result (AreMarks (run_edges graph.now.steps.items (P.script script.now) limit)) }
{
    let steps = graph.steps.as_slice();
    let mut marks = EdgeMarks::of_nodes(alloc, steps.len())?;
    let mut node = 0usize;
    for done in 0..limit {
        let edges = edges_from(steps, node);
        let Some(number) = taken_edge(edges, script, done + 1) else {
            return Ok(marks);
        };
        let edge = &edges[number];
        marks.add(node, number)?;
        match edge.to {
            EdgeEnd::Node(next) => node = next,
            EdgeEnd::Fault(_) => return Ok(marks),
        }
    }
    Ok(marks)
}
