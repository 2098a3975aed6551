//! Steps between numbered nodes: which nodes reach a cycle, which are on
//! one, and which begin a long way.
ghost use Rattle.std.specs.Prelude.{◌≡◌, ◌<◌, ◌↔◌, ℕ, IsTrue, true, false, IfOk, length, All, slice_get, Some, map, OnOk};
ghost use Rattle.asm_check.specs.code.cycles.Graph.{IsGraph, next_of, step_lists};
ghost use Rattle.asm_check.specs.code.cycles.MarkedNodes.{HasMarked, HasMarkedStep, is_marked};
ghost use Rattle.asm_check.specs.code.cycles.CycleSearch.{is_reaching};
ghost use Rattle.asm_check.specs.CallGraph.{LeadsTo, ReachesCycle, BeginsPath};

use crate::cycles::cycle_search::{Mark, Search};
use std::alloc::{AllocError, Global};

/// Of each node, whether a cycle is reached from it. Takes time in proportion to the steps.
pub(crate) fn reach_cycles(alloc: Global, steps: &[Vec<usize>]) -> Result<Vec<bool>, AllocError>
    requires { IsGraph (step_lists steps.now) }
    ensures len { IfOk result (λ reach. length reach.items ≡ length steps.now) }
    ensures reach { IfOk result (λ reach. (n : ℕ) → (slice_get reach.items n ≡ Some true) → ReachesCycle (next_of (step_lists steps.now)) n) }
    ensures settled { IfOk result (λ reach. (n : ℕ) → (slice_get reach.items n ≡ Some false) → ¬ (ReachesCycle (next_of (step_lists steps.now)) n)) }
{
    let mut search = Search::new(alloc, steps)?;
    for node in 0..steps.len() {
        search.explore(steps, node)?;
    }
    are_reaching(alloc, &search.marks)
}

/// Of each mark, whether it says that a cycle is reached.
fn are_reaching(alloc: Global, marks: &[Mark]) -> Result<Vec<bool>, AllocError>
    ensures { IfOk result (λ reach. reach.items ≡ map is_reaching marks.now) }
{
    marks
        .iter()
        .map(|mark| matches!(mark, Mark::Cyclic))
        .collect(alloc)
}

/// Of each node, whether a way of `count` steps begins at it.
pub(crate) fn begin_paths(
    alloc: Global,
    steps: &[Vec<usize>],
    count: usize,
) -> Result<Vec<bool>, AllocError>
    requires { IsGraph (step_lists steps.now) }
    ensures len { IfOk result (λ ways. length ways.items ≡ length steps.now) }
    ensures ways { IfOk result (λ ways. (n : ℕ) → (slice_get ways.items n ≡ Some true) → BeginsPath (next_of (step_lists steps.now)) count n) }
    ensures none { IfOk result (λ ways. (n : ℕ) → (slice_get ways.items n ≡ Some false) → ¬ (BeginsPath (next_of (step_lists steps.now)) count n)) }
{
    let mut ways = vec![in alloc; true; steps.len()]?;
    for _ in 0..count {
        ways = one_step_more(alloc, steps, &ways)?;
    }
    Ok(ways)
}

/// Of each node, whether some step leads to a node at which a way begins.
fn one_step_more(
    alloc: Global,
    steps: &[Vec<usize>],
    ways: &[bool],
) -> Result<Vec<bool>, AllocError>
    requires graph { IsGraph (step_lists steps.now) }
    requires len { length ways.now ≡ length steps.now }
    ensures len { IfOk result (λ longer. length longer.items ≡ length steps.now) }
    ensures ways { IfOk result (λ longer. (n : ℕ) → n < length steps.now → IsTrue (is_marked longer.items n) ↔ HasMarkedStep (next_of (step_lists steps.now) n) ways.now) }
{
    let mut longer = Vec::with_capacity(alloc, steps.len())?;
    for onward in steps {
        longer.push(is_some_marked(onward, ways))?;
    }
    Ok(longer)
}

/// Whether some of the nodes is marked.
fn is_some_marked(nodes: &[usize], marks: &[bool]) -> bool
    requires { All (λ n. n < length marks.now) nodes.now }
    ensures { IsTrue result ↔ HasMarkedStep nodes.now marks.now }
{
    for node in nodes {
        if marks[*node] {
            return true;
        }
    }
    false
}

/// Whether some way from a node leads back to it.
pub(crate) fn leads_back(
    alloc: Global,
    steps: &[Vec<usize>],
    node: usize,
) -> Result<bool, AllocError>
    requires graph { IsGraph (step_lists steps.now) }
    requires node { node < length steps.now }
    ensures { IfOk result (λ back. IsTrue back ↔ LeadsTo (next_of (step_lists steps.now)) node node) }
{
    let mut marks = vec![in alloc; false; steps.len()]?;
    let mut waiting = vec![in alloc; node]?;
    while let Some(from) = waiting.pop() {
        mark_all(&steps[from], &mut marks, &mut waiting)?;
    }
    Ok(marks[node])
}

/// Marks each of the nodes. Those that weren't marked have to wait until their steps are followed.
fn mark_all(
    nodes: &[usize],
    marks: &mut Vec<bool>,
    waiting: &mut Vec<usize>,
) -> Result<(), AllocError>
    requires { All (λ n. n < length marks.old.items) nodes.now }
    ensures { OnOk result (HasMarked nodes.now marks.old.items waiting.old.items marks.new.items waiting.new.items) }
{
    for node in nodes {
        if !marks[*node] {
            marks[*node] = true;
            waiting.push(*node)?;
        }
    }
    Ok(())
}
