//! Cycles of calls or uses, and ranks that are too great.
//!
//! Calls and uses are a graph over the positions of the table (`step_graph`). One depth-first
//! search with an explicit stack (`cycle_search`) finds the declarations that reach a cycle. The
//! rank of any other one is too great if a way of 17 steps begins at it: 17 rounds over all steps
//! find these.
//! `leads_back` is a search of its own, so it is run only for a declaration that reaches a cycle.
ghost use Rattle.std.specs.Prelude.{◌≡◌, ◌<◌, ℕ, suc, OnOk, length, map, option_map, true, false};
ghost use Rattle.asm_syntax.specs.code.Views.{spec_of};
ghost use Rattle.asm_check.specs.Errors.{found_of, number_of};
ghost use Rattle.asm_check.specs.code.cycles.Graph.{IsGraph, next_of, step_lists};
ghost use Rattle.asm_check.specs.code.cycles.CallsAndUses.{called_or_used};
ghost use Rattle.asm_check.specs.code.LeastFaults.{IsLeastWith};
ghost use Rattle.asm_check.specs.code.cycles.StepFaults.{IsStepFault};
ghost use Rattle.asm_check.specs.code.cycles.StepTables.{IsCycleAt, IsFaultOf, cycle_number};
ghost use Rattle.asm_check.specs.code.names.Tables.{IsTableOf, text_at};
ghost use Rattle.asm_check.specs.CallGraph.{ReachesCycle, BeginsPath};

use crate::cycles::step_graph::{begin_paths, leads_back, reach_cycles};
use crate::error::FaultKind;
use crate::least_fault::LeastFault;
use crate::names::declared_as::{Declaration, DeclaredAs};
use crate::names::name_table::NameTable;
use asm_syntax::spec::Spec;
use std::alloc::{AllocError, Global};

/// The greatest rank of a rule or derived function.
pub(crate) const MAX_RANK: usize = 16;

/// Notes rules and derived functions that lead back to themselves, and
/// those whose rank passes the limit.
pub(crate) fn note_steps(
    alloc: Global,
    spec: &Spec,
    names: &NameTable,
    steps: &[Vec<usize>],
    least: &mut LeastFault,
) -> Result<(), AllocError>
    requires table { IsTableOf (spec_of spec.now) names.now }
    requires len { length steps.now ≡ length names.now }
    requires graph { IsGraph (step_lists steps.now) }
    requires steps { (n : ℕ) → n < length names.now →
        map (text_at names.now) (next_of (step_lists steps.now) n) ≡ called_or_used (spec_of spec.now) (text_at names.now n) }
    ensures { OnOk result (IsLeastWith (IsStepFault (spec_of spec.now)) (found_of least.old.found) (found_of least.new.found)) }
{
    let _ = spec;
    let reaching = reach_cycles(alloc, steps)?;
    let reaching = reaching.as_slice();
    let long = begin_paths(alloc, steps, MAX_RANK + 1)?;
    let long = long.as_slice();
    for node in 0..names.len() {
        if let Some((_, declared)) = names.get_index(node) {
            note_node(
                alloc,
                steps,
                node,
                reaching[node],
                long[node],
                *declared,
                least,
            )?;
        }
    }
    Ok(())
}

/// Notes the faults of a declaration from which a cycle is reached, or a long way begins.
fn note_node(
    alloc: Global,
    steps: &[Vec<usize>],
    node: usize,
    is_reaching: bool,
    is_long: bool,
    declared: Declaration,
    least: &mut LeastFault,
) -> Result<(), AllocError>
    requires graph { IsGraph (step_lists steps.now) }
    requires node { node < length steps.now }
    requires reaching { is_reaching ≡ true → ReachesCycle (next_of (step_lists steps.now)) node }
    requires settled { is_reaching ≡ false → ¬ (ReachesCycle (next_of (step_lists steps.now)) node) }
    requires long { is_long ≡ true → BeginsPath (next_of (step_lists steps.now)) (suc MAX_RANK) node }
    requires short { is_long ≡ false → ¬ (BeginsPath (next_of (step_lists steps.now)) (suc MAX_RANK) node) }
    ensures { OnOk result (IsLeastWith (IsFaultOf (step_lists steps.now) node declared.entry) (found_of least.old.found) (found_of least.new.found)) }
{
    if is_reaching {
        note_cycle(alloc, steps, node, declared, least)?;
    } else if is_long {
        least.note(FaultKind::TooMany, declared.at);
    }
    Ok(())
}

/// Notes a declaration from which a cycle is reached, if it is on one. If that would change nothing
/// it isn't looked at.
fn note_cycle(
    alloc: Global,
    steps: &[Vec<usize>],
    node: usize,
    declared: Declaration,
    least: &mut LeastFault,
) -> Result<(), AllocError>
    requires graph { IsGraph (step_lists steps.now) }
    requires node { node < length steps.now }
    ensures { OnOk result (IsLeastWith (IsCycleAt (step_lists steps.now) node declared.entry.at declared.entry.meaning)
        (found_of least.old.found) (found_of least.new.found)) }
{
    let Some(kind) = cycle_kind(declared.meaning) else {
        return Ok(());
    };
    if least.is_less(kind, declared.at) && leads_back(alloc, steps, node)? {
        least.note(kind, declared.at);
    }
    Ok(())
}

/// What a cycle is called if such a declaration is on it.
fn cycle_kind(meaning: DeclaredAs) -> Option<FaultKind>
    ensures { option_map number_of result ≡ cycle_number meaning.entry }
{
    match meaning {
        DeclaredAs::Rule(_) => Some(FaultKind::CyclicRule),
        DeclaredAs::Derived(_) => Some(FaultKind::CyclicDerived),
        _ => None,
    }
}
