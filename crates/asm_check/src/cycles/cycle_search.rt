//! A search for the cycles that are reached, along the steps between numbered nodes.
ghost use Rattle.std.specs.Prelude.{◌≡◌, ◌≢◌, ◌<◌, ◌-◌, ◌++◌, ◌∷◌, [], Some, OnOk, IfOk, IfSome, ◌+◌, ◌^◌, length, slice_get, slice_set, take};
ghost use Rattle.asm_check.specs.code.cycles.Graph.{IsGraph, next_of, step_lists};
ghost use Rattle.asm_check.specs.code.cycles.CycleSearch.{IsSearchOf, IsMet, KeepsMet, MarkMeans, work_of};

use std::alloc::{AllocError, Global};

/// What a search knows of a node.
#[derive(Clone, Copy)]
pub(crate) enum Mark {
    Unvisited,
    /// The search has come by the node, and not gone back yet.
    OnPath,
    /// Each way from the node on ends.
    Acyclic,
    /// A cycle is reached from the node.
    Cyclic,
}

/// A search that has come along a path, whose last node is looked at next.
#[derive(Drop)]
pub(crate) struct Search {
    pub marks: Vec<Mark>,
    /// Of each node, how many of its steps were looked at.
    pub looked: Vec<usize>,
    pub path: Vec<usize>,
}

impl Search {
    pub(crate) fn new(alloc: Global, steps: &[Vec<usize>]) -> Result<Search, AllocError>
        ensures search { IfOk result (λ search. IsSearchOf (step_lists steps.now) search) }
        ensures path { IfOk result (λ search. search.path.items ≡ []) }
    {
        Ok(Search {
            marks: vec![in alloc; Mark::Unvisited; steps.len()]?,
            looked: vec![in alloc; 0; steps.len()]?,
            path: Vec::new(alloc),
        })
    }

    /// Searches from a node on, until it is known whether it reaches a cycle.
    pub(crate) fn explore(&mut self, steps: &[Vec<usize>], node: usize) -> Result<(), AllocError>
        requires graph { IsGraph (step_lists steps.now) }
        requires node { node < length steps.now }
        requires search { IsSearchOf (step_lists steps.now) self.old }
        requires path { self.old.path.items ≡ [] }
        ensures search { OnOk result (IsSearchOf (step_lists steps.now) self.new) }
        ensures path { OnOk result (self.new.path.items ≡ []) }
        ensures kept { OnOk result (KeepsMet self.old self.new) }
        ensures met { OnOk result (IsMet self.new node) }
    {
        if let Mark::Unvisited = self.marks[node] {
            self.enter(node)?;
            while let Some(last) = self.path.last().copied() {
                self.advance(steps, last)?;
            }
        }
        Ok(())
    }

    /// Looks at the next step from the last node of the path.
    fn advance(&mut self, steps: &[Vec<usize>], last: usize) -> Result<(), AllocError>
        requires graph { IsGraph (step_lists steps.now) }
        requires search { IsSearchOf (step_lists steps.now) self.old }
        requires last { slice_get self.old.path.items (length self.old.path.items - 1) ≡ Some last }
        ensures search { OnOk result (IsSearchOf (step_lists steps.now) self.new) }
        ensures kept { OnOk result (KeepsMet self.old self.new) }
        ensures work { OnOk result (work_of (step_lists steps.now) self.new < work_of (step_lists steps.now) self.old) }
    {
        let looked = self.looked[last];
        let Some(next) = step_at(steps, last, looked) else {
            self.leave(last, Mark::Acyclic);
            return Ok(());
        };
        match self.marks[next] {
            Mark::Unvisited => self.enter(next)?,
            Mark::Acyclic => self.looked[last] = looked + 1,
            // The path leads from the next node back to the last one, or
            // the next node reaches a cycle.
            Mark::OnPath | Mark::Cyclic => self.leave(last, Mark::Cyclic),
        }
        Ok(())
    }

    /// Puts a node on the path.
    fn enter(&mut self, node: usize) -> Result<(), AllocError>
        requires { node < length self.old.marks.items }
        ensures marks { OnOk result (self.new.marks.items ≡ slice_set self.old.marks.items node Mark.OnPath) }
        ensures looked { OnOk result (self.new.looked.items ≡ self.old.looked.items) }
        ensures path { OnOk result (self.new.path.items ≡ self.old.path.items ++ node ∷ []) }
    {
        self.marks[node] = Mark::OnPath;
        self.path.push(node)?;
        Ok(())
    }

    /// Takes the last node, which is this one, off the path.
    fn leave(&mut self, node: usize, mark: Mark)
        requires { node < length self.old.marks.items }
        ensures marks { self.new.marks.items ≡ slice_set self.old.marks.items node mark }
        ensures looked { self.new.looked.items ≡ self.old.looked.items }
        ensures path { self.new.path.items ≡ take (length self.old.path.items - 1) self.old.path.items }
    {
        self.marks[node] = mark;
        self.path.pop();
    }
}

/// The node to which one of a node's steps leads, by the step's index among them.
fn step_at(steps: &[Vec<usize>], node: usize, index: usize) -> Option<usize>
    requires { node < length steps.now }
    ensures step { result ≡ slice_get (next_of (step_lists steps.now) node) index }
    ensures fits { IfSome result (λ next. index + 1 < 2 ^ 64) }
{
    steps[node].get(index).copied()
}
