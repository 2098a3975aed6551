//! The search through all states.
//!
//! Nodes are in the order of their depths (`Rises`), so the first step that goes wrong is the end
//! of a shortest run that goes wrong. If nothing is known ahead of a step, or one of the states
//! that it leads to isn't right, the search lists the outcomes of the step itself
//! (`expand_listed`). So a fault is found in one way, with the choices that lead to it.
ghost use Rattle.std.specs.Prelude.{◌≡◌, ◌≢◌, ◌+◌, ◌^◌, ◌<◌, ◌≤◌, ℕ, suc, [], true, false, IsTrue, IfSome, IfNone, IfErr, IfOk, Some, length, max, slice_get, map, take, drop};
ghost use Rattle.asm_state.specs.code.Contents.{IsStateOf};
ghost use Rattle.asm_state.specs.Signature.{Shape, count_of, state_of};
ghost use Rattle.asm_meaning.specs.Yields.{Result as Yielded};
ghost use Rattle.asm_explore.specs.code.StepsAhead.{AreAhead, IsAhead};
ghost use Rattle.asm_explore.specs.declared.fault.Fault.TheVariants.{Deadlock};
ghost use Rattle.asm_explore.specs.declared.search_result.SearchEnd.TheVariants.{Closed, AtLimit, TooManyStates};
ghost use Rattle.asm_explore.specs.declared.search_error.SearchError.TheVariants as halt;
ghost use Rattle.asm_explore.specs.declared.outcomes.listed_outcome.ListedOutcome.{ListedOutcome};
ghost use Rattle.asm_explore.specs.code.AddedNodes.{AddsNodes, CanAdd, CanExpand, ExpandsNode, ListsQuiet};
ghost use Rattle.asm_explore.specs.code.PackedNodes.{Node};
ghost use Rattle.asm_explore.specs.code.SearchEnds.{IfBad, IfOverLimit, IsDone};
ghost use Rattle.asm_explore.specs.code.OutcomeLists.{Each, Shows, HaveChoices, AreCounted, IsCounted};
ghost use Rattle.asm_explore.specs.code.ChoicePaths.{HaveOwnPaths};
ghost use Rattle.asm_explore.specs.code.ReachedStates.{AreInside, AtNode, Known, IsNear, IsGood, FollowsStep, IsLinked, IsLooked, IsOutcome, IsBadStep, IsStopped, LeadsTo, Rises, GoesWrongSo, IsOverfull, state_at};
ghost use Rattle.asm_explore.specs.code.QuietStates.{IsFirstQuiet, IsRested};
ghost use Rattle.asm_explore.specs.Search.{LeadsOn, IsAliveOrCrowded, IsQuiet, IsDeadlock, IsSafeUpTo, IsSafe, HoldsBefore, HoldsAlways};
ghost use Rattle.asm_explore.specs.ExplorationResults.{IsSafeIf, beyond, known_to};
ghost use Rattle.asm_explore.specs.code.LookedStates.{LooksThrough};
ghost use Rattle.asm_explore.specs.code.IndexedNodes.{HaveOwnStates};
ghost use Rattle.asm_explore.specs.code.StateHashes.{hash_of_contents};
ghost use Rattle.asm_explore.specs.code.StepOutcomes.{IsOverLimitOf, IsStep};

use crate::fault::Fault;
use crate::machine::Machine;
use crate::outcomes::listed_outcome::{Choice, ListedOutcome, RuleResult};
use crate::progress::{Progress, Watch};
use crate::same_result::is_same_value;
use crate::search_error::{SearchError, halted};
use crate::search_result::{BadStep, SearchEnd, SearchResult, SearchSoFar, cut_off};
use crate::settled::settle;
use crate::states::batch::next_batch;
use crate::states::counts::Counts;
use crate::states::deadlocks::deadlocks_at;
use crate::states::index::hash_of;
use crate::states::indexed_nodes::IndexedNodes;
use crate::states::lookup::Link;
use crate::states::nodes::Nodes;
use crate::states::quiet::{is_quiet, rest};
use crate::step_ahead::StepAhead;
use asm_state::state::State;
use std::alloc::{AllocError, Global};

/// Whether two states have the same contents.
pub fn is_same_state(left: &State, right: &State, count: usize) -> bool
    requires left { length left.now ≡ count }
    requires right { length right.now ≡ count }
    ensures same { IsTrue result → left.now ≡ right.now }
    ensures states { (shape : Shape) → IsStateOf shape left.now → IsStateOf shape right.now → state_of shape left.now ≡ state_of shape right.now → IsTrue result }
{
    for n in 0..count {
        if !is_same_value(left.content(n), right.content(n)) {
            return false;
        }
    }
    true
}

/// A search through the states of a machine: `steps` deep, and of `limit` states at most.
#[derive(Drop)]
struct Search<'m, M: Machine> {
    alloc: Global,
    machine: &'m M,
    steps: u32,
    limit: u32,
    ghost in_range: { (steps < 2 ^ 32) × (limit < 2 ^ 32) },
}

/// What a search has reached so far: the nodes, and what was counted.
#[derive(Drop)]
struct Reached {
    nodes: IndexedNodes,
    counts: Counts,
}

/// What a search has looked at.
#[derive(Drop)]
struct Looked {
    nodes: Nodes,
    counts: Counts,
    so_far: SearchSoFar,
}

/// An outcome that goes wrong.
#[derive(Clone, Copy)]
struct BadOutcome {
    number: usize,
    fault: Fault,
}

/// The choices of an outcome.
fn choices_of(
    alloc: Global,
    outcomes: &[ListedOutcome],
    number: usize,
) -> Result<Vec<Choice>, AllocError>
    requires { number < length outcomes.now }
    ensures { IfOk result (λ cs. (f : ListedOutcome) → slice_get outcomes.now number ≡ Some f → cs.items ≡ f.choices) }
{
    let one = &outcomes[number];
    let choices = one.choices.to_vec(alloc)?;
    Ok(choices)
}

/// The end of a search whose nodes are all expanded.
fn ended_all(nodes: &IndexedNodes, steps: u32) -> SearchEnd
    requires { Rises nodes.now }
    ensures closed { result ≡ Closed → Each (λ n. n.depth < steps) nodes.now }
    ensures done { IsDone result }
{
    let count = nodes.len();
    if count > 0 && nodes.depth(count - 1) < steps {
        SearchEnd::Closed
    } else {
        SearchEnd::AtLimit
    }
}

/// How far the search is, when `done` nodes are done with.
fn progress(nodes: &IndexedNodes, done: usize) -> Progress
    requires { done ≤ length nodes.now }
{
    let depth = match done {
        0 => 0,
        _ => nodes.depth(done - 1),
    };
    Progress {
        states: nodes.len(),
        done,
        depth,
        bytes: nodes.bytes(),
    }
}

impl<'m, M: Machine> Search<'m, M> {
    /// Makes a state known, which has this hash, that a step from a node leads to. Returns whether
    /// it is right.
    fn reach(
        &self,
        reached: &mut Reached,
        state: &State,
        hash: u64,
        from: usize,
        below: u32,
    ) -> Result<bool, SearchError>
        requires machine { M.is_sound self.now.machine.now }
        requires ready { CanAdd (M.shape self.now.machine.now) (M.right self.now.machine.now) from below self.now.limit reached.old.nodes }
        requires state { IsStateOf (M.shape self.now.machine.now) state.now }
        requires hash { hash ≡ hash_of_contents state.now }
        requires leads { LeadsTo (M.shape self.now.machine.now) (M.specification self.now.machine.now) (M.turns self.now.machine.now) reached.old.nodes from below (state_of (M.shape self.now.machine.now) state.now) }
        ensures adds { AddsNodes (M.shape self.now.machine.now) (M.specification self.now.machine.now) (M.turns self.now.machine.now) (M.right self.now.machine.now) from below self.now.limit reached.old.nodes reached.new.nodes result }
        ensures known { IfOk result (λ fine. IsTrue fine → Known (M.shape self.now.machine.now) reached.new.nodes below (state_of (M.shape self.now.machine.now) state.now)) }
        ensures wrong { IfOk result (λ fine. fine ≡ false → (M.right self.now.machine.now) (state_of (M.shape self.now.machine.now) state.now) ≡ false) }
    {
        let count = self.machine.signature().count();
        if reached.nodes.has(state, hash, count) {
            return Ok(true);
        }
        if !self.machine.is_right(self.alloc, state) {
            return Ok(false);
        }
        if reached.nodes.len() >= self.limit as usize {
            return Err(SearchError::States);
        }
        let link = Link {
            from: from as u32,
            depth: below,
            count,
        };
        reached.nodes.add(self.alloc, state, hash, link)?;
        Ok(true)
    }

    /// Follows one outcome of the step from a node's state. Returns what is wrong with it, if
    /// anything is.
    fn follow(
        &self,
        reached: &mut Reached,
        from: usize,
        state: &State,
        one: &ListedOutcome,
        below: u32,
    ) -> Result<Option<Fault>, SearchError>
        requires machine { M.is_sound self.now.machine.now }
        requires ready { CanAdd (M.shape self.now.machine.now) (M.right self.now.machine.now) from below self.now.limit reached.old.nodes }
        requires state { IsStateOf (M.shape self.now.machine.now) state.now }
        requires here { (n : Node) → slice_get reached.old.nodes from ≡ Some n → n.state ≡ state.now }
        requires one { IsCounted (count_of (M.shape self.now.machine.now)) one.now.answer }
        requires outcome { IsOutcome (M.shape self.now.machine.now) (M.specification self.now.machine.now) (M.turns self.now.machine.now) reached.old.nodes from below one.now }
        requires apart { HaveOwnPaths one.now.choices }
        ensures adds { AddsNodes (M.shape self.now.machine.now) (M.specification self.now.machine.now) (M.turns self.now.machine.now) (M.right self.now.machine.now) from below self.now.limit reached.old.nodes reached.new.nodes result }
        ensures leads { IfOk result (λ fault. IfNone fault ((n : Node) (r : Yielded) → slice_get reached.old.nodes from ≡ Some n → Shows (M.shape self.now.machine.now) one.now.answer r →
            LeadsOn r (state_at (M.shape self.now.machine.now) n) (Known (M.shape self.now.machine.now) reached.new.nodes below))) }
        ensures wrong { IfOk result (λ fault. IfSome fault (IsBadStep (M.shape self.now.machine.now) (M.specification self.now.machine.now) (M.turns self.now.machine.now) (M.right self.now.machine.now) (M.rests self.now.machine.now) reached.old.nodes from one.now.choices)) }
    {
        let updates = match &one.answer {
            RuleResult::Set(updates) => updates,
            RuleResult::Exhausted(_) => return Ok(Some(Fault::Exhausted)),
        };
        let signature = self.machine.signature();
        if updates.set.first_fault(signature).is_some() {
            return Ok(Some(Fault::Inconsistent));
        }
        let next = updates.set.fire(self.alloc, signature, state)?;
        let hash = hash_of(&next, signature.count());
        let fine = self.reach(reached, &next, hash, from, below)?;
        if fine {
            Ok(None)
        } else {
            Ok(Some(Fault::Wrong))
        }
    }

    /// Follows outcomes of the step from a node's state. Returns the first one with a fault, if
    /// there is one.
    fn follow_all(
        &self,
        reached: &mut Reached,
        from: usize,
        state: &State,
        outcomes: &[ListedOutcome],
        below: u32,
    ) -> Result<Option<BadOutcome>, SearchError>
        requires machine { M.is_sound self.now.machine.now }
        requires ready { CanAdd (M.shape self.now.machine.now) (M.right self.now.machine.now) from below self.now.limit reached.old.nodes }
        requires state { IsStateOf (M.shape self.now.machine.now) state.now }
        requires here { (n : Node) → slice_get reached.old.nodes from ≡ Some n → n.state ≡ state.now }
        requires outcomes { AreCounted (count_of (M.shape self.now.machine.now)) outcomes.now }
        requires sound { Each (IsOutcome (M.shape self.now.machine.now) (M.specification self.now.machine.now) (M.turns self.now.machine.now) reached.old.nodes from below) outcomes.now }
        requires apart { HaveChoices HaveOwnPaths outcomes.now }
        ensures adds { AddsNodes (M.shape self.now.machine.now) (M.specification self.now.machine.now) (M.turns self.now.machine.now) (M.right self.now.machine.now) from below self.now.limit reached.old.nodes reached.new.nodes result }
        ensures leads { IfOk result (λ bad. IfNone bad (FollowsStep (M.shape self.now.machine.now) reached.old.nodes reached.new.nodes from below outcomes.now)) }
        ensures wrong { IfOk result (λ bad. IfSome bad (λ b. (f : ListedOutcome) × (slice_get outcomes.now b.number ≡ Some f) ×
            IsBadStep (M.shape self.now.machine.now) (M.specification self.now.machine.now) (M.turns self.now.machine.now) (M.right self.now.machine.now) (M.rests self.now.machine.now) reached.old.nodes from f.choices b.fault)) }
    {
        for k in 0..outcomes.len() {
            let one = &outcomes[k];
            if let Some(fault) = self.follow(reached, from, state, one, below)? {
                return Ok(Some(BadOutcome { number: k, fault }));
            }
        }
        Ok(None)
    }

    /// Follows all outcomes of the step from a node's state. Returns the first one with a fault, if
    /// there is one.
    fn expand(
        &self,
        reached: &mut Reached,
        from: usize,
        state: &State,
        outcomes: &[ListedOutcome],
    ) -> Result<Option<BadStep>, SearchError>
        requires machine { M.is_sound self.now.machine.now }
        requires ready { CanExpand (M.shape self.now.machine.now) (M.right self.now.machine.now) from self.now.limit state.now reached.old.nodes }
        requires step { IsStep (M.shape self.now.machine.now) (M.specification self.now.machine.now) (M.turns self.now.machine.now) (state_of (M.shape self.now.machine.now) state.now) outcomes.now }
        ensures { ExpandsNode (M.shape self.now.machine.now) (M.specification self.now.machine.now) (M.turns self.now.machine.now) (M.right self.now.machine.now) (M.rests self.now.machine.now) (λ _. ⊥) from self.now.limit reached.old.nodes reached.new.nodes result }
    {
        let below = reached.nodes.depth(from) + 1;
        reached.counts.count(outcomes.len());
        match self.follow_all(reached, from, state, outcomes, below)? {
            None => Ok(None),
            Some(bad) => {
                let choices = choices_of(self.alloc, outcomes, bad.number)?;
                Ok(Some(BadStep {
                    from,
                    choices,
                    fault: bad.fault,
                }))
            }
        }
    }

    /// Expands a node by the outcomes of its step, and lists it if its state is quiet. Returns what
    /// is wrong with the step, if anything is.
    fn expand_listed(
        &self,
        reached: &mut Reached,
        from: usize,
        state: &State,
        quiet: &mut Vec<u32>,
    ) -> Result<Option<BadStep>, SearchError>
        requires machine { M.is_sound self.now.machine.now }
        requires ready { CanExpand (M.shape self.now.machine.now) (M.right self.now.machine.now) from self.now.limit state.now reached.old.nodes }
        ensures expands { ExpandsNode (M.shape self.now.machine.now) (M.specification self.now.machine.now) (M.turns self.now.machine.now) (M.right self.now.machine.now) (M.rests self.now.machine.now)
            (IsOverLimitOf (M.made self.now.machine.now) (M.limit self.now.machine.now) (state_of (M.shape self.now.machine.now) state.now)) from self.now.limit reached.old.nodes reached.new.nodes result }
        ensures quiet { ListsQuiet (M.specification self.now.machine.now) (M.turns self.now.machine.now) (M.rests self.now.machine.now) (state_of (M.shape self.now.machine.now) state.now) from quiet.old.items quiet.new.items result }
    {
        match self.machine.outcomes(self.alloc, state) {
            Ok(outcomes) => {
                let outcomes = outcomes.as_slice();
                match self.expand(reached, from, state, outcomes)? {
                    None => {
                        let is_quiet = is_quiet(self.alloc, self.machine, state, outcomes)?;
                        rest(self.alloc, self.machine, from, state, is_quiet, quiet)
                    }
                    Some(bad) => Ok(Some(bad)),
                }
            }
            Err(refusal) => Err(halted(self.alloc, &refusal)),
        }
    }

    /// Makes one of the states known to which a step from a node leads. Returns whether it is
    /// right.
    fn reach_next(
        &self,
        reached: &mut Reached,
        from: usize,
        like: &State,
        ahead: &StepAhead,
        number: usize,
        below: u32,
    ) -> Result<bool, SearchError>
        requires machine { M.is_sound self.now.machine.now }
        requires ready { CanAdd (M.shape self.now.machine.now) (M.right self.now.machine.now) from below self.now.limit reached.old.nodes }
        requires like { length like.now ≡ count_of (M.shape self.now.machine.now) }
        requires number { number < length ahead.now.states }
        requires kept { Each (λ m. IsStateOf (M.shape self.now.machine.now) m.state) ahead.now.states }
        requires leads { Each (λ m. LeadsTo (M.shape self.now.machine.now) (M.specification self.now.machine.now) (M.turns self.now.machine.now) reached.old.nodes from below (state_at (M.shape self.now.machine.now) m)) ahead.now.states }
        ensures adds { AddsNodes (M.shape self.now.machine.now) (M.specification self.now.machine.now) (M.turns self.now.machine.now) (M.right self.now.machine.now) from below self.now.limit reached.old.nodes reached.new.nodes result }
        ensures known { IfOk result (λ fine. IsTrue fine → (m : Node) → slice_get ahead.now.states number ≡ Some m → Known (M.shape self.now.machine.now) reached.new.nodes below (state_at (M.shape self.now.machine.now) m)) }
    {
        let hash = ahead.hashes.get(number).copied().unwrap_or(0);
        if reached.nodes.has_one_of(hash, &ahead.states, number) {
            return Ok(true);
        }
        let state = ahead.states.state(self.alloc, number, like)?;
        let hash = hash_of(&state, self.machine.signature().count());
        self.reach(reached, &state, hash, from, below)
    }

    /// Makes all states known to which a step from a node leads. Returns whether all are right.
    fn reach_all(
        &self,
        reached: &mut Reached,
        from: usize,
        like: &State,
        ahead: &StepAhead,
        below: u32,
    ) -> Result<bool, SearchError>
        requires machine { M.is_sound self.now.machine.now }
        requires ready { CanAdd (M.shape self.now.machine.now) (M.right self.now.machine.now) from below self.now.limit reached.old.nodes }
        requires like { length like.now ≡ count_of (M.shape self.now.machine.now) }
        requires kept { Each (λ m. IsStateOf (M.shape self.now.machine.now) m.state) ahead.now.states }
        requires leads { Each (λ m. LeadsTo (M.shape self.now.machine.now) (M.specification self.now.machine.now) (M.turns self.now.machine.now) reached.old.nodes from below (state_at (M.shape self.now.machine.now) m)) ahead.now.states }
        ensures adds { AddsNodes (M.shape self.now.machine.now) (M.specification self.now.machine.now) (M.turns self.now.machine.now) (M.right self.now.machine.now) from below self.now.limit reached.old.nodes reached.new.nodes result }
        ensures known { IfOk result (λ fine. IsTrue fine → Each (λ m. Known (M.shape self.now.machine.now) reached.new.nodes below (state_at (M.shape self.now.machine.now) m)) ahead.now.states) }
    {
        for k in 0..ahead.states.len() {
            if !self.reach_next(reached, from, like, ahead, k, below)? {
                return Ok(false);
            }
        }
        Ok(true)
    }

    /// Expands a node, of whose step it is known what it leads to, and lists it if its state is
    /// quiet. Returns what is wrong with the step, if anything is.
    fn expand_ahead(
        &self,
        reached: &mut Reached,
        from: usize,
        state: &State,
        ahead: &StepAhead,
        quiet: &mut Vec<u32>,
    ) -> Result<Option<BadStep>, SearchError>
        requires machine { M.is_sound self.now.machine.now }
        requires ready { CanExpand (M.shape self.now.machine.now) (M.right self.now.machine.now) from self.now.limit state.now reached.old.nodes }
        requires ahead { IsAhead (M.shape self.now.machine.now) (M.specification self.now.machine.now) (M.turns self.now.machine.now) reached.old.nodes (state_of (M.shape self.now.machine.now) state.now) ahead.now }
        ensures expands { ExpandsNode (M.shape self.now.machine.now) (M.specification self.now.machine.now) (M.turns self.now.machine.now) (M.right self.now.machine.now) (M.rests self.now.machine.now)
            (IsOverLimitOf (M.made self.now.machine.now) (M.limit self.now.machine.now) (state_of (M.shape self.now.machine.now) state.now)) from self.now.limit reached.old.nodes reached.new.nodes result }
        ensures quiet { ListsQuiet (M.specification self.now.machine.now) (M.turns self.now.machine.now) (M.rests self.now.machine.now) (state_of (M.shape self.now.machine.now) state.now) from quiet.old.items quiet.new.items result }
    {
        let below = reached.nodes.depth(from) + 1;
        reached.counts.count(ahead.outcomes);
        if self.reach_all(reached, from, state, ahead, below)? {
            rest(self.alloc, self.machine, from, state, ahead.is_quiet, quiet)
        } else {
            reached.counts.uncount(ahead.outcomes);
            self.expand_listed(reached, from, state, quiet)
        }
    }

    /// Expands a node, and lists it if its state is quiet. Returns what is wrong with its step, if
    /// anything is.
    fn expand_step(
        &self,
        reached: &mut Reached,
        from: usize,
        state: &State,
        ahead: &Option<StepAhead>,
        quiet: &mut Vec<u32>,
    ) -> Result<Option<BadStep>, SearchError>
        requires machine { M.is_sound self.now.machine.now }
        requires ready { CanExpand (M.shape self.now.machine.now) (M.right self.now.machine.now) from self.now.limit state.now reached.old.nodes }
        requires ahead { IfSome ahead.now (IsAhead (M.shape self.now.machine.now) (M.specification self.now.machine.now) (M.turns self.now.machine.now) reached.old.nodes (state_of (M.shape self.now.machine.now) state.now)) }
        ensures expands { ExpandsNode (M.shape self.now.machine.now) (M.specification self.now.machine.now) (M.turns self.now.machine.now) (M.right self.now.machine.now) (M.rests self.now.machine.now)
            (IsOverLimitOf (M.made self.now.machine.now) (M.limit self.now.machine.now) (state_of (M.shape self.now.machine.now) state.now)) from self.now.limit reached.old.nodes reached.new.nodes result }
        ensures quiet { ListsQuiet (M.specification self.now.machine.now) (M.turns self.now.machine.now) (M.rests self.now.machine.now) (state_of (M.shape self.now.machine.now) state.now) from quiet.old.items quiet.new.items result }
    {
        match ahead {
            Some(ahead) => self.expand_ahead(reached, from, state, ahead, quiet),
            None => self.expand_listed(reached, from, state, quiet),
        }
    }

    /// Expands the nodes from one on, which have these states, of whose steps this is known.
    fn expand_batch(
        &self,
        reached: &mut Reached,
        first: usize,
        states: &[State],
        ahead: &[Option<StepAhead>],
        quiet: &mut Vec<u32>,
    ) -> Result<(), SearchSoFar>
        requires machine { M.is_sound self.now.machine.now }
        requires first { first + length states.now ≤ length reached.old.nodes }
        requires states { states.now ≡ map (λ n. n.state) (take (length states.now) (drop first reached.old.nodes)) }
        requires ahead { AreAhead (M.shape self.now.machine.now) (M.specification self.now.machine.now) (M.turns self.now.machine.now) reached.old.nodes states.now ahead.now }
        requires shallow { Each (λ n. n.depth < self.now.steps) (take (length states.now) (drop first reached.old.nodes)) }
        requires inside { Each (λ n. (M.within self.now.machine.now) (state_at (M.shape self.now.machine.now) n) ≡ true) (take (length states.now) (drop first reached.old.nodes)) }
        requires room { length reached.old.nodes ≤ self.now.limit }
        requires looked { IsLooked (M.shape self.now.machine.now) (M.specification self.now.machine.now) (M.turns self.now.machine.now) (M.right self.now.machine.now) (M.within self.now.machine.now) self.now.steps first reached.old.nodes }
        requires rested { IsRested (M.shape self.now.machine.now) (M.specification self.now.machine.now) (M.turns self.now.machine.now) (M.rests self.now.machine.now) (M.within self.now.machine.now) self.now.steps first reached.old.nodes quiet.old.items }
        requires near { IsNear reached.old.nodes first }
        ensures room { length reached.new.nodes ≤ self.now.limit }
        ensures looked { IfOk result (λ _. IsLooked (M.shape self.now.machine.now) (M.specification self.now.machine.now) (M.turns self.now.machine.now) (M.right self.now.machine.now) (M.within self.now.machine.now) self.now.steps (first + length states.now) reached.new.nodes) }
        ensures rested { IfOk result (λ _. IsRested (M.shape self.now.machine.now) (M.specification self.now.machine.now) (M.turns self.now.machine.now) (M.rests self.now.machine.now) (M.within self.now.machine.now) self.now.steps (first + length states.now) reached.new.nodes quiet.new.items) }
        ensures near { IfOk result (λ _. IsNear reached.new.nodes (first + length states.now)) }
        ensures more { length reached.old.nodes ≤ length reached.new.nodes }
        ensures rests { IfErr result (λ stopped. IsRested (M.shape self.now.machine.now) (M.specification self.now.machine.now) (M.turns self.now.machine.now) (M.rests self.now.machine.now) (M.within self.now.machine.now) self.now.steps stopped.expanded reached.new.nodes quiet.new.items) }
        ensures stopped { IfErr result (λ stopped. IsStopped (M.shape self.now.machine.now) (M.specification self.now.machine.now) (M.turns self.now.machine.now) (IsOverLimitOf (M.made self.now.machine.now) (M.limit self.now.machine.now)) (M.right self.now.machine.now) (M.rests self.now.machine.now) (M.within self.now.machine.now) self.now.steps self.now.limit reached.new.nodes stopped) }
    {
        for k in 0..states.len() {
            let from = first + k;
            match self.expand_step(reached, from, &states[k], &ahead[k], quiet) {
                Ok(None) => {}
                Ok(Some(bad)) => {
                    return Err(SearchSoFar {
                        expanded: from,
                        ended: SearchEnd::BadStep(bad),
                    });
                }
                Err(halt) => {
                    return Err(SearchSoFar {
                        expanded: from,
                        ended: cut_off(halt),
                    });
                }
            }
        }
        Ok(())
    }

    /// Expands the next nodes, or passes over the next one if it isn't to be expanded. Returns how
    /// many are done with.
    fn expand_next(
        &self,
        reached: &mut Reached,
        expanded: usize,
        like: &State,
        quiet: &mut Vec<u32>,
    ) -> Result<usize, SearchSoFar>
        requires machine { M.is_sound self.now.machine.now }
        requires expanded { expanded < length reached.old.nodes }
        requires like { length like.now ≡ count_of (M.shape self.now.machine.now) }
        requires room { length reached.old.nodes ≤ self.now.limit }
        requires looked { IsLooked (M.shape self.now.machine.now) (M.specification self.now.machine.now) (M.turns self.now.machine.now) (M.right self.now.machine.now) (M.within self.now.machine.now) self.now.steps expanded reached.old.nodes }
        requires rested { IsRested (M.shape self.now.machine.now) (M.specification self.now.machine.now) (M.turns self.now.machine.now) (M.rests self.now.machine.now) (M.within self.now.machine.now) self.now.steps expanded reached.old.nodes quiet.old.items }
        requires near { IsNear reached.old.nodes expanded }
        ensures room { length reached.new.nodes ≤ self.now.limit }
        ensures some { IfOk result (λ done. (expanded < done) × (done ≤ length reached.new.nodes)) }
        ensures looked { IfOk result (λ done. IsLooked (M.shape self.now.machine.now) (M.specification self.now.machine.now) (M.turns self.now.machine.now) (M.right self.now.machine.now) (M.within self.now.machine.now) self.now.steps done reached.new.nodes) }
        ensures rested { IfOk result (λ done. IsRested (M.shape self.now.machine.now) (M.specification self.now.machine.now) (M.turns self.now.machine.now) (M.rests self.now.machine.now) (M.within self.now.machine.now) self.now.steps done reached.new.nodes quiet.new.items) }
        ensures near { IfOk result (λ done. IsNear reached.new.nodes done) }
        ensures rests { IfErr result (λ stopped. IsRested (M.shape self.now.machine.now) (M.specification self.now.machine.now) (M.turns self.now.machine.now) (M.rests self.now.machine.now) (M.within self.now.machine.now) self.now.steps stopped.expanded reached.new.nodes quiet.new.items) }
        ensures stopped { IfErr result (λ stopped. IsStopped (M.shape self.now.machine.now) (M.specification self.now.machine.now) (M.turns self.now.machine.now) (IsOverLimitOf (M.made self.now.machine.now) (M.limit self.now.machine.now)) (M.right self.now.machine.now) (M.rests self.now.machine.now) (M.within self.now.machine.now) self.now.steps self.now.limit reached.new.nodes stopped) }
    {
        let most = reached.counts.next_batch(self.machine.batch());
        let batch = match next_batch(
            self.alloc,
            self.machine,
            &reached.nodes,
            expanded,
            self.steps,
            most,
            like,
        ) {
            Ok(batch) => batch,
            Err(halt) => {
                return Err(SearchSoFar {
                    expanded,
                    ended: cut_off(halt),
                });
            }
        };
        let states = batch.states.as_slice();
        reached.counts.stepped(states.len());
        if states.len() == 0 {
            return Ok(expanded + 1);
        }
        self.expand_batch(reached, expanded, states, batch.ahead.as_slice(), quiet)?;
        Ok(expanded + states.len())
    }

    /// Expands all nodes, and those that come of them.
    fn expand_all<W: Watch<Progress>>(
        &self,
        reached: &mut Reached,
        like: &State,
        quiet: &mut Vec<u32>,
        watch: &mut W,
    ) -> SearchSoFar
        requires machine { M.is_sound self.now.machine.now }
        requires like { length like.now ≡ count_of (M.shape self.now.machine.now) }
        requires room { length reached.old.nodes ≤ self.now.limit }
        requires looked { IsLooked (M.shape self.now.machine.now) (M.specification self.now.machine.now) (M.turns self.now.machine.now) (M.right self.now.machine.now) (M.within self.now.machine.now) self.now.steps 0 reached.old.nodes }
        requires rested { IsRested (M.shape self.now.machine.now) (M.specification self.now.machine.now) (M.turns self.now.machine.now) (M.rests self.now.machine.now) (M.within self.now.machine.now) self.now.steps 0 reached.old.nodes quiet.old.items }
        requires near { IsNear reached.old.nodes 0 }
        ensures room { length reached.new.nodes ≤ self.now.limit }
        ensures rests { IsRested (M.shape self.now.machine.now) (M.specification self.now.machine.now) (M.turns self.now.machine.now) (M.rests self.now.machine.now) (M.within self.now.machine.now) self.now.steps result.expanded reached.new.nodes quiet.new.items }
        ensures stopped { IsStopped (M.shape self.now.machine.now) (M.specification self.now.machine.now) (M.turns self.now.machine.now) (IsOverLimitOf (M.made self.now.machine.now) (M.limit self.now.machine.now)) (M.right self.now.machine.now) (M.rests self.now.machine.now) (M.within self.now.machine.now) self.now.steps self.now.limit reached.new.nodes result }
    {
        let mut expanded = 0;
        while expanded < reached.nodes.len() {
            match self.expand_next(reached, expanded, like, quiet) {
                Ok(done) => {
                    expanded = done;
                    watch.tell(progress(&reached.nodes, done));
                }
                Err(stopped) => return stopped,
            }
        }
        SearchSoFar {
            expanded,
            ended: ended_all(&reached.nodes, self.steps),
        }
    }

    /// Expands all nodes, and those that come of them. No two of them have the same state.
    fn look<W: Watch<Progress>>(
        &self,
        mut reached: Reached,
        like: &State,
        quiet: &mut Vec<u32>,
        watch: &mut W,
    ) -> Looked
        requires machine { M.is_sound self.now.machine.now }
        requires like { length like.now ≡ count_of (M.shape self.now.machine.now) }
        requires room { length reached.nodes ≤ self.now.limit }
        requires looked { IsLooked (M.shape self.now.machine.now) (M.specification self.now.machine.now) (M.turns self.now.machine.now) (M.right self.now.machine.now) (M.within self.now.machine.now) self.now.steps 0 reached.nodes }
        requires rested { IsRested (M.shape self.now.machine.now) (M.specification self.now.machine.now) (M.turns self.now.machine.now) (M.rests self.now.machine.now) (M.within self.now.machine.now) self.now.steps 0 reached.nodes quiet.old.items }
        requires near { IsNear reached.nodes 0 }
        ensures room { length result.nodes ≤ self.now.limit }
        ensures rests { IsRested (M.shape self.now.machine.now) (M.specification self.now.machine.now) (M.turns self.now.machine.now) (M.rests self.now.machine.now) (M.within self.now.machine.now) self.now.steps result.so_far.expanded result.nodes quiet.new.items }
        ensures stopped { IsStopped (M.shape self.now.machine.now) (M.specification self.now.machine.now) (M.turns self.now.machine.now) (IsOverLimitOf (M.made self.now.machine.now) (M.limit self.now.machine.now)) (M.right self.now.machine.now) (M.rests self.now.machine.now) (M.within self.now.machine.now) self.now.steps self.now.limit result.nodes result.so_far }
        ensures own { HaveOwnStates result.nodes }
    {
        let so_far = self.expand_all(&mut reached, like, quiet, watch);
        let Reached { nodes, counts } = reached;
        Looked {
            nodes: nodes.into_nodes(),
            counts,
            so_far,
        }
    }
}

/// The depth up to which all nodes are expanded, if the first `expanded` ones are.
fn whole_depth(nodes: &Nodes, expanded: usize, steps: u32) -> u32
    requires { Rises nodes.now }
    ensures low { result ≤ steps }
    ensures least { Each (λ n. result ≤ n.depth) (drop expanded nodes.now) }
    ensures none { length nodes.now ≤ expanded → result ≡ steps }
    ensures next { (n : Node) → slice_get nodes.now expanded ≡ Some n → n.depth < steps → result ≡ n.depth }
{
    if expanded < nodes.len() {
        steps.min(nodes.depth(expanded))
    } else {
        steps
    }
}

/// The number from which on nodes that are as deep as `whole` may not be expanded, if the first
/// `expanded` ones are, of those that are less deep than `steps`.
fn first_left(expanded: usize, whole: u32, steps: u32) -> usize
    ensures less { whole < steps → result ≡ expanded }
    ensures most { steps ≤ whole → result ≡ 0 }
{
    if whole < steps { expanded } else { 0 }
}

/// Looks through all runs of `steps` steps. Each run of at most `whole` steps under each script
/// ends at its limit, in a state that is right; if nothing is left to be looked at, so does each
/// run of however many steps; if a bad step was found, each script that makes its choices and those
/// that lead to it has a run that goes wrong in this step. The quiet states are listed, of those
/// that runs are followed from. Of the states that `whole` steps lead to those that weren't looked
/// at are looked at for deadlocks. The first state is to be right.
pub fn explore<M: Machine, W: Watch<Progress>>(
    alloc: Global,
    machine: &M,
    initial: &State,
    steps: u32,
    limit: u32,
    watch: &mut W,
) -> Result<SearchResult, AllocError>
    requires machine { M.is_sound machine.now }
    requires kept { IsStateOf (M.shape machine.now) initial.now }
    requires initial { state_of (M.shape machine.now) initial.now ≡ (M.specification machine.now).initial }
    requires right { (M.right machine.now) (M.specification machine.now).initial ≡ true }
    ensures safe { IfOk result (λ explored. IsSafeUpTo (M.specification machine.now) (M.turns machine.now) (M.within machine.now) (λ A. (M.right machine.now) A ≡ true) explored.whole) }
    ensures closed { IfOk result (λ explored. explored.ended ≡ Closed → IsSafe (M.specification machine.now) (M.turns machine.now) (M.within machine.now) (λ A. (M.right machine.now) A ≡ true)) }
    ensures alive { IfOk result (λ explored. HoldsBefore (M.specification machine.now) (M.turns machine.now) (M.within machine.now) (λ A. ¬ (IsDeadlock (M.specification machine.now) (M.turns machine.now) (M.rests machine.now) A)) explored.whole) }
    ensures always_alive { IfOk result (λ explored. explored.ended ≡ Closed → HoldsAlways (M.specification machine.now) (M.turns machine.now) (M.within machine.now) (λ A. ¬ (IsDeadlock (M.specification machine.now) (M.turns machine.now) (M.rests machine.now) A))) }
    ensures rested { IfOk result (λ explored. IsRested (M.shape machine.now) (M.specification machine.now) (M.turns machine.now) (M.rests machine.now) (M.within machine.now) steps explored.expanded explored.nodes explored.quiet.items) }
    ensures through { IfOk result (λ explored. LooksThrough (M.shape machine.now) (M.specification machine.now) (M.turns machine.now) (M.within machine.now) explored.whole (explored.ended ≡ Closed) explored.nodes (length explored.quiet.items)) }
    ensures first_quiet { IfOk result (λ explored. IsFirstQuiet (M.shape machine.now) (M.specification machine.now) (M.turns machine.now) (M.within machine.now) explored.nodes explored.quiet.items) }
    ensures rises { IfOk result (λ explored. Rises explored.nodes) }
    ensures low { IfOk result (λ explored. explored.whole ≤ steps) }
    ensures at_limit { IfOk result (λ explored. explored.ended ≡ AtLimit → (explored.whole ≡ steps) × (explored.safe ≡ Some steps)) }
    ensures settled { IfOk result (λ explored. IsSafeIf (M.specification machine.now) (M.turns machine.now) (IsOverLimitOf (M.made machine.now) (M.limit machine.now)) steps limit (M.right machine.now) (M.rests machine.now) (M.within machine.now) explored.safe) }
    ensures beyond { IfOk result (λ explored. explored.whole ≤ beyond explored.safe) }
    ensures known { IfOk result (λ explored. known_to explored.safe ≤ explored.whole) }
    ensures outranked { IfOk result (λ explored. IfBad explored.ended (λ bad. bad.fault ≢ Deadlock →
        HoldsBefore (M.specification machine.now) (M.turns machine.now) (M.within machine.now) (IsAliveOrCrowded (M.specification machine.now) (M.turns machine.now) (IsOverLimitOf (M.made machine.now) (M.limit machine.now)) (M.rests machine.now)) (suc explored.whole))) }
    ensures wrong { IfOk result (λ explored. IfBad explored.ended (GoesWrongSo (M.specification machine.now) (M.turns machine.now) (M.right machine.now) (M.rests machine.now) (M.within machine.now) (M.shape machine.now) explored.nodes)) }
    ensures inside { IfOk result (λ explored. AreInside (M.shape machine.now) (M.specification machine.now) (M.turns machine.now) (M.within machine.now) explored.nodes) }
    ensures deep { IfOk result (λ explored. IfBad explored.ended (λ bad. (n : Node) → slice_get explored.nodes bad.from ≡ Some n → (n.depth ≡ explored.whole) × (bad.fault ≢ Deadlock → n.depth < steps))) }
    ensures nodes { IfOk result (λ explored. Each (IsGood (M.shape machine.now) (M.right machine.now)) explored.nodes × Each (IsLinked (M.shape machine.now) (M.specification machine.now) (M.turns machine.now) explored.nodes) explored.nodes) }
    ensures crowded { IfOk result (λ explored. IfOverLimit explored.ended (λ crowd. (number : ℕ) × AtNode (M.shape machine.now) (IsOverLimitOf (M.made machine.now) (M.limit machine.now)) explored.nodes number explored.whole crowd)) }
    ensures own { IfOk result (λ explored. HaveOwnStates explored.nodes) }
    ensures room { IfOk result (λ explored. length explored.nodes ≤ max limit 1) }
    ensures full { IfOk result (λ explored. explored.ended ≡ TooManyStates →
        IsOverfull (M.shape machine.now) (M.specification machine.now) (M.turns machine.now) (M.right machine.now) (M.within machine.now) limit explored.whole explored.nodes) }
    ensures near { IfOk result (λ explored. explored.ended ≡ TooManyStates → Each (λ n. n.depth ≤ explored.whole + 1) explored.nodes) }
{
    let count = machine.signature().count();
    let reached = Reached {
        nodes: IndexedNodes::new(alloc, initial, count)?,
        counts: Counts::new(),
    };
    let mut quiet = Vec::new(alloc);
    let search = Search {
        alloc,
        machine,
        steps,
        limit: limit.max(1),
    };
    let Looked {
        nodes,
        counts,
        so_far,
    } = search.look(reached, initial, &mut quiet, watch);
    let whole = whole_depth(&nodes, so_far.expanded, steps);
    let first = first_left(so_far.expanded, whole, steps);
    let deadlocks = deadlocks_at(alloc, machine, &nodes, first, whole, initial);
    let end = settle(alloc, so_far.ended, deadlocks, whole);
    Ok(SearchResult {
        nodes,
        whole,
        safe: end.safe,
        expanded: so_far.expanded,
        ended: end.ended,
        outcomes: counts.outcomes,
        widest: counts.widest,
        quiet,
    })
}
