//! Machines: what is explored.
ghost use Rattle.std.specs.Prelude.{◌≡◌, ◌<◌, ◌↔◌, ℕ, Bool, List, length, map, take, IsTrue, IfOk, IfErr, IfNone, IfSome};
ghost use Rattle.std.specs.String.{string_bytes};
ghost use Rattle.asm_state.specs.code.Contents.{IsStateOf};
ghost use Rattle.asm_state.specs.Location.{State as Contents};
ghost use Rattle.asm_state.specs.Signature.{Shape, count_of, state_of};
ghost use Rattle.asm_reader.specs.ExactLines.{exactly};
ghost use Rattle.asm_meaning.specs.Run.{Specification};
ghost use Rattle.asm_explore.specs.declared.outcomes.listed_outcome.Choice.{Choice};
ghost use Rattle.asm_explore.specs.code.OutcomeLists.{Situation, Each};
ghost use Rattle.asm_explore.specs.code.StepsAhead.{AreAhead};
ghost use Rattle.asm_explore.specs.code.StepOutcomes.{IsListed, IsOverLimitOf};
ghost use Rattle.asm_explore.specs.code.SearchEnds.{HaltsSo};
ghost use Rattle.asm_explore.specs.ChoiceLines.{lines_of};
ghost use Rattle.asm_explore.specs.ChosenLines.{AreTooLong, IsChosenText, chosen_lines};
ghost use Rattle.asm_explore.specs.Search.{IsQuiet};

use crate::outcomes::listed_outcome::{Choice, ListedOutcome};
use crate::outcomes::outcomes_error::OutcomesError;
use crate::search_error::SearchError;
use crate::states::index::Index;
use crate::states::nodes::Nodes;
use crate::step_ahead::StepAhead;
use asm_state::signature::Signature;
use asm_state::state::State;
use std::alloc::{AllocError, Global};

/// The outcomes of a step, or why there is no list of them.
pub type Listed = Result<Vec<ListedOutcome>, OutcomesError>;

/// A specification, by its steps.
pub trait Machine {
    ghost specification: { Self → Specification };

    ghost turns: { Self → ℕ };

    ghost shape: { Self → Shape };

    // which choices a step from a state makes
    ghost made: { Self → Contents → Situation → List Choice };

    // how many outcomes of a step may be listed
    ghost limit: { Self → ℕ };

    // which states are right
    ghost right: { Self → Contents → Bool };

    // from which states runs are followed
    ghost within: { Self → Contents → Bool };

    // in which quiet states a run may rest
    ghost rests: { Self → Contents → Bool };

    // what has to hold of it
    ghost is_sound: { Self → Type 0 };

    /// The signature of its states.
    fn signature(&self) -> &Signature
        ensures { result.now ≡ shape self.now };

    /// How many states are best given to `ahead` at once. The search gives fewer if there are no
    /// more, and after batches of which fewer were stepped from.
    fn batch(&self) -> usize;

    /// What a step from the state yields, through all scripts. A choice is made at most once in a
    /// step, at a path of its own.
    fn outcomes(&self, alloc: Global, state: &State) -> Listed
        requires sound { is_sound self.now }
        requires whole { length state.now ≡ count_of (shape self.now) }
        ensures { IsListed (shape self.now) (specification self.now) (turns self.now) (made self.now) (limit self.now) (state_of (shape self.now) state.now) result };

    /// Whether the state is quiet: the step from it changes nothing, whatever is chosen. Its outcomes
    /// are listed only if the step without a line of a script changes nothing.
    fn is_quiet(&self, alloc: Global, state: &State) -> Result<bool, SearchError>
        requires sound { is_sound self.now }
        requires state { IsStateOf (shape self.now) state.now }
        ensures quiet { IfOk result (λ so. IsTrue so ↔ IsQuiet (specification self.now) (turns self.now) (state_of (shape self.now) state.now)) }
        ensures crowded { IfErr result (HaltsSo ⊥ (IsOverLimitOf (made self.now) (limit self.now) (state_of (shape self.now) state.now))) };

    /// What the steps from the first of these states lead to, when these nodes are reached and in
    /// this index: from all of them, or from fewer, if these have many outcomes, but from one at
    /// least. If a step may not be looked at ahead, or may go wrong, there is `None`.
    fn ahead(
        &self,
        alloc: Global,
        states: &[State],
        nodes: &Nodes,
        index: &Index,
    ) -> Result<Vec<Option<StepAhead>>, AllocError>
        requires sound { is_sound self.now }
        requires states { Each (IsStateOf (shape self.now)) states.now }
        requires nodes { Each (λ n. length n.state ≡ count_of (shape self.now)) nodes.now }
        ensures some { 0 < length states.now → IfOk result (λ all. 0 < length all.items) }
        ensures ahead { IfOk result (λ all. AreAhead (shape self.now) (specification self.now) (turns self.now) nodes.now (take (length all.items) states.now) all.items) };

    /// The text of the script that a run of `steps` steps needs: with a line for each choice that it
    /// makes, unless it takes the first candidate. It is the run that makes these choices of its
    /// steps, those of the last of them first. There is none if the lines are too long for a script.
    fn chosen_text(
        &self,
        alloc: Global,
        back: &[Vec<Choice>],
        steps: u32,
    ) -> Result<Option<String>, AllocError>
        requires sound { is_sound self.now }
        ensures some { IfOk result (λ found. IfSome found (λ text. IsChosenText (specification self.now) (turns self.now) (exactly (lines_of (map (λ cs. cs.items) back.now))) steps (string_bytes text))) }
        ensures none { IfOk result (λ found. IfNone found (AreTooLong (chosen_lines (specification self.now) (turns self.now) (exactly (lines_of (map (λ cs. cs.items) back.now))) steps))) };

    /// Whether the state is right.
    fn is_right(&self, alloc: Global, state: &State) -> bool
        requires sound { is_sound self.now }
        requires whole { length state.now ≡ count_of (shape self.now) }
        ensures { result ≡ right self.now (state_of (shape self.now) state.now) };

    /// Whether runs are followed from the state.
    fn is_within(&self, alloc: Global, state: &State) -> bool
        requires sound { is_sound self.now }
        requires whole { length state.now ≡ count_of (shape self.now) }
        ensures { result ≡ within self.now (state_of (shape self.now) state.now) };

    /// Whether a run may rest in the state, if it is quiet: it changes no more, whatever is chosen.
    fn may_rest(&self, alloc: Global, state: &State) -> bool
        requires sound { is_sound self.now }
        requires whole { length state.now ≡ count_of (shape self.now) }
        ensures { result ≡ rests self.now (state_of (shape self.now) state.now) };
}
