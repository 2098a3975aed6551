//! Specifications are machines.
ghost use Rattle.std.specs.Prelude.{◌≡◌, ◌<◌, length, option_map, IfSome};
ghost use Rattle.asm_state.specs.code.Contents.{IsStateOf};
ghost use Rattle.asm_state.specs.Signature.{count_of, state_of};
ghost use Rattle.asm_syntax.specs.code.Views.{spec_of};
ghost use Rattle.asm_check.specs.Shapes.{shape_of};
ghost use Rattle.asm_meaning.specs.Declarations.{specification_of};
ghost use Rattle.asm_code.specs.code.CodeViews.{code_of};
ghost use Rattle.asm_code.specs.code.RuleMeaning.{IsSoundTest};
ghost use Rattle.asm_code.specs.code.RuleViews.{rule_of};
ghost use Rattle.asm_explore.specs.code.StepsAhead.{IsAhead};
ghost use Rattle.asm_explore.specs.code.ResolvedConditions.{holds_in, IsSpecified};
ghost use Rattle.asm_explore.specs.code.OutcomeLists.{Each};
ghost use Rattle.asm_explore.specs.code.ChoicesMade.{made_in};
ghost use Rattle.asm_explore.specs.code.StepOutcomes.{IsListed};

use crate::choices::chosen_text::chosen_text;
use crate::exploration::Exploration;
use crate::look_ahead::look_ahead;
use crate::machine::{Listed, Machine};
use crate::outcomes::list_outcomes::outcomes;
use crate::outcomes::listed_outcome::{Choice, ListedOutcome};
use crate::outcomes::outcomes_error::OutcomesError;
use crate::quiet_step::is_quiet_in;
use crate::resolved_question::ResolvedQuestion;
use crate::scripts::trail_script::TrailScript;
use crate::search_error::SearchError;
use crate::states::counts::MIN_BATCH;
use crate::states::index::Index;
use crate::states::nodes::Nodes;
use crate::step_ahead::StepAhead;
use asm_code::code::Code;
use asm_eval::View;
use asm_eval::choose::passes;
use asm_eval::frame::Frame;
use asm_resolve::laws::resolving_laws;
use asm_state::signature::Signature;
use asm_state::state::State;
use asm_updates::summary::Summary;
use std::alloc::{AllocError, Global};

/// Whether the condition holds in the state, with no name bound.
fn holds_at(alloc: Global, signature: &Signature, state: &State, test: &Option<Code>) -> bool
    requires sound { IsSoundTest signature.now (option_map code_of test.now) }
    requires whole { length state.now ≡ count_of signature.now }
    ensures { result ≡ holds_in signature.now test.now (state_of signature.now state.now) }
{
    let nothing = Summary::new(alloc, signature.count());
    let view = View::new(signature, state, &nothing);
    passes(&view, &Frame::Empty, test)
}

/// What the step from a state yields, through all scripts.
pub fn step_outcomes(
    alloc: Global,
    specified: &ResolvedQuestion<'_>,
    state: &State,
) -> Result<Vec<ListedOutcome>, OutcomesError>
    requires sound { IsSpecified specified.now }
    requires whole { length state.now ≡ count_of (shape_of (spec_of specified.now.checked.now.spec)) }
    ensures { let s = spec_of specified.now.checked.now.spec in
        let makes = made_in (shape_of s) specified.now.turns (rule_of specified.now.code.now) in
        IsListed (shape_of s) (specification_of s) specified.now.turns makes specified.now.limit (state_of (shape_of s) state.now) result }
{
    resolving_laws();
    let signature = specified.checked.signature();
    let nothing = Summary::new(alloc, signature.count());
    let view = View::new(signature, state, &nothing);
    let exploration = Exploration {
        view: &view,
        turns: specified.turns,
        limit: specified.limit,
    };
    let found = outcomes(alloc, &exploration, &Frame::Empty, specified.code, &[])?;
    Ok(found)
}

/// What the step from a state leads to, when these nodes are reached and in this index, if each of
/// its outcomes leads on and there is memory for it.
pub fn step_ahead(
    alloc: Global,
    specified: &ResolvedQuestion<'_>,
    state: &State,
    nodes: &Nodes,
    index: &Index,
) -> Option<StepAhead>
    requires sound { IsSpecified specified.now }
    requires state { IsStateOf (shape_of (spec_of specified.now.checked.now.spec)) state.now }
    requires nodes { Each (λ n. length n.state ≡ count_of (shape_of (spec_of specified.now.checked.now.spec))) nodes.now }
    ensures { let s = spec_of specified.now.checked.now.spec in
        IfSome result (IsAhead (shape_of s) (specification_of s) specified.now.turns nodes.now (state_of (shape_of s) state.now)) }
{
    let outcomes = match step_outcomes(alloc, specified, state) {
        Ok(outcomes) => outcomes,
        Err(_) => return None,
    };
    match look_ahead(alloc, specified, state, outcomes.as_slice(), nodes, index) {
        Ok(ahead) => ahead,
        Err(_) => None,
    }
}

impl<'a> Machine for ResolvedQuestion<'a> {
    ghost specification = { λ m. specification_of (spec_of m.checked.now.spec) };

    ghost turns = { λ m. m.turns };

    ghost shape = { λ m. shape_of (spec_of m.checked.now.spec) };

    ghost made = { λ m. made_in (shape_of (spec_of m.checked.now.spec)) m.turns (rule_of m.code.now) };

    ghost limit = { λ m. m.limit };

    ghost right = { λ m A. holds_in (shape_of (spec_of m.checked.now.spec)) m.always.now A };

    ghost within = { λ m A. holds_in (shape_of (spec_of m.checked.now.spec)) m.within.now A };

    ghost rests = { λ m A. holds_in (shape_of (spec_of m.checked.now.spec)) m.when_quiet.now A };

    ghost is_sound = { IsSpecified };

    fn signature(&self) -> &Signature {
        self.checked.signature()
    }

    fn batch(&self) -> usize {
        MIN_BATCH
    }

    fn outcomes(&self, alloc: Global, state: &State) -> Listed {
        step_outcomes(alloc, self, state)
    }

    fn is_quiet(&self, alloc: Global, state: &State) -> Result<bool, SearchError> {
        is_quiet_in(alloc, self, state)
    }

    /// Looks at nothing ahead.
    fn ahead(
        &self,
        alloc: Global,
        states: &[State],
        _nodes: &Nodes,
        _index: &Index,
    ) -> Result<Vec<Option<StepAhead>>, AllocError> {
        let mut all = Vec::new(alloc);
        for _state in 0..states.len() {
            all.push(None)?;
        }
        Ok(all)
    }

    fn chosen_text(
        &self,
        alloc: Global,
        back: &[Vec<Choice>],
        steps: u32,
    ) -> Result<Option<String>, AllocError> {
        let script = TrailScript { back };
        chosen_text(alloc, self, &script, steps)
    }

    fn is_right(&self, alloc: Global, state: &State) -> bool {
        holds_at(alloc, self.checked.signature(), state, self.always)
    }

    fn is_within(&self, alloc: Global, state: &State) -> bool {
        holds_at(alloc, self.checked.signature(), state, self.within)
    }

    fn may_rest(&self, alloc: Global, state: &State) -> bool {
        holds_at(alloc, self.checked.signature(), state, self.when_quiet)
    }
}
