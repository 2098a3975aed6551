//! The outcomes of rules that choose nothing.
ghost use Rattle.std.specs.Prelude.{◌≡◌, [], IfOk, length};
ghost use Rattle.asm_state.specs.Signature.{Shape, count_of};
ghost use Rattle.asm_meaning.specs.Does.{nothing};
ghost use Rattle.asm_meaning.specs.Yields.{Result as Yielded};
ghost use Rattle.asm_code.specs.code.CodeViews.{code_of};
ghost use Rattle.asm_code.specs.code.RuleMeaning.{IsSoundTarget};
ghost use Rattle.asm_code.specs.code.RuleTree as tree;
ghost use Rattle.asm_code.specs.code.RuleViews.{target_code_of};
ghost use Rattle.asm_code.specs.code.SoundCodes.{IsSound};
ghost use Rattle.asm_eval.specs.code.Frames.{IsSoundFrame};
ghost use Rattle.asm_explore.specs.code.ExploredRules.{exploration_shape, yields_on};
ghost use Rattle.asm_explore.specs.code.OutcomeLists.{Situation, Shows, HaveChoices, IsCounted, Lists};

use crate::exploration::Exploration;
use crate::outcomes::below::Below;
use crate::outcomes::choice_list::ChoiceList;
use crate::outcomes::listed_outcome::{ListedOutcome, RuleResult};
use crate::outcomes::sets::{no_updates, one_update};
use asm_code::code::Code;
use asm_code::rule_code::TargetCode;
use asm_eval::frame::Frame;
use asm_eval::target::target_number;
use asm_eval::value::value;
use std::alloc::{AllocError, Global};

/// One outcome, whatever is chosen.
pub(crate) fn alone(alloc: Global, answer: RuleResult) -> Result<Vec<ListedOutcome>, AllocError>
    ensures lists { (shape : Shape) (o : Situation → Yielded) → IsCounted (count_of shape) answer → ((s : Situation) → Shows shape answer (o s)) → IfOk result (λ fs. Lists shape o fs.items) }
    ensures choices { IfOk result (λ fs. HaveChoices (λ cs. cs ≡ []) fs.items) }
    ensures one { IfOk result (λ fs. length fs.items ≡ 1) }
{
    let mut found = Vec::new(alloc);
    found.push(ListedOutcome {
        choices: ChoiceList::none(),
        answer,
        hash: 0,
        below: Below::none(),
    })?;
    Ok(found)
}

/// The empty set.
pub(crate) fn empty(
    alloc: Global,
    exploration: &Exploration<'_, '_>,
) -> Result<Vec<ListedOutcome>, AllocError>
    ensures lists { IfOk result (λ fs. Lists (exploration_shape exploration.now) (λ s. nothing.result) fs.items) }
    ensures choices { IfOk result (λ fs. HaveChoices (λ cs. cs ≡ []) fs.items) }
    ensures one { IfOk result (λ fs. length fs.items ≡ 1) }
{
    let updates = no_updates(alloc, exploration.view.signature);
    alone(alloc, RuleResult::Set(updates))
}

/// The update of an assignment. A place that is no location gives none.
pub(crate) fn assigned<'e>(
    alloc: Global,
    exploration: &Exploration<'_, '_>,
    frame: &'e Frame<'e>,
    place: &'e TargetCode,
    new: &'e Code,
    path: &[u64],
) -> Result<Vec<ListedOutcome>, AllocError>
    requires sound { IsSoundTarget (exploration_shape exploration.now) (target_code_of place.now) }
    requires sound_new { IsSound (exploration_shape exploration.now) (code_of new.now) }
    requires framed { IsSoundFrame (exploration_shape exploration.now) frame.now }
    ensures lists { let R = tree.Assign (target_code_of place.now) (code_of new.now) in
        IfOk result (λ fs. Lists (exploration_shape exploration.now) (yields_on exploration.now frame.now path.now R) fs.items) }
    ensures choices { IfOk result (λ fs. HaveChoices (λ cs. cs ≡ []) fs.items) }
    ensures one { IfOk result (λ fs. length fs.items ≡ 1) }
{
    let Some(n) = target_number(alloc, exploration.view, frame, place)? else {
        let updates = no_updates(alloc, exploration.view.signature);
        return alone(alloc, RuleResult::Set(updates));
    };
    let new = value(exploration.view, frame, new);
    let updates = one_update(alloc, exploration.view.signature, n, new)?;
    alone(alloc, RuleResult::Set(updates))
}
