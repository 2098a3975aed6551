//! Rules in which nothing is chosen. What such a rule yields is the same through all scripts, so it
//! is formed once, as in a run.
ghost use Rattle.std.specs.Prelude.{◌≡◌, [], IfOk, IfSome, IsTrue, length, map};
ghost use Rattle.asm_code.specs.code.RuleMeaning.{IsSoundRule};
ghost use Rattle.asm_code.specs.code.RuleViews.{rule_of, rules_of};
ghost use Rattle.asm_eval.specs.code.Frames.{IsSoundFrame};
ghost use Rattle.asm_explore.specs.code.ChooseNothing.{ChoosesNothing, ChooseNothing};
ghost use Rattle.asm_explore.specs.code.ExploredRules.{exploration_shape, yields_on};
ghost use Rattle.asm_explore.specs.code.OutcomeLists.{HaveChoices, Lists};

use crate::exploration::Exploration;
use crate::outcomes::leaf_outcomes::alone;
use crate::outcomes::listed_outcome::{ListedOutcome, RuleResult};
use crate::outcomes::sets::marked;
use asm_code::rule_code::RuleCode;
use asm_eval::evaluation::Evaluation;
use asm_eval::frame::Frame;
use asm_eval::rule_outcome::whole;
use asm_eval::{Choices, Outcome};
use asm_reader::Script;
use std::alloc::{AllocError, Global};

/// How many rules within a rule are looked at for a `choose`.
const MAX_LOOKED_AT: u32 = 256;

/// Whether a rule is formed once: it is seen that nothing is chosen in it, and it is one of those
/// that take longer to list than to look through. In one with many rules that may not be seen.
pub(crate) fn is_formed_once(rule: &RuleCode) -> bool
    ensures { IsTrue result → ChoosesNothing (rule_of rule.now) }
{
    let is_long = match rule {
        RuleCode::Seq(_) => true,
        RuleCode::Forall { .. } => true,
        RuleCode::Iterate(_) => true,
        RuleCode::Call { .. } => true,
        _ => false,
    };
    is_long && left_after(rule, MAX_LOOKED_AT).is_some()
}

/// How many more rules may be looked at after this one, if nothing is chosen in it.
#[cycle(left)]
fn left_after(rule: &RuleCode, left: u32) -> Option<u32>
    ensures { IfSome result (λ n. ChoosesNothing (rule_of rule.now)) }
{
    let left = left.checked_sub(1)?;
    match rule {
        RuleCode::Skip => Some(left),
        RuleCode::Assign { .. } => Some(left),
        RuleCode::Par(parts) => left_after_parts(parts.as_slice(), left),
        RuleCode::Seq(parts) => left_after_parts(parts.as_slice(), left),
        RuleCode::If { yes, no, .. } => {
            let left = left_after(yes, left)?;
            left_after(no, left)
        }
        RuleCode::Let { body, .. } => left_after(body, left),
        RuleCode::Forall { body, .. } => left_after(body, left),
        RuleCode::Choose { .. } => None,
        RuleCode::Iterate(body) => left_after(body, left),
        RuleCode::Call { body, .. } => left_after(body, left),
    }
}

/// How many more rules may be looked at after these.
#[cycle(left)]
fn left_after_parts(parts: &[RuleCode], left: u32) -> Option<u32>
    ensures { IfSome result (λ n. ChooseNothing (rules_of (map rule_of parts.now))) }
{
    let mut left = left;
    for i in 0..parts.len() {
        left = left_after(&parts[i], left)?;
    }
    Some(left)
}

/// The outcome of a rule in which nothing is chosen.
pub(crate) fn formed<'e>(
    alloc: Global,
    exploration: &Exploration<'_, '_>,
    frame: &'e Frame<'e>,
    rule: &'e RuleCode,
    path: &[u64],
) -> Result<Vec<ListedOutcome>, AllocError>
    requires sound { IsSoundRule (exploration_shape exploration.now) (rule_of rule.now) }
    requires framed { IsSoundFrame (exploration_shape exploration.now) frame.now }
    requires choiceless { ChoosesNothing (rule_of rule.now) }
    ensures lists { IfOk result (λ fs. Lists (exploration_shape exploration.now) (yields_on exploration.now frame.now path.now (rule_of rule.now)) fs.items) }
    ensures choices { IfOk result (λ fs. HaveChoices (λ cs. cs ≡ []) fs.items) }
    ensures one { IfOk result (λ fs. length fs.items ≡ 1) }
{
    let script = Script::new(alloc);
    let choices = Choices {
        script: &script,
        step: 1,
    };
    let evaluation = Evaluation {
        view: exploration.view,
        choices: &choices,
        turns: exploration.turns,
    };
    let outcome = whole(alloc, &evaluation, frame, rule, path)?;
    match outcome {
        Outcome::Set { set, .. } => {
            let updates = marked(set)?;
            let found = alone(alloc, RuleResult::Set(updates))?;
            Ok(found)
        }
        Outcome::Exhausted(path) => {
            let found = alone(alloc, RuleResult::Exhausted(path))?;
            Ok(found)
        }
    }
}
