//! The outcome of a resolved rule.
ghost use Rattle.std.specs.Prelude.{IfOk};
ghost use Rattle.asm_eval.specs.code.FormedOutcomes.{IsFormed};
ghost use Rattle.asm_code.specs.code.RuleMeaning.{IsSoundRule};
ghost use Rattle.asm_code.specs.code.RuleViews.{rule_of};
ghost use Rattle.asm_eval.specs.code.Frames.{IsSoundFrame};
ghost use Rattle.asm_eval.specs.code.Evaluation.{rule_at, evaluation_shape};

use crate::evaluation::Evaluation;
use crate::form::form;
use crate::frame::Frame;
use crate::outcome::{Forming, Outcome};
use crate::regions::{OnThisThread, Regions};
use asm_code::rule_code::RuleCode;
use asm_reader::Picks;
use std::alloc::{AllocError, Global};

/// What the rule yields at this path, under the frame. Each region is offered to `regions`, and the
/// rest is evaluated on this thread.
pub fn outcome<'e, P: Picks, G: Regions<P>>(
    alloc: Global,
    regions: &mut G,
    evaluation: &Evaluation<'_, '_, P>,
    frame: &'e Frame<'e>,
    rule: &'e RuleCode,
    path: &[u64],
) -> Result<Outcome, AllocError>
    requires ready { G.is_ready regions.old }
    requires sound { IsSoundRule (evaluation_shape evaluation.now) (rule_of rule.now) }
    requires framed { IsSoundFrame (evaluation_shape evaluation.now) frame.now }
    ensures ready { G.is_ready regions.new }
    ensures formed { IfOk result (IsFormed (evaluation_shape evaluation.now) (rule_at evaluation.now frame.now path.now (rule_of rule.now))) }
{
    let mut forming = Forming::at(alloc, evaluation.view.signature, path)?;
    let formed = form(alloc, regions, evaluation, frame, rule, &mut forming);
    forming.into_outcome(formed)
}

/// What the rule yields at this path, under the frame, all of it on this thread.
pub fn whole<'e, P: Picks>(
    alloc: Global,
    evaluation: &Evaluation<'_, '_, P>,
    frame: &'e Frame<'e>,
    rule: &'e RuleCode,
    path: &[u64],
) -> Result<Outcome, AllocError>
    requires sound { IsSoundRule (evaluation_shape evaluation.now) (rule_of rule.now) }
    requires framed { IsSoundFrame (evaluation_shape evaluation.now) frame.now }
    ensures { IfOk result (IsFormed (evaluation_shape evaluation.now) (rule_at evaluation.now frame.now path.now (rule_of rule.now))) }
{
    outcome(alloc, &mut OnThisThread, evaluation, frame, rule, path)
}
