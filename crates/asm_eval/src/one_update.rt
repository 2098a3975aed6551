//! Rules that have one update at most, with which a sequence goes on at once: an assignment, and an
//! `if` between such.
ghost use Rattle.std.specs.Prelude.{IfOk};
ghost use Rattle.asm_code.specs.code.CodeViews.{code_of};
ghost use Rattle.asm_code.specs.code.RuleMeaning.{IsSoundTarget, IsSoundRule};
ghost use Rattle.asm_code.specs.code.RuleTree as tree;
ghost use Rattle.asm_code.specs.code.RuleViews.{target_code_of, rule_of};
ghost use Rattle.asm_code.specs.code.SoundCodes.{IsSound};
ghost use Rattle.asm_eval.specs.code.Frames.{IsSoundFrame};
ghost use Rattle.asm_eval.specs.code.Evaluation.{assigned};
ghost use Rattle.asm_eval.specs.code.OneUpdate.{IsOneUpdate, YieldsOneUpdate};

use crate::frame::Frame;
use crate::target::target_number;
use crate::value::{holds, value};
use crate::view::View;
use asm_code::code::Code;
use asm_code::rule_code::{RuleCode, TargetCode};
use asm_state::word::Word;
use std::alloc::{AllocError, Global};

/// What a rule yields, if it is one that has one update at most.
#[derive(Clone, Copy)]
pub enum OneUpdate {
    /// There is no update.
    Nothing,
    /// One update: the number of its location, and the value.
    Update(usize, Word),
    /// The rule is another one.
    Unknown,
}

/// What the rule yields in the state that the view shows.
#[inline(always)]
pub(crate) fn single_update<'e>(
    alloc: Global,
    view: &View,
    frame: &'e Frame<'e>,
    rule: &'e RuleCode,
) -> Result<OneUpdate, AllocError>
    requires sound { IsSoundRule view.now.signature.now (rule_of rule.now) }
    requires framed { IsSoundFrame view.now.signature.now frame.now }
    ensures { IfOk result (YieldsOneUpdate view.now frame.now (rule_of rule.now)) }
{
    match rule {
        RuleCode::If { test, yes, no } => {
            if is_assignment_or_skip(yes) && is_assignment_or_skip(no) {
                return update_of_branch(alloc, view, frame, test, yes, no);
            }
            Ok(OneUpdate::Unknown)
        }
        _ => update_of_assignment(alloc, view, frame, rule),
    }
}

/// Whether the rule is an assignment, or does nothing.
#[inline(always)]
fn is_assignment_or_skip(rule: &RuleCode) -> bool {
    matches!(rule, RuleCode::Skip | RuleCode::Assign { .. })
}

/// What one of two rules yields.
#[inline(never)]
fn update_of_branch<'e>(
    alloc: Global,
    view: &View,
    frame: &'e Frame<'e>,
    test: &'e Code,
    yes: &'e RuleCode,
    no: &'e RuleCode,
) -> Result<OneUpdate, AllocError>
    requires sound_test { IsSound view.now.signature.now (code_of test.now) }
    requires sound { IsSoundRule view.now.signature.now (rule_of yes.now) }
    requires sound_no { IsSoundRule view.now.signature.now (rule_of no.now) }
    requires framed { IsSoundFrame view.now.signature.now frame.now }
    ensures { IfOk result (YieldsOneUpdate view.now frame.now (tree.If (code_of test.now) (rule_of yes.now) (rule_of no.now))) }
{
    if holds(view, frame, test) {
        update_of_assignment(alloc, view, frame, yes)
    } else {
        update_of_assignment(alloc, view, frame, no)
    }
}

/// What the rule yields, if it is an assignment or does nothing.
#[inline(always)]
fn update_of_assignment<'e>(
    alloc: Global,
    view: &View,
    frame: &'e Frame<'e>,
    rule: &'e RuleCode,
) -> Result<OneUpdate, AllocError>
    requires sound { IsSoundRule view.now.signature.now (rule_of rule.now) }
    requires framed { IsSoundFrame view.now.signature.now frame.now }
    ensures { IfOk result (YieldsOneUpdate view.now frame.now (rule_of rule.now)) }
{
    match rule {
        RuleCode::Skip => Ok(OneUpdate::Nothing),
        RuleCode::Assign { place, value } => update_at(alloc, view, frame, place, value),
        _ => Ok(OneUpdate::Unknown),
    }
}

/// What an assignment yields.
#[inline(never)]
fn update_at<'e>(
    alloc: Global,
    view: &View,
    frame: &'e Frame<'e>,
    place: &'e TargetCode,
    new: &'e Code,
) -> Result<OneUpdate, AllocError>
    requires sound { IsSoundTarget view.now.signature.now (target_code_of place.now) }
    requires sound_new { IsSound view.now.signature.now (code_of new.now) }
    requires framed { IsSoundFrame view.now.signature.now frame.now }
    ensures { IfOk result (λ single. IsOneUpdate view.now.signature.now single (assigned view.now frame.now (target_code_of place.now) (code_of new.now))) }
{
    let Some(n) = target_number(alloc, view, frame, place)? else {
        return Ok(OneUpdate::Nothing);
    };
    let new = value(view, frame, new);
    Ok(OneUpdate::Update(n, new))
}
