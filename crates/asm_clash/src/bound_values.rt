//! What an assignment reads in addition to its value.
ghost use Rattle.std.specs.Prelude.{◌≡◌, ◌++◌, IfOk, OnOk, map, option_map};
ghost use Rattle.asm_code.specs.code.RuleMeaning.{IsSoundOptionalTarget, IsSoundRule, IsSoundTarget};
ghost use Rattle.asm_code.specs.code.RuleViews.{rule_of, target_code_of};
ghost use Rattle.asm_eval.specs.code.Frames.{AllSound, IsSoundFrame, code_value};
ghost use Rattle.asm_clash.specs.code.StandingRules.{arguments_at, bound_at, bound_in, given_below, optional_arguments_at};

use asm_code::code::Code;
use asm_code::rule_code::{RuleCode, TargetCode};
use asm_eval::View;
use asm_eval::frame::Frame;
use asm_eval::laws::member_laws;
use asm_eval::value::value;
use asm_state::word::Word;
use std::alloc::{AllocError, Global};

/// In the pieces to which a rule is opened, the values of the arguments of the location that
/// `result` stands for: in the body of a rule that is called those of the call's target.
pub(crate) fn given_in_pieces<'e>(
    alloc: Global,
    view: &View<'_>,
    frame: &'e Frame<'e>,
    rule: &'e RuleCode,
    given: &[Word],
) -> Result<Vec<Word>, AllocError>
    requires sound { IsSoundRule view.now.signature.now (rule_of rule.now) }
    requires framed { IsSoundFrame view.now.signature.now frame.now }
    ensures { IfOk result (λ values. values.items ≡ given_below view.now frame.now given.now (rule_of rule.now)) }
{
    match rule {
        RuleCode::Call { answer, .. } => { arguments_of_target(alloc, view, frame, answer, given) }
        _ => {
            let own = Vec::from_slice(alloc, given)?;
            Ok(own)
        }
    }
}

/// The values of the arguments of the target of a call, if it has one.
fn arguments_of_target<'e>(
    alloc: Global,
    view: &View<'_>,
    frame: &'e Frame<'e>,
    answer: &'e Option<TargetCode>,
    given: &[Word],
) -> Result<Vec<Word>, AllocError>
    requires sound { IsSoundOptionalTarget view.now.signature.now (option_map target_code_of answer.now) }
    requires framed { IsSoundFrame view.now.signature.now frame.now }
    ensures { IfOk result (λ values. values.items ≡ optional_arguments_at view.now frame.now given.now (option_map target_code_of answer.now)) }
{
    match answer {
        None => Ok(Vec::new(alloc)),
        Some(place) => arguments_given(alloc, view, frame, place, given),
    }
}

/// The values of the arguments of a target's function: of `result` those that it is given with.
pub(crate) fn arguments_given<'e>(
    alloc: Global,
    view: &View<'_>,
    frame: &'e Frame<'e>,
    place: &'e TargetCode,
    given: &[Word],
) -> Result<Vec<Word>, AllocError>
    requires sound { IsSoundTarget view.now.signature.now (target_code_of place.now) }
    requires framed { IsSoundFrame view.now.signature.now frame.now }
    ensures { IfOk result (λ values. values.items ≡ arguments_at view.now frame.now given.now (target_code_of place.now)) }
{
    let mut values = Vec::new(alloc);
    match place {
        TargetCode::ResultAt(_) => Vec::from_slice(alloc, given),
        TargetCode::Cell(_) => Ok(values),
        TargetCode::Row { argument, .. } => {
            values.push(value(view, frame, argument))?;
            Ok(values)
        }
        TargetCode::Grid { row, column, .. } => {
            values.push(value(view, frame, row))?;
            values.push(value(view, frame, column))?;
            Ok(values)
        }
        TargetCode::FunctionAt { arguments, .. } => {
            push_values(view, frame, arguments.as_slice(), &mut values)?;
            Ok(values)
        }
    }
}

/// Puts the values of terms after others.
fn push_values<'e>(
    view: &View<'_>,
    frame: &'e Frame<'e>,
    terms: &'e [Code],
    values: &mut Vec<Word>,
) -> Result<(), AllocError>
    requires sound { AllSound view.now.signature.now terms.now }
    requires framed { IsSoundFrame view.now.signature.now frame.now }
    ensures { OnOk result (values.new.items ≡ values.old.items ++ map (code_value view.now frame.now) terms.now) }
{
    member_laws();
    for i in 0..terms.len() {
        values.push(value(view, frame, &terms[i]))?;
    }
    Ok(())
}

/// The values of the names that are bound in a frame, the innermost first.
pub(crate) fn values_bound<'e>(
    alloc: Global,
    view: &View<'_>,
    frame: &'e Frame<'e>,
) -> Result<Vec<Word>, AllocError>
    requires { IsSoundFrame view.now.signature.now frame.now }
    ensures { IfOk result (λ values. values.items ≡ bound_at view.now frame.now) }
{
    let mut values = Vec::new(alloc);
    push_bound(view, frame, &mut values)?;
    Ok(values)
}

/// Puts the values of the names that are bound in a frame after others.
fn push_bound<'e>(
    view: &View<'_>,
    frame: &'e Frame<'e>,
    values: &mut Vec<Word>,
) -> Result<(), AllocError>
    requires { IsSoundFrame view.now.signature.now frame.now }
    ensures { OnOk result (values.new.items ≡ values.old.items ++ bound_in view.now frame.now) }
{
    match frame {
        Frame::Empty => Ok(()),
        Frame::One { value, outer } => {
            values.push(Word::of_code(*value))?;
            push_bound(view, outer, values)
        }
        Frame::Values { values: own, outer } => {
            for i in 0..own.len() {
                values.push(own[i])?;
            }
            push_bound(view, outer, values)
        }
        Frame::Terms { codes, caller, .. } => {
            push_values(view, caller, codes, values)?;
            Ok(())
        }
    }
}
