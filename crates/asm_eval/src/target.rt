//! The numbers of locations that are updated.
ghost use Rattle.std.specs.Prelude.{◌≡◌, ◌<◌, ◌+◌, ◌*◌, None, Some, map, option_map, slice_index_or, IfOk, IfSome};
ghost use Rattle.asm_state.specs.declared.function.FunctionKind.TheVariants.{Controlled};
ghost use Rattle.asm_state.specs.Signature.{Shape, HasKind, count_of, domain_of, location_at};
ghost use Rattle.asm_state.specs.Tables.{location_in};
ghost use Rattle.asm_code.specs.code.CodeViews.{code_of};
ghost use Rattle.asm_code.specs.code.RuleMeaning.{IsSoundOptionalTarget, IsSoundTarget};
ghost use Rattle.asm_code.specs.code.RuleTree as tree;
ghost use Rattle.asm_code.specs.code.RuleViews.{target_code_of};
ghost use Rattle.asm_code.specs.code.SoundCodes.{IsLocationNumber, IsSound};
ghost use Rattle.asm_eval.specs.code.Frames.{AllSound, IsSoundFrame, code_value};
ghost use Rattle.asm_eval.specs.code.Evaluation.{optional_target_in, location_numbered, target_in, frame_locations};

use crate::frame::Frame;
use crate::location_values::{number_in_grid, number_in_row};
use crate::value::{operand, value};
use crate::view::View;
use asm_code::code::{Code, CodeRange, Grid};
use asm_code::rule_code::TargetCode;
use asm_state::word::Word;
use std::alloc::{AllocError, Global};

/// The most arguments that are valued without memory of their own.
const MAX_ARGUMENTS: usize = 4;

/// The number of the location that a call's result goes to.
pub fn optional_target_number<'e>(
    alloc: Global,
    view: &View,
    frame: &'e Frame<'e>,
    answer: &'e Option<TargetCode>,
) -> Result<Option<usize>, AllocError>
    requires sound { IsSoundOptionalTarget view.now.signature.now (option_map target_code_of answer.now) }
    requires framed { IsSoundFrame view.now.signature.now frame.now }
    ensures in_range { IfOk result (λ o. IfSome o (λ n. n < count_of view.now.signature.now)) }
    ensures location { IfOk result (λ o. location_numbered view.now.signature.now o ≡ optional_target_in view.now frame.now (option_map target_code_of answer.now)) }
{
    match answer {
        None => Ok(None),
        Some(place) => target_number(alloc, view, frame, place),
    }
}

/// The number of the location that is updated, if there is one: a target that stands for a call's
/// result may stand for none. Memory is asked for only if there are more than four arguments.
#[inline(always)]
pub fn target_number<'e>(
    alloc: Global,
    view: &View,
    frame: &'e Frame<'e>,
    place: &'e TargetCode,
) -> Result<Option<usize>, AllocError>
    requires sound { IsSoundTarget view.now.signature.now (target_code_of place.now) }
    requires framed { IsSoundFrame view.now.signature.now frame.now }
    ensures in_range { IfOk result (λ o. IfSome o (λ n. n < count_of view.now.signature.now)) }
    ensures location { IfOk result (λ o. location_numbered view.now.signature.now o ≡ target_in view.now frame.now (target_code_of place.now)) }
{
    match place {
        TargetCode::ResultAt(position) => Ok(location_at_position(frame, *position)),
        TargetCode::Cell(n) => Ok(Some(*n)),
        TargetCode::Row {
            first,
            over,
            argument,
        } => Ok(Some(row_number(view, frame, *first, *over, argument))),
        TargetCode::Grid { place, row, column } => {
            Ok(Some(grid_number(view, frame, place, row, column)))
        }
        TargetCode::FunctionAt {
            function,
            arguments,
        } => {
            let n = location_number(alloc, view, frame, *function, arguments.as_slice())?;
            Ok(Some(n))
        }
    }
}

/// The number of the location that a position stands for, if it stands for one.
#[inline(never)]
fn location_at_position<'e>(frame: &'e Frame<'e>, position: usize) -> Option<usize>
    ensures in_range { (shape : Shape) → IsSoundFrame shape frame.now → IfSome result (λ n. n < count_of shape) }
    ensures location { (shape : Shape) → location_numbered shape result ≡ slice_index_or (frame_locations shape frame.now) position None }
{
    match frame {
        Frame::Empty => None,
        Frame::One { outer, .. } => {
            if position == 0 {
                return None;
            }
            location_at_position(outer, position - 1)
        }
        Frame::Values { values, outer } => {
            if position < values.len() {
                return None;
            }
            location_at_position(outer, position - values.len())
        }
        Frame::Terms { answer, .. } => {
            if position == 0 {
                return *answer;
            }
            None
        }
    }
}

/// The number of a location by one argument.
#[inline(never)]
fn row_number<'e>(
    view: &View,
    frame: &'e Frame<'e>,
    first: usize,
    over: CodeRange,
    argument: &'e Code,
) -> usize
    requires last { IsLocationNumber view.now.signature.now (first + over.count) }
    requires sound { IsSound view.now.signature.now (code_of argument.now) }
    requires framed { IsSoundFrame view.now.signature.now frame.now }
    ensures in_range { result < count_of view.now.signature.now }
    ensures location { Some (location_at view.now.signature.now result) ≡ target_in view.now frame.now (tree.Row first over.low over.count (code_of argument.now)) }
{
    let argument = operand(view, frame, argument);
    number_in_row(first, over, argument)
}

/// The number of a location by two arguments.
#[inline(never)]
fn grid_number<'e>(
    view: &View,
    frame: &'e Frame<'e>,
    place: &'e Grid,
    row: &'e Code,
    column: &'e Code,
) -> usize
    requires last { IsLocationNumber view.now.signature.now (place.now.first + place.now.rows.count * place.now.columns.count) }
    requires row { IsSound view.now.signature.now (code_of row.now) }
    requires column { IsSound view.now.signature.now (code_of column.now) }
    requires framed { IsSoundFrame view.now.signature.now frame.now }
    ensures in_range { result < count_of view.now.signature.now }
    ensures location { Some (location_at view.now.signature.now result) ≡ target_in view.now frame.now (tree.Grid place.now.first place.now.rows.low place.now.rows.count place.now.columns.low place.now.columns.count (code_of row.now) (code_of column.now)) }
{
    let a = operand(view, frame, row);
    let b = operand(view, frame, column);
    number_in_grid(place, a, b)
}

/// The number of the location of a controlled function with these arguments: the stray one if
/// they are outside its domain.
#[inline(never)]
fn location_number<'e>(
    alloc: Global,
    view: &View,
    frame: &'e Frame<'e>,
    function: usize,
    arguments: &'e [Code],
) -> Result<usize, AllocError>
    requires kind { HasKind Controlled view.now.signature.now function }
    requires sound { AllSound view.now.signature.now arguments.now }
    requires framed { IsSoundFrame view.now.signature.now frame.now }
    ensures in_range { IfOk result (λ n. n < count_of view.now.signature.now) }
    ensures location { let vs = map (code_value view.now frame.now) arguments.now in
        IfOk result (λ n. location_at view.now.signature.now n ≡ location_in function (domain_of view.now.signature.now function) vs) }
{
    if arguments.len() <= MAX_ARGUMENTS {
        let mut values = [Word::undef(); MAX_ARGUMENTS];
        for i in 0..arguments.len() {
            values[i] = value(view, frame, &arguments[i]);
        }
        return Ok(
            view.signature
                .number_of(function, &values[..arguments.len()]),
        );
    }
    let mut values = Vec::with_capacity(alloc, arguments.len())?;
    for argument in arguments {
        values.push(value(view, frame, argument))?;
    }
    Ok(view.signature.number_of(function, values.as_slice()))
}
