//! The values of codes.
//!
//! The depth of the recursion is bounded: within a text by its 64 levels of nesting, and across
//! bodies, and codes that positions stand for, by the ranks of derived functions and rules. Only
//! `linked` nests by the length of the text: once for each 64 arguments of a derived function. The
//! recursion ends because the size of the code, with the bodies of its derived functions written
//! out, together with the sizes of the codes in its frame, falls (`asm_code/specs/code/Sizes.antt`,
//! `frame_size` in `specs/code/Frames.antt`).
//!
//! The conditions of quantifiers are valued for up to sixteen elements at once (`keep_holding.rt`,
//! `block_values.rt`), which call this file's functions and are called by them.
ghost use Rattle.std.specs.Prelude.{◌≡◌, ◌≤◌, ◌<◌, ◌*◌, length, map, drop, true};
ghost use Rattle.std.specs.List.{list_all, list_any};
ghost use Rattle.asm_state.specs.Signature.{functions_of};
ghost use Rattle.asm_state.specs.declared.operation.Op.TheVariants.{Add, And, Remainder, Equal, Or};
ghost use Rattle.asm_state.specs.declared.value.Value.TheVariants.{Truth, Number as Whole};
ghost use Rattle.asm_eval.specs.code.AndChains as conditions;
ghost use Rattle.asm_eval.specs.code.AndChains.{is_and};
ghost use Rattle.asm_meaning.specs.Value as spec;
ghost use Rattle.asm_code.specs.code.CodeTree as tree;
ghost use Rattle.asm_code.specs.code.CodeViews.{code_of, codes_of, link_of, links_of};
ghost use Rattle.asm_code.specs.code.SoundCodes.{AreCells, AreSoundLinks, IsSound, IsUniverseNumber};
ghost use Rattle.asm_eval.specs.code.Blocks.{holds_for};
ghost use Rattle.asm_eval.specs.code.Frames.{IsSoundFrame, bound_value, code_value, position_value, tree_value, AllSound};

use crate::applied::{
    added, applied, applied_by_call, are_ands, equal_to, is_true_of, remainder_by,
};
use crate::block::{BLOCK, elements_from};
use crate::find::{FrameBinding, find};
use crate::frame::Frame;
use crate::keep_holding::keep_holding;
use crate::location_values::{
    cell_by_call, function_value, in_grid, in_row, is_false, is_true, is_truth, located,
};
use crate::view::View;
use asm_code::code::{Code, CodeRange, Grid};
use asm_code::modulus::Modulus;
use asm_state::number::Number;
use asm_state::operation::Op;
use asm_state::universe::Universe;
use asm_state::word::Word;

/// The most arguments that are valued in one array. A function that has more is a derived one.
const MAX_ARGUMENTS: usize = 4;

/// A universe with fewer values is looked at value by value.
const MIN_IN_BLOCKS: usize = 8;

/// So many values of a larger one are looked at one by one, before the first block.
const FIRST_ALONE: usize = 4;

/// The arguments of a function that has more are valued in arrays for this many each.
const MAX_BOUND_AT_ONCE: usize = 64;

/// The value of the code in the state that the view shows and under the frame.
///
/// Nests as deep as codes, codes in frames and derived functions do; a chain of any length is
/// valued in one loop. It takes no memory.
#[cycle(value)]
pub fn value<'e>(view: &View, frame: &'e Frame<'e>, code: &'e Code) -> Word
    requires sound { IsSound view.now.signature.now (code_of code.now) }
    requires framed { IsSoundFrame view.now.signature.now frame.now }
    ensures { result ≡ code_value view.now frame.now code.now }
{
    match code {
        Code::Constant(value) => *value,
        Code::Local(position) => local(view, frame, *position),
        Code::Cell(n) => cell_by_call(view, *n),
        Code::Row {
            first,
            over,
            argument,
        } => row_value(view, frame, *first, *over, argument),
        Code::Grid { place, row, column } => grid_value(view, frame, place, row, column),
        Code::FunctionAt {
            function,
            arguments,
        } => function_at(view, frame, *function, arguments.as_slice()),
        Code::Derived { body, arguments } => derived(view, frame, body, arguments.as_slice()),
        Code::DerivedOne { body, argument } => derived_one(view, frame, body, argument),
        Code::DerivedTwo {
            body,
            first,
            second,
        } => derived_two(view, frame, body, first, second),
        Code::With {
            operation,
            left,
            right,
        } => with(view, frame, *operation, left, *right),
        Code::Plus { left, right } => plus(view, frame, left, *right),
        Code::PlusModulo { left, by, over } => plus_modulo(view, frame, left, *by, *over),
        Code::Modulo { left, right } => modulo(view, frame, left, *right),
        Code::Equals { left, right } => equals(view, frame, left, *right),
        Code::Both {
            operation,
            left,
            right,
        } => both(view, frame, *operation, left, right),
        Code::Chain { first, rest } => chain(view, frame, first, rest.as_slice()),
        Code::Exists { over, test } => Word::truth(exists(view, frame, *over, test)),
        Code::Every { over, test } => Word::truth(every(view, frame, *over, test)),
    }
}

/// Whether the value of the code is the truth value true. What it doesn't depend on isn't valued.
#[cycle(value)]
pub fn holds<'e>(view: &View, frame: &'e Frame<'e>, code: &'e Code) -> bool
    requires sound { IsSound view.now.signature.now (code_of code.now) }
    requires framed { IsSoundFrame view.now.signature.now frame.now }
    ensures { result ≡ spec.is_true (code_value view.now frame.now code.now) }
{
    match code {
        Code::With {
            operation,
            left,
            right,
        } => with_holds(view, frame, *operation, left, *right),
        Code::Equals { left, right } => is_true(equals(view, frame, left, *right)),
        Code::Both {
            operation,
            left,
            right,
        } => both_hold(view, frame, *operation, left, right),
        Code::Chain { first, rest } => chain_holds(view, frame, first, rest.as_slice()),
        Code::Exists { over, test } => exists(view, frame, *over, test),
        Code::Every { over, test } => every(view, frame, *over, test),
        _ => is_true(value(view, frame, code)),
    }
}

/// Whether an operation whose right operand is known has the value true.
#[cycle(value)]
#[inline(never)]
fn with_holds<'e>(
    view: &View,
    frame: &'e Frame<'e>,
    operation: Op,
    left: &'e Code,
    right: Word,
) -> bool
    requires sound { IsSound view.now.signature.now (code_of left.now) }
    requires framed { IsSoundFrame view.now.signature.now frame.now }
    ensures { result ≡ spec.is_true (tree_value view.now frame.now (tree.With operation (code_of left.now) right)) }
{
    match operation {
        Op::Not => fails(view, frame, left),
        _ => compared_with(view, frame, operation, left, right),
    }
}

/// The same of an operation that values its operand, as comparisons do.
#[cycle(value)]
#[inline(never)]
fn compared_with<'e>(
    view: &View,
    frame: &'e Frame<'e>,
    operation: Op,
    left: &'e Code,
    right: Word,
) -> bool
    requires sound { IsSound view.now.signature.now (code_of left.now) }
    requires framed { IsSoundFrame view.now.signature.now frame.now }
    ensures { result ≡ spec.is_true (tree_value view.now frame.now (tree.With operation (code_of left.now) right)) }
{
    let left = operand(view, frame, left);
    is_true_of(operation, left, right)
}

/// Whether the value of the code is the truth value false.
#[cycle(value)]
#[inline(never)]
fn fails<'e>(view: &View, frame: &'e Frame<'e>, code: &'e Code) -> bool
    requires sound { IsSound view.now.signature.now (code_of code.now) }
    requires framed { IsSoundFrame view.now.signature.now frame.now }
    ensures { result ≡ conditions.is_false (code_value view.now frame.now code.now) }
{
    match code {
        Code::Exists { over, test } => !exists(view, frame, *over, test),
        Code::Every { over, test } => !every(view, frame, *over, test),
        _ => is_false(value(view, frame, code)),
    }
}

/// Whether one of two operands has the value true, if both are truth values. The right one is
/// asked for no more than that needs.
#[cycle(value)]
#[inline(never)]
fn either_holds<'e>(view: &View, frame: &'e Frame<'e>, left: &'e Code, right: &'e Code) -> bool
    requires left { IsSound view.now.signature.now (code_of left.now) }
    requires right { IsSound view.now.signature.now (code_of right.now) }
    requires framed { IsSoundFrame view.now.signature.now frame.now }
    ensures { result ≡ spec.is_true (tree_value view.now frame.now (tree.Both Or (code_of left.now) (code_of right.now))) }
{
    let tested = operand(view, frame, left);
    if is_false(tested) {
        return holds(view, frame, right);
    }
    if !is_true(tested) {
        return false;
    }
    let other = operand(view, frame, right);
    is_truth(other)
}

/// Whether an operation has the value true. The right operand of `and` is valued if the left one
/// has the value true.
#[cycle(value)]
#[inline(never)]
fn both_hold<'e>(
    view: &View,
    frame: &'e Frame<'e>,
    operation: Op,
    left: &'e Code,
    right: &'e Code,
) -> bool
    requires left { IsSound view.now.signature.now (code_of left.now) }
    requires right { IsSound view.now.signature.now (code_of right.now) }
    requires framed { IsSoundFrame view.now.signature.now frame.now }
    ensures { result ≡ spec.is_true (tree_value view.now frame.now (tree.Both operation (code_of left.now) (code_of right.now))) }
{
    match operation {
        Op::And => {
            if !holds(view, frame, left) {
                return false;
            }
            holds(view, frame, right)
        }
        Op::Or => either_holds(view, frame, left, right),
        _ => compared(view, frame, operation, left, right),
    }
}

/// The same of an operation that values both operands, as comparisons do.
#[cycle(value)]
#[inline(never)]
fn compared<'e>(
    view: &View,
    frame: &'e Frame<'e>,
    operation: Op,
    left: &'e Code,
    right: &'e Code,
) -> bool
    requires left { IsSound view.now.signature.now (code_of left.now) }
    requires right { IsSound view.now.signature.now (code_of right.now) }
    requires framed { IsSoundFrame view.now.signature.now frame.now }
    ensures { result ≡ spec.is_true (tree_value view.now frame.now (tree.Both operation (code_of left.now) (code_of right.now))) }
{
    let a = operand(view, frame, left);
    let b = operand(view, frame, right);
    is_true_of(operation, a, b)
}

/// Whether a chain has the value true.
#[cycle(value)]
#[inline(never)]
fn chain_holds<'e>(
    view: &View,
    frame: &'e Frame<'e>,
    first: &'e Code,
    rest: &'e [(Op, Code)],
) -> bool
    requires first { IsSound view.now.signature.now (code_of first.now) }
    requires rest { AreSoundLinks view.now.signature.now (links_of (map link_of rest.now)) }
    requires framed { IsSoundFrame view.now.signature.now frame.now }
    ensures { result ≡ spec.is_true (tree_value view.now frame.now (tree.Chain (code_of first.now) (links_of (map link_of rest.now)))) }
{
    if are_ands(rest) {
        return all_hold(view, frame, first, rest);
    }
    is_true(chain(view, frame, first, rest))
}

/// Whether each operand of a chain of `and` has the value true.
#[cycle(value)]
#[inline(never)]
fn all_hold<'e>(view: &View, frame: &'e Frame<'e>, first: &'e Code, rest: &'e [(Op, Code)]) -> bool
    requires first { IsSound view.now.signature.now (code_of first.now) }
    requires rest { AreSoundLinks view.now.signature.now (links_of (map link_of rest.now)) }
    requires ands { list_all is_and rest.now ≡ true }
    requires framed { IsSoundFrame view.now.signature.now frame.now }
    ensures { result ≡ spec.is_true (tree_value view.now frame.now (tree.Chain (code_of first.now) (links_of (map link_of rest.now)))) }
{
    if !holds(view, frame, first) {
        return false;
    }
    for i in 0..rest.len() {
        let tested = holds(view, frame, &rest[i].1);
        if !tested {
            return false;
        }
    }
    true
}

/// The same value. Constants and locals, which most operands and arguments are, have it without a
/// call, and others with one.
#[cycle(value)]
#[inline(always)]
pub(crate) fn operand<'e>(view: &View, frame: &'e Frame<'e>, code: &'e Code) -> Word
    requires sound { IsSound view.now.signature.now (code_of code.now) }
    requires framed { IsSoundFrame view.now.signature.now frame.now }
    ensures { result ≡ code_value view.now frame.now code.now }
{
    match code {
        Code::Constant(value) => *value,
        Code::Local(position) => local(view, frame, *position),
        Code::Plus { left, right } => plus(view, frame, left, *right),
        Code::PlusModulo { left, by, over } => plus_modulo(view, frame, left, *by, *over),
        Code::Modulo { left, right } => modulo(view, frame, left, *right),
        Code::Cell(n) => cell_by_call(view, *n),
        Code::Row {
            first,
            over,
            argument,
        } => row_value(view, frame, *first, *over, argument),
        Code::Grid { place, row, column } => grid_value(view, frame, place, row, column),
        _ => value(view, frame, code),
    }
}

/// The value of an operation whose right operand is known.
#[cycle(value)]
#[inline(never)]
fn with<'e>(view: &View, frame: &'e Frame<'e>, operation: Op, left: &'e Code, right: Word) -> Word
    requires sound { IsSound view.now.signature.now (code_of left.now) }
    requires framed { IsSoundFrame view.now.signature.now frame.now }
    ensures { result ≡ tree_value view.now frame.now (tree.With operation (code_of left.now) right) }
{
    let left = operand(view, frame, left);
    applied_by_call(operation, left, right)
}

/// The value of an addition whose right operand is known.
#[cycle(value)]
#[inline(never)]
fn plus<'e>(view: &View, frame: &'e Frame<'e>, left: &'e Code, right: Number) -> Word
    requires sound { IsSound view.now.signature.now (code_of left.now) }
    requires framed { IsSoundFrame view.now.signature.now frame.now }
    ensures { result ≡ tree_value view.now frame.now (tree.With Add (code_of left.now) (Whole right)) }
{
    let left = operand(view, frame, left);
    added(left, right)
}

/// The value of a remainder by what is known.
#[cycle(value)]
#[inline(never)]
fn modulo<'e>(view: &View, frame: &'e Frame<'e>, left: &'e Code, right: Modulus) -> Word
    requires sound { IsSound view.now.signature.now (code_of left.now) }
    requires framed { IsSoundFrame view.now.signature.now frame.now }
    ensures { result ≡ tree_value view.now frame.now (tree.With Remainder (code_of left.now) (Whole right.number)) }
{
    let left = operand(view, frame, left);
    remainder_by(left, right)
}

/// The value of a remainder of an addition.
#[cycle(value)]
#[inline(never)]
fn plus_modulo<'e>(
    view: &View,
    frame: &'e Frame<'e>,
    left: &'e Code,
    by: Number,
    over: Modulus,
) -> Word
    requires sound { IsSound view.now.signature.now (code_of left.now) }
    requires framed { IsSoundFrame view.now.signature.now frame.now }
    ensures { result ≡ tree_value view.now frame.now (tree.With Remainder (tree.With Add (code_of left.now) (Whole by)) (Whole over.number)) }
{
    let left = operand(view, frame, left);
    let sum = added(left, by);
    remainder_by(sum, over)
}

/// The value of a test for equality with what is known.
#[cycle(value)]
#[inline(never)]
fn equals<'e>(view: &View, frame: &'e Frame<'e>, left: &'e Code, right: Word) -> Word
    requires sound { IsSound view.now.signature.now (code_of left.now) }
    requires framed { IsSoundFrame view.now.signature.now frame.now }
    ensures { result ≡ tree_value view.now frame.now (tree.With Equal (code_of left.now) right) }
{
    let left = operand(view, frame, left);
    equal_to(left, right)
}

/// The value of an operation with two operands.
#[cycle(value)]
#[inline(never)]
fn both<'e>(
    view: &View,
    frame: &'e Frame<'e>,
    operation: Op,
    left: &'e Code,
    right: &'e Code,
) -> Word
    requires left { IsSound view.now.signature.now (code_of left.now) }
    requires right { IsSound view.now.signature.now (code_of right.now) }
    requires framed { IsSoundFrame view.now.signature.now frame.now }
    ensures { result ≡ tree_value view.now frame.now (tree.Both operation (code_of left.now) (code_of right.now)) }
{
    let a = operand(view, frame, left);
    let b = operand(view, frame, right);
    applied(operation, a, b)
}

/// The value of operations taken from the left.
#[cycle(value)]
#[inline(never)]
fn chain<'e>(view: &View, frame: &'e Frame<'e>, first: &'e Code, rest: &'e [(Op, Code)]) -> Word
    requires first { IsSound view.now.signature.now (code_of first.now) }
    requires rest { AreSoundLinks view.now.signature.now (links_of (map link_of rest.now)) }
    requires framed { IsSoundFrame view.now.signature.now frame.now }
    ensures { result ≡ tree_value view.now frame.now (tree.Chain (code_of first.now) (links_of (map link_of rest.now))) }
{
    let mut total = operand(view, frame, first);
    for (operation, right) in rest {
        let right = operand(view, frame, right);
        total = applied(*operation, total, right);
    }
    total
}

/// The content of a location by one argument.
#[cycle(value)]
#[inline(never)]
fn row_value<'e>(
    view: &View,
    frame: &'e Frame<'e>,
    first: usize,
    over: CodeRange,
    argument: &'e Code,
) -> Word
    requires cells { AreCells view.now.signature.now first over.count }
    requires sound { IsSound view.now.signature.now (code_of argument.now) }
    requires framed { IsSoundFrame view.now.signature.now frame.now }
    ensures { result ≡ tree_value view.now frame.now (tree.Row first over.low over.count (code_of argument.now)) }
{
    let argument = operand(view, frame, argument);
    in_row(view, first, over, argument)
}

/// The content of a location by two arguments.
#[cycle(value)]
#[inline(never)]
fn grid_value<'e>(
    view: &View,
    frame: &'e Frame<'e>,
    place: &'e Grid,
    row: &'e Code,
    column: &'e Code,
) -> Word
    requires cells { AreCells view.now.signature.now place.now.first (place.now.rows.count * place.now.columns.count) }
    requires row { IsSound view.now.signature.now (code_of row.now) }
    requires column { IsSound view.now.signature.now (code_of column.now) }
    requires framed { IsSoundFrame view.now.signature.now frame.now }
    ensures { result ≡ tree_value view.now frame.now (tree.Grid place.now.first place.now.rows.low place.now.rows.count place.now.columns.low place.now.columns.count (code_of row.now) (code_of column.now)) }
{
    let a = operand(view, frame, row);
    let b = operand(view, frame, column);
    in_grid(view, place, a, b)
}

/// The value of what a position stands for.
#[cycle(value)]
#[inline(always)]
fn local<'e>(view: &View, frame: &'e Frame<'e>, position: usize) -> Word
    requires framed { IsSoundFrame view.now.signature.now frame.now }
    ensures { result ≡ position_value view.now frame.now position }
{
    if let Frame::Values { values, .. } = frame {
        if let Some(value) = values.get(position) {
            return *value;
        }
    }
    local_by_call(view, frame, position)
}

/// The same of any frame.
#[cycle(value)]
#[inline(never)]
pub(crate) fn local_by_call<'e>(view: &View, frame: &'e Frame<'e>, position: usize) -> Word
    requires framed { IsSoundFrame view.now.signature.now frame.now }
    ensures { result ≡ position_value view.now frame.now position }
{
    match find(frame, position) {
        FrameBinding::Nothing => Word::undef(),
        FrameBinding::Known(value) => value,
        FrameBinding::Located(n) => located(view, n),
        FrameBinding::ByName(code, caller) => value(view, caller, code),
    }
}

/// The value of a controlled or static function.
#[cycle(value)]
#[inline(never)]
fn function_at<'e>(
    view: &View,
    frame: &'e Frame<'e>,
    function: usize,
    arguments: &'e [Code],
) -> Word
    requires known { function < functions_of view.now.signature.now }
    requires few { length arguments.now ≤ 4 }
    requires sound { AllSound view.now.signature.now arguments.now }
    requires framed { IsSoundFrame view.now.signature.now frame.now }
    ensures { result ≡ tree_value view.now frame.now (tree.Held function (codes_of (map code_of arguments.now))) }
{
    let mut values = [Word::undef(); MAX_ARGUMENTS];
    for i in 0..arguments.len() {
        values[i] = operand(view, frame, &arguments[i]);
    }
    function_value(view, function, &values[..arguments.len()])
}

/// The value of a derived function's body under the values of its arguments.
#[cycle(value)]
#[inline(never)]
fn derived<'e>(view: &View, frame: &'e Frame<'e>, body: &'e Code, arguments: &'e [Code]) -> Word
    requires body { IsSound view.now.signature.now (code_of body.now) }
    requires sound { AllSound view.now.signature.now arguments.now }
    requires framed { IsSoundFrame view.now.signature.now frame.now }
    ensures { result ≡ tree_value view.now frame.now (tree.Derived (code_of body.now) (codes_of (map code_of arguments.now))) }
{
    if arguments.len() <= MAX_ARGUMENTS {
        let mut values = [Word::undef(); MAX_ARGUMENTS];
        for i in 0..arguments.len() {
            values[i] = operand(view, frame, &arguments[i]);
        }
        let bound = Frame::Values {
            values: &values[..arguments.len()],
            outer: &Frame::Empty,
        };
        return value(view, &bound, body);
    }
    linked(view, frame, &Frame::Empty, body, arguments)
}

/// The same with one argument.
#[cycle(value)]
#[inline(never)]
fn derived_one<'e>(view: &View, frame: &'e Frame<'e>, body: &'e Code, argument: &'e Code) -> Word
    requires body { IsSound view.now.signature.now (code_of body.now) }
    requires sound { IsSound view.now.signature.now (code_of argument.now) }
    requires framed { IsSoundFrame view.now.signature.now frame.now }
    ensures { result ≡ tree_value view.now frame.now (tree.Derived (code_of body.now) (tree.code_then (code_of argument.now) tree.no_codes)) }
{
    let values = [operand(view, frame, argument)];
    let bound = Frame::Values {
        values: &values,
        outer: &Frame::Empty,
    };
    value(view, &bound, body)
}

/// The same with two arguments.
#[cycle(value)]
#[inline(never)]
fn derived_two<'e>(
    view: &View,
    frame: &'e Frame<'e>,
    body: &'e Code,
    first: &'e Code,
    second: &'e Code,
) -> Word
    requires body { IsSound view.now.signature.now (code_of body.now) }
    requires first { IsSound view.now.signature.now (code_of first.now) }
    requires second { IsSound view.now.signature.now (code_of second.now) }
    requires framed { IsSoundFrame view.now.signature.now frame.now }
    ensures { result ≡ tree_value view.now frame.now (tree.Derived (code_of body.now) (tree.code_then (code_of first.now) (tree.code_then (code_of second.now) tree.no_codes))) }
{
    let a = operand(view, frame, first);
    let b = operand(view, frame, second);
    let values = [a, b];
    let bound = Frame::Values {
        values: &values,
        outer: &Frame::Empty,
    };
    value(view, &bound, body)
}

/// The value of a body under the values of these arguments, and after them those that are bound.
/// The last ones are bound first, as many as an array has room for. Nests as deep as there are
/// arrays, so that an argument takes little more of the stack than its value.
#[cycle(value)]
#[inline(never)]
fn linked<'e, 'b>(
    view: &View,
    frame: &'e Frame<'e>,
    bound: &'b Frame<'b>,
    body: &'b Code,
    arguments: &'e [Code],
) -> Word
    requires body { IsSound view.now.signature.now (code_of body.now) }
    requires sound { AllSound view.now.signature.now arguments.now }
    requires framed { IsSoundFrame view.now.signature.now frame.now }
    requires bound { IsSoundFrame view.now.signature.now bound.now }
    ensures { result ≡ bound_value view.now frame.now bound.now body.now arguments.now }
{
    let (others, lasts) = arguments.split_at(arguments.len().saturating_sub(MAX_BOUND_AT_ONCE));
    let mut values = [Word::undef(); MAX_BOUND_AT_ONCE];
    for i in 0..lasts.len() {
        values[i] = operand(view, frame, &lasts[i]);
    }
    let more = Frame::Values {
        values: &values[..lasts.len()],
        outer: &*bound,
    };
    if others.is_empty() {
        return value(view, &more, body);
    }
    linked(view, frame, &more, body, others)
}

/// Whether the test has the value true for some value of the universe. A few values are looked at
/// one by one, and then block after block.
#[cycle(value)]
#[inline(never)]
fn exists<'e>(view: &View, frame: &'e Frame<'e>, over: usize, test: &'e Code) -> bool
    requires universe { IsUniverseNumber view.now.signature.now over }
    requires sound { IsSound view.now.signature.now (code_of test.now) }
    requires framed { IsSoundFrame view.now.signature.now frame.now }
    ensures { Truth result ≡ tree_value view.now frame.now (tree.Exists over (code_of test.now)) }
{
    let universe = view.signature.universe(over);
    let size = universe.size();
    let alone = alone_of(size);
    for i in 0..alone {
        let bound = Frame::One {
            value: universe.element(i).unbranded_code(),
            outer: frame,
        };
        let tested = holds(view, &bound, test);
        if tested {
            return true;
        }
    }
    if alone == size {
        return false;
    }
    exists_from(view, frame, universe, alone, test)
}

/// How many values of a universe of this size are looked at one by one. Most searches that end
/// early end with one of the first.
#[inline(always)]
fn alone_of(size: usize) -> usize
    ensures { result ≤ size }
{
    if size < MIN_IN_BLOCKS {
        size
    } else {
        FIRST_ALONE
    }
}

/// Whether the test has the value true for some value of the universe from a position on, block
/// after block.
#[cycle(value)]
#[inline(never)]
fn exists_from<'e>(
    view: &View,
    frame: &'e Frame<'e>,
    universe: &Universe,
    from: usize,
    test: &'e Code,
) -> bool
    requires sound { IsSound view.now.signature.now (code_of test.now) }
    requires framed { IsSoundFrame view.now.signature.now frame.now }
    ensures { result ≡ list_any (holds_for view.now frame.now (code_of test.now)) (drop from universe.now) }
{
    let size = universe.size();
    let mut i = from;
    while i < size {
        let count = (size - i).min(BLOCK);
        let mut elements = elements_from(universe, i, count);
        if keep_holding(view, frame, test, count, &mut elements) > 0 {
            return true;
        }
        i += count;
    }
    false
}

/// Whether the test has the value true for each value of the universe, looked at in the same way.
#[cycle(value)]
#[inline(never)]
fn every<'e>(view: &View, frame: &'e Frame<'e>, over: usize, test: &'e Code) -> bool
    requires universe { IsUniverseNumber view.now.signature.now over }
    requires sound { IsSound view.now.signature.now (code_of test.now) }
    requires framed { IsSoundFrame view.now.signature.now frame.now }
    ensures { Truth result ≡ tree_value view.now frame.now (tree.Every over (code_of test.now)) }
{
    let universe = view.signature.universe(over);
    let size = universe.size();
    let alone = alone_of(size);
    for i in 0..alone {
        let bound = Frame::One {
            value: universe.element(i).unbranded_code(),
            outer: frame,
        };
        let tested = holds(view, &bound, test);
        if !tested {
            return false;
        }
    }
    if alone == size {
        return true;
    }
    every_from(view, frame, universe, alone, test)
}

/// Whether the test has the value true for each value of the universe from a position on.
#[cycle(value)]
#[inline(never)]
fn every_from<'e>(
    view: &View,
    frame: &'e Frame<'e>,
    universe: &Universe,
    from: usize,
    test: &'e Code,
) -> bool
    requires sound { IsSound view.now.signature.now (code_of test.now) }
    requires framed { IsSoundFrame view.now.signature.now frame.now }
    ensures { result ≡ list_all (holds_for view.now frame.now (code_of test.now)) (drop from universe.now) }
{
    let size = universe.size();
    let mut i = from;
    while i < size {
        let count = (size - i).min(BLOCK);
        let mut elements = elements_from(universe, i, count);
        if keep_holding(view, frame, test, count, &mut elements) < count {
            return false;
        }
        i += count;
    }
    true
}
