//! The values of codes for each element of a block.
//!
//! Each node of a code is valued for all elements before the next one, so that what has to be found
//! out of a node is found out once for up to sixteen elements. What isn't valued so, such as a
//! quantifier or a derived function, is valued element by element.
ghost use Rattle.std.specs.Prelude.{◌≤◌, ◌*◌, map};
ghost use Rattle.asm_state.specs.declared.operation.Op.TheVariants.{Add, Remainder, Equal};
ghost use Rattle.asm_state.specs.declared.value.Value.TheVariants.{Number as Whole};
ghost use Rattle.asm_code.specs.code.CodeTree as tree;
ghost use Rattle.asm_code.specs.code.CodeViews.{code_of, link_of, links_of};
ghost use Rattle.asm_code.specs.code.SoundCodes.{AreCells, AreSoundLinks, IsSound};
ghost use Rattle.asm_eval.specs.code.Blocks.{AreValuesFor};
ghost use Rattle.asm_eval.specs.code.Frames.{IsSoundFrame};

use crate::block::{
    BLOCK, add_each, apply_each, apply_to_pairs, equal_each, fill, grids_at, remainder_of_each,
    rows_at,
};
use crate::frame::Frame;
use crate::location_values::cell_by_call;
use crate::value::{local_by_call, value};
use crate::view::View;
use asm_code::code::{Code, CodeRange, Grid};
use asm_code::modulus::Modulus;
use asm_state::number::Number;
use asm_state::operation::Op;
use asm_state::word::Word;

/// The values of the code for each of the elements, which stand at position 0 in turn. Node by
/// node, each is valued for all elements.
#[cycle(value)]
#[inline(never)]
pub(crate) fn values<'e>(
    view: &View,
    frame: &'e Frame<'e>,
    code: &'e Code,
    count: usize,
    elements: &[Word; BLOCK],
    out: &mut [Word; BLOCK],
)
    requires few { count ≤ 16 }
    requires sound { IsSound view.now.signature.now (code_of code.now) }
    requires framed { IsSoundFrame view.now.signature.now frame.now }
    ensures { AreValuesFor view.now frame.now (code_of code.now) count elements.now out.new }
{
    match code {
        Code::Constant(value) => fill(*value, out),
        Code::Local(position) => local_values(view, frame, *position, elements, out),
        Code::Cell(n) => fill(cell_by_call(view, *n), out),
        Code::Row {
            first,
            over,
            argument,
        } => row_values(view, frame, *first, *over, argument, count, elements, out),
        Code::Grid { place, row, column } => {
            grid_values(view, frame, place, row, column, count, elements, out)
        }
        Code::With {
            operation,
            left,
            right,
        } => with_values(view, frame, *operation, left, *right, count, elements, out),
        Code::Plus { left, right } => {
            plus_values(view, frame, left, *right, count, elements, out)
        }
        Code::PlusModulo { left, by, over } => {
            plus_modulo_values(view, frame, left, *by, *over, count, elements, out)
        }
        Code::Modulo { left, right } => {
            modulo_values(view, frame, left, *right, count, elements, out)
        }
        Code::Equals { left, right } => {
            equals_values(view, frame, left, *right, count, elements, out)
        }
        Code::Both {
            operation,
            left,
            right,
        } => both_values(view, frame, *operation, left, right, count, elements, out),
        Code::Chain { first, rest } => {
            chain_values(view, frame, first, rest.as_slice(), count, elements, out)
        }
        _ => values_singly(view, frame, code, count, elements, out),
    }
}

/// The values of what a position stands for: at position 0 the elements, and at another one the
/// same for each.
#[cycle(value)]
#[inline(never)]
fn local_values<'e>(
    view: &View,
    frame: &'e Frame<'e>,
    position: usize,
    elements: &[Word; BLOCK],
    out: &mut [Word; BLOCK],
)
    requires framed { IsSoundFrame view.now.signature.now frame.now }
    ensures { AreValuesFor view.now frame.now (tree.Local position) 16 elements.now out.new }
{
    if position == 0 {
        *out = *elements;
        return;
    }
    let content = local_by_call(view, frame, position - 1);
    fill(content, out);
}

/// The contents of locations by one argument.
#[cycle(value)]
#[inline(never)]
fn row_values<'e>(
    view: &View,
    frame: &'e Frame<'e>,
    first: usize,
    over: CodeRange,
    argument: &'e Code,
    count: usize,
    elements: &[Word; BLOCK],
    out: &mut [Word; BLOCK],
)
    requires few { count ≤ 16 }
    requires cells { AreCells view.now.signature.now first over.count }
    requires sound { IsSound view.now.signature.now (code_of argument.now) }
    requires framed { IsSoundFrame view.now.signature.now frame.now }
    ensures { AreValuesFor view.now frame.now (tree.Row first over.low over.count (code_of argument.now)) count elements.now out.new }
{
    values(view, frame, argument, count, elements, out);
    rows_at(view, first, over, count, out);
}

/// The values of an operation whose right operand is known.
#[cycle(value)]
#[inline(never)]
fn with_values<'e>(
    view: &View,
    frame: &'e Frame<'e>,
    operation: Op,
    left: &'e Code,
    right: Word,
    count: usize,
    elements: &[Word; BLOCK],
    out: &mut [Word; BLOCK],
)
    requires few { count ≤ 16 }
    requires sound { IsSound view.now.signature.now (code_of left.now) }
    requires framed { IsSoundFrame view.now.signature.now frame.now }
    ensures { AreValuesFor view.now frame.now (tree.With operation (code_of left.now) right) count elements.now out.new }
{
    values(view, frame, left, count, elements, out);
    apply_each(operation, count, right, out);
}

/// The values of an addition whose right operand is known.
#[cycle(value)]
#[inline(never)]
fn plus_values<'e>(
    view: &View,
    frame: &'e Frame<'e>,
    left: &'e Code,
    right: Number,
    count: usize,
    elements: &[Word; BLOCK],
    out: &mut [Word; BLOCK],
)
    requires few { count ≤ 16 }
    requires sound { IsSound view.now.signature.now (code_of left.now) }
    requires framed { IsSoundFrame view.now.signature.now frame.now }
    ensures { AreValuesFor view.now frame.now (tree.With Add (code_of left.now) (Whole right)) count elements.now out.new }
{
    values(view, frame, left, count, elements, out);
    add_each(count, right, out);
}

/// The values of a remainder by what is known.
#[cycle(value)]
#[inline(never)]
fn modulo_values<'e>(
    view: &View,
    frame: &'e Frame<'e>,
    left: &'e Code,
    right: Modulus,
    count: usize,
    elements: &[Word; BLOCK],
    out: &mut [Word; BLOCK],
)
    requires few { count ≤ 16 }
    requires sound { IsSound view.now.signature.now (code_of left.now) }
    requires framed { IsSoundFrame view.now.signature.now frame.now }
    ensures { AreValuesFor view.now frame.now (tree.With Remainder (code_of left.now) (Whole right.number)) count elements.now out.new }
{
    values(view, frame, left, count, elements, out);
    remainder_of_each(count, right, out);
}

/// The values of a remainder of an addition.
#[cycle(value)]
#[inline(never)]
fn plus_modulo_values<'e>(
    view: &View,
    frame: &'e Frame<'e>,
    left: &'e Code,
    by: Number,
    over: Modulus,
    count: usize,
    elements: &[Word; BLOCK],
    out: &mut [Word; BLOCK],
)
    requires few { count ≤ 16 }
    requires sound { IsSound view.now.signature.now (code_of left.now) }
    requires framed { IsSoundFrame view.now.signature.now frame.now }
    ensures { AreValuesFor view.now frame.now (tree.With Remainder (tree.With Add (code_of left.now) (Whole by)) (Whole over.number)) count elements.now out.new }
{
    values(view, frame, left, count, elements, out);
    add_each(count, by, out);
    remainder_of_each(count, over, out);
}

/// The values of a test for equality with what is known.
#[cycle(value)]
#[inline(never)]
fn equals_values<'e>(
    view: &View,
    frame: &'e Frame<'e>,
    left: &'e Code,
    right: Word,
    count: usize,
    elements: &[Word; BLOCK],
    out: &mut [Word; BLOCK],
)
    requires few { count ≤ 16 }
    requires sound { IsSound view.now.signature.now (code_of left.now) }
    requires framed { IsSoundFrame view.now.signature.now frame.now }
    ensures { AreValuesFor view.now frame.now (tree.With Equal (code_of left.now) right) count elements.now out.new }
{
    values(view, frame, left, count, elements, out);
    equal_each(count, right, out);
}

/// The contents of locations by two arguments.
#[cycle(value)]
#[inline(never)]
fn grid_values<'e>(
    view: &View,
    frame: &'e Frame<'e>,
    place: &'e Grid,
    row: &'e Code,
    column: &'e Code,
    count: usize,
    elements: &[Word; BLOCK],
    out: &mut [Word; BLOCK],
)
    requires few { count ≤ 16 }
    requires cells { AreCells view.now.signature.now place.now.first (place.now.rows.count * place.now.columns.count) }
    requires row { IsSound view.now.signature.now (code_of row.now) }
    requires column { IsSound view.now.signature.now (code_of column.now) }
    requires framed { IsSoundFrame view.now.signature.now frame.now }
    ensures { AreValuesFor view.now frame.now (tree.Grid place.now.first place.now.rows.low place.now.rows.count place.now.columns.low place.now.columns.count (code_of row.now) (code_of column.now)) count elements.now out.new }
{
    let mut columns = [Word::undef(); BLOCK];
    values(view, frame, row, count, elements, out);
    values(view, frame, column, count, elements, &mut columns);
    grids_at(view, place, count, out, &columns);
}

/// The values of an operation with two operands.
#[cycle(value)]
#[inline(never)]
fn both_values<'e>(
    view: &View,
    frame: &'e Frame<'e>,
    operation: Op,
    left: &'e Code,
    right: &'e Code,
    count: usize,
    elements: &[Word; BLOCK],
    out: &mut [Word; BLOCK],
)
    requires few { count ≤ 16 }
    requires left { IsSound view.now.signature.now (code_of left.now) }
    requires right { IsSound view.now.signature.now (code_of right.now) }
    requires framed { IsSoundFrame view.now.signature.now frame.now }
    ensures { AreValuesFor view.now frame.now (tree.Both operation (code_of left.now) (code_of right.now)) count elements.now out.new }
{
    let mut others = [Word::undef(); BLOCK];
    values(view, frame, left, count, elements, out);
    values(view, frame, right, count, elements, &mut others);
    apply_to_pairs(operation, count, out, &others);
}

/// The values of operations taken from the left.
#[cycle(value)]
#[inline(never)]
pub(crate) fn chain_values<'e>(
    view: &View,
    frame: &'e Frame<'e>,
    first: &'e Code,
    rest: &'e [(Op, Code)],
    count: usize,
    elements: &[Word; BLOCK],
    out: &mut [Word; BLOCK],
)
    requires few { count ≤ 16 }
    requires first { IsSound view.now.signature.now (code_of first.now) }
    requires rest { AreSoundLinks view.now.signature.now (links_of (map link_of rest.now)) }
    requires framed { IsSoundFrame view.now.signature.now frame.now }
    ensures { AreValuesFor view.now frame.now (tree.Chain (code_of first.now) (links_of (map link_of rest.now))) count elements.now out.new }
{
    let mut others = [Word::undef(); BLOCK];
    values(view, frame, first, count, elements, out);
    for i in 0..rest.len() {
        values(view, frame, &rest[i].1, count, elements, &mut others);
        apply_to_pairs(rest[i].0, count, out, &others);
    }
}

/// The values of any code, element by element.
#[cycle(value)]
#[inline(never)]
fn values_singly<'e>(
    view: &View,
    frame: &'e Frame<'e>,
    code: &'e Code,
    count: usize,
    elements: &[Word; BLOCK],
    out: &mut [Word; BLOCK],
)
    requires few { count ≤ 16 }
    requires sound { IsSound view.now.signature.now (code_of code.now) }
    requires framed { IsSoundFrame view.now.signature.now frame.now }
    ensures { AreValuesFor view.now frame.now (code_of code.now) count elements.now out.new }
{
    for k in 0..count {
        let bound = Frame::One {
            value: elements[k].unbranded_code(),
            outer: frame,
        };
        out[k] = value(view, &bound, code);
    }
}
