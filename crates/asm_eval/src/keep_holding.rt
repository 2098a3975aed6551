//! The elements of a block for which a condition holds.
//!
//! They are kept in order at the front of the block. So `and` keeps what its right operand holds
//! for among what its left one has kept: nothing is valued for an element that is out.
ghost use Rattle.std.specs.Prelude.{◌≡◌, ◌≤◌, length, map, take, true};
ghost use Rattle.std.specs.List.{filter, list_all};
ghost use Rattle.asm_state.specs.declared.operation.Op.TheVariants.{And};
ghost use Rattle.asm_code.specs.code.CodeTree as tree;
ghost use Rattle.asm_code.specs.code.CodeViews.{code_of, link_of, links_of};
ghost use Rattle.asm_code.specs.code.SoundCodes.{AreSoundLinks, IsSound};
ghost use Rattle.asm_eval.specs.code.AndChains.{is_and};
ghost use Rattle.asm_eval.specs.code.Blocks.{holds_for};
ghost use Rattle.asm_eval.specs.code.Frames.{IsSoundFrame};

use crate::applied::are_ands;
use crate::block::{BLOCK, keep_tested};
use crate::block_values::{chain_values, values};
use crate::frame::Frame;
use crate::value::holds;
use crate::view::View;
use asm_code::code::Code;
use asm_state::operation::Op;
use asm_state::word::Word;

/// Fewer elements than this are looked at one by one.
const MIN_AT_ONCE: usize = 6;

/// Keeps the elements for which, at position 0, the code has the value true. Returns how many they
/// are.
#[cycle(value)]
#[inline(never)]
pub(crate) fn keep_holding<'e>(
    view: &View,
    frame: &'e Frame<'e>,
    code: &'e Code,
    count: usize,
    elements: &mut [Word; BLOCK],
) -> usize
    requires few { count ≤ 16 }
    requires sound { IsSound view.now.signature.now (code_of code.now) }
    requires framed { IsSoundFrame view.now.signature.now frame.now }
    ensures few { result ≤ count }
    ensures room { length elements.new ≡ 16 }
    ensures kept { take result elements.new ≡ filter (holds_for view.now frame.now (code_of code.now)) (take count elements.old) }
{
    if count < MIN_AT_ONCE {
        return keep_singly(view, frame, code, count, elements);
    }
    match code {
        Code::Both {
            operation: Op::And,
            left,
            right,
        } => keep_both(view, frame, left, right, count, elements),
        Code::Chain { first, rest } => {
            keep_chain(view, frame, first, rest.as_slice(), count, elements)
        }
        Code::Exists { .. }
        | Code::Every { .. }
        | Code::Derived { .. }
        | Code::DerivedOne { .. }
        | Code::DerivedTwo { .. } => keep_singly(view, frame, code, count, elements),
        _ => keep_valued(view, frame, code, count, elements),
    }
}

/// Keeps the elements for which both operands have the value true.
#[cycle(value)]
#[inline(never)]
fn keep_both<'e>(
    view: &View,
    frame: &'e Frame<'e>,
    left: &'e Code,
    right: &'e Code,
    count: usize,
    elements: &mut [Word; BLOCK],
) -> usize
    requires few { count ≤ 16 }
    requires left { IsSound view.now.signature.now (code_of left.now) }
    requires right { IsSound view.now.signature.now (code_of right.now) }
    requires framed { IsSoundFrame view.now.signature.now frame.now }
    ensures few { result ≤ count }
    ensures room { length elements.new ≡ 16 }
    ensures kept { take result elements.new ≡ filter (holds_for view.now frame.now (tree.Both And (code_of left.now) (code_of right.now))) (take count elements.old) }
{
    let kept = keep_holding(view, frame, left, count, elements);
    keep_holding(view, frame, right, kept, elements)
}

/// Keeps the elements for which a chain has the value true.
#[cycle(value)]
#[inline(never)]
fn keep_chain<'e>(
    view: &View,
    frame: &'e Frame<'e>,
    first: &'e Code,
    rest: &'e [(Op, Code)],
    count: usize,
    elements: &mut [Word; BLOCK],
) -> usize
    requires few { count ≤ 16 }
    requires first { IsSound view.now.signature.now (code_of first.now) }
    requires rest { AreSoundLinks view.now.signature.now (links_of (map link_of rest.now)) }
    requires framed { IsSoundFrame view.now.signature.now frame.now }
    ensures few { result ≤ count }
    ensures room { length elements.new ≡ 16 }
    ensures kept { take result elements.new ≡ filter (holds_for view.now frame.now (tree.Chain (code_of first.now) (links_of (map link_of rest.now)))) (take count elements.old) }
{
    if are_ands(rest) {
        return keep_ands(view, frame, first, rest, count, elements);
    }
    let mut tests = [Word::undef(); BLOCK];
    chain_values(view, frame, first, rest, count, elements, &mut tests);
    keep_tested(count, &tests, elements)
}

/// Keeps the elements for which each operand of a chain of `and` has the value true.
#[cycle(value)]
#[inline(never)]
fn keep_ands<'e>(
    view: &View,
    frame: &'e Frame<'e>,
    first: &'e Code,
    rest: &'e [(Op, Code)],
    count: usize,
    elements: &mut [Word; BLOCK],
) -> usize
    requires few { count ≤ 16 }
    requires first { IsSound view.now.signature.now (code_of first.now) }
    requires rest { AreSoundLinks view.now.signature.now (links_of (map link_of rest.now)) }
    requires ands { list_all is_and rest.now ≡ true }
    requires framed { IsSoundFrame view.now.signature.now frame.now }
    ensures few { result ≤ count }
    ensures room { length elements.new ≡ 16 }
    ensures kept { take result elements.new ≡ filter (holds_for view.now frame.now (tree.Chain (code_of first.now) (links_of (map link_of rest.now)))) (take count elements.old) }
{
    let mut kept = keep_holding(view, frame, first, count, elements);
    for i in 0..rest.len() {
        kept = keep_holding(view, frame, &rest[i].1, kept, elements);
    }
    kept
}

/// The same of any code, valued for all elements at once.
#[cycle(value)]
#[inline(never)]
fn keep_valued<'e>(
    view: &View,
    frame: &'e Frame<'e>,
    code: &'e Code,
    count: usize,
    elements: &mut [Word; BLOCK],
) -> usize
    requires few { count ≤ 16 }
    requires sound { IsSound view.now.signature.now (code_of code.now) }
    requires framed { IsSoundFrame view.now.signature.now frame.now }
    ensures few { result ≤ count }
    ensures room { length elements.new ≡ 16 }
    ensures kept { take result elements.new ≡ filter (holds_for view.now frame.now (code_of code.now)) (take count elements.old) }
{
    let mut tests = [Word::undef(); BLOCK];
    values(view, frame, code, count, elements, &mut tests);
    keep_tested(count, &tests, elements)
}

/// The same, element by element.
#[cycle(value)]
#[inline(never)]
fn keep_singly<'e>(
    view: &View,
    frame: &'e Frame<'e>,
    code: &'e Code,
    count: usize,
    elements: &mut [Word; BLOCK],
) -> usize
    requires few { count ≤ 16 }
    requires sound { IsSound view.now.signature.now (code_of code.now) }
    requires framed { IsSoundFrame view.now.signature.now frame.now }
    ensures few { result ≤ count }
    ensures room { length elements.new ≡ 16 }
    ensures kept { take result elements.new ≡ filter (holds_for view.now frame.now (code_of code.now)) (take count elements.old) }
{
    let mut kept = 0;
    for k in 0..count {
        let element = elements[k];
        let bound = Frame::One {
            value: element.unbranded_code(),
            outer: frame,
        };
        if holds(view, &bound, code) {
            elements[kept] = element;
            kept += 1;
        }
    }
    kept
}
