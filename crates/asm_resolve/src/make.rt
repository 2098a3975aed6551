//! Codes of operations, and of uses of derived functions.
ghost use Rattle.std.specs.Prelude.{◌≡◌, List, length, map, IfOk};
ghost use Rattle.std.specs.Arc.{arc_value};
ghost use Rattle.asm_state.specs.Location.{State};
ghost use Rattle.asm_state.specs.Operation.{op};
ghost use Rattle.asm_state.specs.Signature.{Shape};
ghost use Rattle.asm_state.specs.declared.operation.Op.TheVariants.{Remainder};
ghost use Rattle.asm_state.specs.declared.value.Value.TheVariants.{Number as Whole};
ghost use Rattle.asm_meaning.specs.Value.{Reading};
ghost use Rattle.asm_code.specs.code.CodeTree as tree;
ghost use Rattle.asm_code.specs.code.CodeViews.{code_of, codes_of};
ghost use Rattle.asm_code.specs.code.Readings.{reading};
ghost use Rattle.asm_code.specs.code.SoundCodes.{IsSound};

use asm_code::code::Code;
use asm_code::modulus::Modulus;
use asm_state::number::Number;
use asm_state::operation::Op;
use asm_state::value::Value;
use asm_state::word::Word;
use std::alloc::{AllocError, Global};
use std::sync::Arc;

/// The code of one operation with two operands.
pub(crate) fn make_link(
    alloc: Global,
    operation: Op,
    left: Code,
    right: Code,
) -> Result<Code, AllocError>
    ensures sound { (shape : Shape) → IfOk result (λ c. IsSound shape (code_of left) → IsSound shape (code_of right) → IsSound shape (code_of c)) }
    ensures reads { (shape : Shape) (rs : List Reading) (A : State) → IfOk result (λ c. reading shape (code_of c) rs A ≡ op operation (reading shape (code_of left) rs A) (reading shape (code_of right) rs A)) }
{
    match right {
        Code::Constant(right) => make_with(alloc, operation, left, right),
        right => Ok(Code::Both {
            operation,
            left: Box::new(alloc, left)?,
            right: Box::new(alloc, right)?,
        }),
    }
}

/// The code of an operation whose right operand is known.
fn make_with(alloc: Global, operation: Op, left: Code, right: Word) -> Result<Code, AllocError>
    ensures { IfOk result (λ c. code_of c ≡ tree.With operation (code_of left) right) }
{
    match (operation, right.value()) {
        (Op::Add, Value::Number(right)) => Ok(Code::Plus {
            left: Box::new(alloc, left)?,
            right,
        }),
        (Op::Remainder, Value::Number(right)) => make_remainder(alloc, left, right),
        (Op::Equal, _) => Ok(Code::Equals {
            left: Box::new(alloc, left)?,
            right,
        }),
        _ => Ok(Code::With {
            operation,
            left: Box::new(alloc, left)?,
            right,
        }),
    }
}

/// The code of a remainder by a number.
fn make_remainder(alloc: Global, left: Code, over: Number) -> Result<Code, AllocError>
    ensures { IfOk result (λ c. code_of c ≡ tree.With Remainder (code_of left) (Whole over)) }
{
    match left {
        Code::Plus { left, right } => Ok(Code::PlusModulo {
            left,
            by: right,
            over: Modulus::of(over),
        }),
        left => Ok(Code::Modulo {
            left: Box::new(alloc, left)?,
            right: Modulus::of(over),
        }),
    }
}

/// The code of a derived function's use.
pub(crate) fn make_derived(
    alloc: Global,
    body: Arc<Code, Global>,
    arguments: Vec<Code>,
) -> Result<Code, AllocError>
    ensures { IfOk result (λ c. code_of c ≡ tree.Derived (code_of (arc_value body)) (codes_of (map code_of arguments.items))) }
{
    if arguments.len() == 1 {
        return make_derived_one(alloc, body, arguments);
    }
    if arguments.len() == 2 {
        return make_derived_two(alloc, body, arguments);
    }
    Ok(Code::Derived { body, arguments })
}

/// The same with one argument.
fn make_derived_one(
    alloc: Global,
    body: Arc<Code, Global>,
    arguments: Vec<Code>,
) -> Result<Code, AllocError>
    requires { length arguments.items ≡ 1 }
    ensures { IfOk result (λ c. code_of c ≡ tree.Derived (code_of (arc_value body)) (codes_of (map code_of arguments.items))) }
{
    let mut rest = arguments;
    let argument = rest.pop().unwrap();
    Ok(Code::DerivedOne {
        body,
        argument: Box::new(alloc, argument)?,
    })
}

/// The same with two arguments.
fn make_derived_two(
    alloc: Global,
    body: Arc<Code, Global>,
    arguments: Vec<Code>,
) -> Result<Code, AllocError>
    requires { length arguments.items ≡ 2 }
    ensures { IfOk result (λ c. code_of c ≡ tree.Derived (code_of (arc_value body)) (codes_of (map code_of arguments.items))) }
{
    let mut rest = arguments;
    let second = rest.pop().unwrap();
    let first = rest.pop().unwrap();
    Ok(Code::DerivedTwo {
        body,
        first: Box::new(alloc, first)?,
        second: Box::new(alloc, second)?,
    })
}
