//! Operations on words.
ghost use Rattle.std.specs.Prelude.{◌≡◌, ◌<◌};
ghost use Rattle.std.specs.Int.{int_rem_euclid};
ghost use Rattle.std.specs.List.{list_all};
ghost use Rattle.asm_state.specs.Operation.{op};
ghost use Rattle.asm_eval.specs.code.AndChains.{is_and, is_and_operation};
ghost use Rattle.asm_meaning.specs.Value.{is_true};
ghost use Rattle.asm_state.specs.declared.operation.Op.TheVariants.{Add, Remainder, Equal};
ghost use Rattle.asm_state.specs.declared.value.Value.TheVariants.{Number as Whole};

use asm_code::code::Code;
use asm_code::modulus::Modulus;
use asm_state::number::Number;
use asm_state::operation::{Op, apply};
use asm_state::value::Value;
use asm_state::word::Word;

/// The sum with a number.
#[inline(always)]
pub(crate) fn added(left: Word, right: Number) -> Word
    ensures { result ≡ op Add left (Whole right) }
{
    Word::of(apply(Op::Add, left.value(), Value::Number(right)))
}

/// Whether two values are the same.
#[inline(always)]
pub(crate) fn equal_to(left: Word, right: Word) -> Word
    ensures { result ≡ op Equal left right }
{
    Word::truth(left.code() == right.code())
}

/// A power of two above the size of each number, and so a multiple of each power that a modulus is.
const POWER_ABOVE_NUMBERS: i64 = 1 << 62;

/// The remainder by a number.
#[inline(always)]
pub(crate) fn remainder_by(left: Word, right: Modulus) -> Word
    ensures { result ≡ op Remainder left (Whole right.number) }
{
    if right.exponent > 0 {
        return masked(left, right);
    }
    if right.number.value > 0 {
        Word::of(apply(Op::Remainder, left.value(), Value::Number(right.number)))
    } else {
        remainder_by_call(left, right.number)
    }
}

/// The remainder by a power of two, which the last binary digits are.
#[inline(always)]
fn masked(left: Word, right: Modulus) -> Word
    requires { 0 < right.exponent }
    ensures { result ≡ op Remainder left (Whole right.number) }
{
    match left.value() {
        Value::Number(number) => Word::of(Value::Number(last_digits(number, right))),
        _ => Word::undef(),
    }
}

/// The last binary digits, as many as the exponent says. A number below 0 has those of its sum
/// with a greater power.
#[inline(always)]
fn last_digits(number: Number, right: Modulus) -> Number
    requires { 0 < right.exponent }
    ensures { result.value ≡ int_rem_euclid number.value right.number.value }
{
    let mask = (right.number.value - 1) as u64;
    let digits = (number.value + POWER_ABOVE_NUMBERS) as u64 & mask;
    Number {
        value: digits as i64,
    }
}

#[inline(never)]
pub(crate) fn remainder_by_call(left: Word, right: Number) -> Word
    ensures { result ≡ op Remainder left (Whole right) }
{
    Word::of(apply(Op::Remainder, left.value(), Value::Number(right)))
}

/// The value of an operation. An addition has it without a call.
#[inline(always)]
pub(crate) fn applied(operation: Op, left: Word, right: Word) -> Word
    ensures { result ≡ op operation left right }
{
    match operation {
        Op::Add => Word::of(apply(Op::Add, left.value(), right.value())),
        _ => applied_by_call(operation, left, right),
    }
}

#[inline(never)]
pub(crate) fn applied_by_call(operation: Op, left: Word, right: Word) -> Word
    ensures { result ≡ op operation left right }
{
    match operation {
        Op::Add => Word::of(apply(Op::Add, left.value(), right.value())),
        Op::Subtract => Word::of(apply(Op::Subtract, left.value(), right.value())),
        Op::Multiply => Word::of(apply(Op::Multiply, left.value(), right.value())),
        Op::Divide => Word::of(apply(Op::Divide, left.value(), right.value())),
        Op::Remainder => Word::of(apply(Op::Remainder, left.value(), right.value())),
        Op::Negate => Word::of(apply(Op::Negate, left.value(), right.value())),
        Op::Less => Word::of(apply(Op::Less, left.value(), right.value())),
        Op::AtMost => Word::of(apply(Op::AtMost, left.value(), right.value())),
        Op::Greater => Word::of(apply(Op::Greater, left.value(), right.value())),
        Op::AtLeast => Word::of(apply(Op::AtLeast, left.value(), right.value())),
        Op::And => Word::of(apply(Op::And, left.value(), right.value())),
        Op::Or => Word::of(apply(Op::Or, left.value(), right.value())),
        Op::Not => Word::of(apply(Op::Not, left.value(), right.value())),
        Op::Equal => Word::truth(left.code() == right.code()),
        Op::Different => Word::truth(left.code() != right.code()),
    }
}

/// Whether an operation has the value true. Comparisons have it without a call.
#[inline(always)]
pub(crate) fn is_true_of(operation: Op, left: Word, right: Word) -> bool
    ensures { result ≡ is_true (op operation left right) }
{
    match operation {
        Op::Less => is_true_value(apply(Op::Less, left.value(), right.value())),
        Op::AtMost => is_true_value(apply(Op::AtMost, left.value(), right.value())),
        Op::Greater => is_true_value(apply(Op::Greater, left.value(), right.value())),
        Op::AtLeast => is_true_value(apply(Op::AtLeast, left.value(), right.value())),
        Op::Equal => left.code() == right.code(),
        Op::Different => left.code() != right.code(),
        _ => is_true_value(applied_by_call(operation, left, right).value()),
    }
}

/// Whether a value is the truth value true.
#[inline(always)]
fn is_true_value(value: Value) -> bool
    ensures { result ≡ is_true value }
{
    matches!(value, Value::Truth(true))
}

/// Whether each operation of a chain is `and`.
pub(crate) fn are_ands(links: &[(Op, Code)]) -> bool
    ensures { result ≡ list_all is_and links.now }
{
    links.iter().all(|link| is_and(link.0))
}

/// Whether an operation is `and`.
#[inline(always)]
fn is_and(operation: Op) -> bool
    ensures { result ≡ is_and_operation operation }
{
    matches!(operation, Op::And)
}
