//! Operations on values.
ghost use Rattle.std.specs.Prelude.{◌≡◌, ◌*ℤ◌};
ghost use Rattle.asm_state.specs.Operation.{op, number_or_undef, quotient_or_undef, remainder_or_undef};

use crate::number::Number;
use crate::value::Value;

/// An operation of terms.
#[derive(Clone, Copy, Debug, PartialEq, Eq)]
pub enum Op {
    Add,
    Subtract,
    Multiply,
    Divide,
    Remainder,
    Negate,
    Less,
    AtMost,
    Greater,
    AtLeast,
    Equal,
    Different,
    And,
    Or,
    Not,
}

/// The value of an operation, which is `Undef` if an operand is of the wrong kind. An operation
/// with one operand has it as `a`.
// Inlined, so that operands and results need no way through memory.
#[inline(always)]
pub fn apply(operation: Op, a: Value, b: Value) -> Value
    ensures { result ≡ op operation a b }
{
    match (operation, a, b) {
        (Op::Add, Value::Number(m), Value::Number(n)) => number(m.value + n.value),
        (Op::Subtract, Value::Number(m), Value::Number(n)) => number(m.value - n.value),
        (Op::Multiply, Value::Number(m), Value::Number(n)) => product(m, n),
        (Op::Divide, Value::Number(m), Value::Number(n)) => quotient(m, n),
        (Op::Remainder, Value::Number(m), Value::Number(n)) => remainder(m, n),
        (Op::Negate, Value::Number(m), _) => number(-m.value),
        (Op::Less, Value::Number(m), Value::Number(n)) => Value::Truth(m.value < n.value),
        (Op::AtMost, Value::Number(m), Value::Number(n)) => Value::Truth(m.value <= n.value),
        (Op::Greater, Value::Number(m), Value::Number(n)) => Value::Truth(m.value > n.value),
        (Op::AtLeast, Value::Number(m), Value::Number(n)) => Value::Truth(m.value >= n.value),
        (Op::Equal, _, _) => Value::Truth(a.code() == b.code()),
        (Op::Different, _, _) => Value::Truth(a.code() != b.code()),
        (Op::And, Value::Truth(p), Value::Truth(q)) => Value::Truth(p && q),
        (Op::Or, Value::Truth(p), Value::Truth(q)) => Value::Truth(p || q),
        (Op::Not, Value::Truth(p), _) => Value::Truth(!p),
        _ => Value::Undef,
    }
}

/// The value of a number, which is `Undef` outside the range.
fn number(value: i64) -> Value
    ensures { result ≡ number_or_undef value }
{
    match Number::with_value(value) {
        Some(number) => Value::Number(number),
        None => Value::Undef,
    }
}

fn product(m: Number, n: Number) -> Value
    ensures { result ≡ number_or_undef (m.value *ℤ n.value) }
{
    match m.value.checked_mul(n.value) {
        Some(value) => number(value),
        None => Value::Undef,
    }
}

fn quotient(m: Number, n: Number) -> Value
    ensures { result ≡ quotient_or_undef m.value n.value }
{
    if n.value == 0 {
        Value::Undef
    } else {
        number(m.value.div_euclid(n.value))
    }
}

fn remainder(m: Number, n: Number) -> Value
    ensures { result ≡ remainder_or_undef m.value n.value }
{
    if n.value == 0 {
        Value::Undef
    } else {
        number(m.value.rem_euclid(n.value))
    }
}
