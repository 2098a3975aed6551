//! Values, and their codes.
ghost use Rattle.std.specs.Prelude.{◌≡◌, ◌<◌, ◌≤◌, ◌^◌};
ghost use Rattle.asm_state.specs.code.Codes.{code_of};

use crate::element::{Element, MAX_ELEMENTS};
use crate::number::{MAX_NUMBER, Number};

/// The code of the number 0. Those of the other numbers lie round it.
pub(crate) const CODE_OF_ZERO: i64 = MAX_NUMBER + 4;

/// The code of element 0, after those of all numbers.
pub(crate) const FIRST_ELEMENT: u64 = 2 * MAX_NUMBER as u64 + 5;

/// No value has this code or a greater one.
pub(crate) const END_OF_CODES: u64 = FIRST_ELEMENT + MAX_ELEMENTS as u64;

/// What a term can have as its value.
#[derive(Clone, Copy, Debug, PartialEq, Eq)]
pub enum Value {
    Undef,
    Truth(bool),
    Number(Number),
    Element(Element),
}

impl Value {
    /// The number that stands for the value in a shared word.
    pub fn code(self) -> u64
        ensures code { result ≡ code_of self }
        ensures positive { 1 ≤ result }
        ensures small { result < 2 ^ 63 }
    {
        match self {
            Value::Undef => 1,
            Value::Truth(false) => 2,
            Value::Truth(true) => 3,
            Value::Number(number) => (number.value + CODE_OF_ZERO) as u64,
            Value::Element(element) => FIRST_ELEMENT + element.index as u64,
        }
    }
}
