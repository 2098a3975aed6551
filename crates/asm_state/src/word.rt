//! Values as words.
//!
//! To a contract a `Word` is the `Value` whose code it holds, so definitions and contracts speak of
//! values, not of words. Only this file makes words, and code that looks at a value takes it out of
//! its word (`Word::value`).
ghost use Rattle.std.specs.Prelude.{◌≡◌, ◌≢◌, ◌<◌, ◌≤◌, ◌^◌, IfNone, IfSome};
ghost use Rattle.asm_state.specs.code.Codes.{code_of};
ghost use Rattle.asm_state.specs.Operation.{op};
ghost use Rattle.asm_state.specs.Words.{value_of_code};
ghost use Rattle.asm_state.specs.declared.value.Value.{Value};
ghost use Rattle.asm_state.specs.declared.value.Value.TheVariants.{Undef, Truth};

use crate::element::Element;
use crate::number::Number;
use crate::operation::{Op, apply};
use crate::value::{CODE_OF_ZERO, END_OF_CODES, FIRST_ELEMENT, Value};
use crate::value_code::ValueCode;
use std::marker::Model;

/// A value, held as its code.
#[derive(Clone, Copy, Debug, PartialEq, Eq)]
pub struct Word {
    code: u64,
}

impl Model for Word {
    ghost use Rattle.asm_state.specs.declared.value.Value.{Value as Content};

    ghost Value = { Content };

    ghost use Rattle.asm_state.specs.code.Codes.{code_of};
    ghost use Rattle.asm_state.specs.Words.{value_of_code, IsCode};
    ghost use Rattle.asm_state.specs.code.WordCodes.{same_code};

    ghost view = { λ w. value_of_code w.code };

    ghost invariant = { λ w. IsCode w.code };

    ghost inverse = { λ v. record { code = code_of v } };

    ghost inverse_ok = { λ w h i. record { code = same_code w.code h i } };
}

impl Word {
    /// The word of a value.
    #[inline(always)]
    pub fn of(value: Value) -> Word
        ensures { result ≡ value }
    {
        Word { code: value.code() }
    }

    /// `Undef`.
    #[inline(always)]
    pub fn undef() -> Word
        ensures { result ≡ Undef }
    {
        Word { code: 1 }
    }

    /// A truth value.
    #[inline(always)]
    pub fn truth(truth: bool) -> Word
        ensures { result ≡ Truth truth }
    {
        Word::of(Value::Truth(truth))
    }

    /// The code of the value.
    #[inline(always)]
    pub fn code(self) -> u64
        ensures code { result ≡ code_of self }
        ensures positive { 1 ≤ result }
        ensures small { result < 2 ^ 63 }
    {
        self.code
    }

    /// The code, to be kept next to references.
    #[inline(always)]
    pub fn unbranded_code(self) -> ValueCode
        ensures { value_of_code result.value ≡ self }
    {
        ValueCode { value: self.code }
    }

    /// The word that was kept as this code.
    #[inline(always)]
    pub fn of_code(code: ValueCode) -> Word
        ensures { result ≡ value_of_code code.value }
    {
        Word { code: code.value }
    }

    /// The word that has this code, if there is one.
    pub fn from_code(code: u64) -> Option<Word>
        ensures value { IfSome result (λ v. code_of v ≡ code) }
        ensures none { IfNone result ((v : Value) → code_of v ≢ code) }
    {
        if 1 <= code && code < END_OF_CODES {
            Some(Word { code })
        } else {
            None
        }
    }

    /// The value, to look at.
    #[inline(always)]
    pub fn value(self) -> Value
        ensures { result ≡ self }
    {
        if self.code >= FIRST_ELEMENT {
            Value::Element(Element {
                index: (self.code - FIRST_ELEMENT) as u32,
            })
        } else if self.code >= 4 {
            Value::Number(Number {
                value: self.code as i64 - CODE_OF_ZERO,
            })
        } else if self.code == 1 {
            Value::Undef
        } else {
            Value::Truth(self.code == 3)
        }
    }
}

/// The value of an operation, on words.
#[inline(always)]
pub fn apply_to(operation: Op, a: Word, b: Word) -> Word
    ensures { result ≡ op operation a b }
{
    Word::of(apply(operation, a.value(), b.value()))
}
