//! Universes: enumerations and ranges.
//!
//! A universe is kept as its first value and a count, so a position in it is a difference of codes.
ghost use Rattle.std.specs.Prelude.{◌≡◌, ◌+◌, ◌≤◌, ◌<◌, Some, IfSome, length, slice_get};
ghost use Rattle.std.specs.List.{position};
ghost use Rattle.asm_state.specs.declared.element.TheConstants.{MAX_ELEMENTS};
ghost use Rattle.asm_state.specs.declared.signature_limits.TheConstants.{MAX_VALUES};
ghost use Rattle.asm_state.specs.Operation.{is_same};
ghost use Rattle.asm_state.specs.code.ConsecutiveCodes.{AreConsecutive};
ghost use Rattle.asm_state.specs.Universe.{elements, count_between, numbers_between, IsUniverse};
ghost use Rattle.asm_state.specs.code.UniverseView.{first_code, IsFirst};

use crate::element::{Element, MAX_ELEMENTS};
use crate::number::Number;
use crate::signature_limits::MAX_VALUES;
use crate::value::{CODE_OF_ZERO, FIRST_ELEMENT, Value};
use crate::word::Word;
use std::marker::Model;

/// The first value of a universe.
#[derive(Clone, Copy, Debug)]
enum First {
    Element(u32),
    Number(i64),
}

impl First {
    /// The code of the value.
    fn code(self) -> u64
        requires { IsFirst self }
        ensures { result ≡ first_code self }
    {
        match self {
            First::Element(index) => FIRST_ELEMENT + index as u64,
            First::Number(value) => (value + CODE_OF_ZERO) as u64,
        }
    }
}

/// The elements of an enumeration or the numbers of a range, in order. A value's position counts
/// from 0.
#[derive(Debug, Drop)]
pub struct Universe {
    first: First,
    count: usize,
}

impl Model for Universe {
    ghost use Rattle.std.specs.Prelude.{List};
    ghost use Rattle.asm_state.specs.declared.value.Value.{Value as Member};

    ghost Value = { List Member };

    ghost use Rattle.asm_state.specs.code.UniverseView.{values_from, IsWithin};

    ghost view = { λ u. values_from u.first u.count };

    ghost invariant = { λ u. IsWithin u.first u.count };
}

impl Universe {
    /// The elements from the number `first` on. Elements are numbered through over all
    /// enumerations.
    pub fn elements(first: u32, count: usize) -> Universe
        requires few { count ≤ MAX_VALUES }
        requires in_range { first + count ≤ MAX_ELEMENTS }
        ensures { result ≡ elements first count }
    {
        Universe {
            first: First::Element(first),
            count,
        }
    }

    /// The numbers from the first to the last, both among them. There are none if the last is below
    /// the first.
    pub fn range(first: Number, last: Number) -> Universe
        requires few { count_between first.value last.value ≤ MAX_VALUES }
        ensures { result ≡ numbers_between first.value last.value }
    {
        let count = if first.value <= last.value {
            (last.value - first.value) as usize + 1
        } else {
            0
        };
        Universe {
            first: First::Number(first.value),
            count,
        }
    }

    /// How many values there are.
    pub fn size(&self) -> usize
        ensures size { result ≡ length self.now }
        ensures few { result ≤ MAX_VALUES }
        ensures sound { IsUniverse self.now }
    {
        self.count
    }

    /// The code of the first value. The others have the codes after it, in turn.
    pub fn first_code(&self) -> u64
        ensures { AreConsecutive result self.now }
    {
        self.first.code()
    }

    /// The value at a position.
    pub fn element(&self, i: usize) -> Word
        requires { i < length self.now }
        ensures { slice_get self.now i ≡ Some result }
    {
        Word::of(self.value_at(i))
    }

    fn value_at(&self, i: usize) -> Value
        requires { i < length self.now }
        ensures { slice_get self.now i ≡ Some result }
    {
        match self.first {
            First::Element(index) => Value::Element(Element {
                index: index + i as u32,
            }),
            First::Number(value) => Value::Number(Number {
                value: value + i as i64,
            }),
        }
    }

    /// The position of a value, if the universe has it.
    pub fn position(&self, value: Word) -> Option<usize>
        ensures position { result ≡ position (is_same value) self.now }
        ensures few { IfSome result (λ i. i < MAX_VALUES) }
    {
        let first = self.first.code();
        let code = value.code();
        if first <= code && code - first < self.count as u64 {
            Some((code - first) as usize)
        } else {
            None
        }
    }
}
