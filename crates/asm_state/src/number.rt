//! Whole numbers, each within the range by its type.
ghost use Rattle.std.specs.Prelude.{◌≡◌, ◌≤ℤ◌};
ghost use Rattle.asm_state.specs.Bounds.{greatest_number, least_number};

/// The greatest number. The least one is its negative.
pub const MAX_NUMBER: i64 = 100_000_000_000_000_000;

/// A whole number from the least to the greatest.
#[derive(Clone, Copy, Debug, PartialEq, Eq)]
pub struct Number {
    pub value: i64,
    pub ghost low: { least_number ≤ℤ value },
    pub ghost high: { value ≤ℤ greatest_number },
}

impl Number {
    ghost use Rattle.asm_state.specs.Numbers.{number_with};

    /// The number with this value, if it is in the range.
    // Inlined, since each operation on numbers ends in it.
    #[inline(always)]
    pub fn with_value(value: i64) -> Option<Number>
        ensures { result ≡ number_with value }
    {
        if -MAX_NUMBER <= value && value <= MAX_NUMBER {
            Some(Number { value })
        } else {
            None
        }
    }
}
