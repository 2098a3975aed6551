//! Numbers by which remainders are taken.
//!
//! A remainder by a power of two, from 2 to 2^62, is taken from the last binary digits, without a
//! division (`remainder_by` in `asm_eval`).
ghost use Rattle.std.specs.Prelude.{◌≡◌};
ghost use Rattle.asm_code.specs.code.Powers.{IsPower};

use asm_state::number::Number;

/// The powers of two that are told apart have exponents up to this.
const MAX_EXPONENT: u32 = 62;

/// A number by which a remainder is taken.
#[derive(Clone, Copy)]
pub struct Modulus {
    pub number: Number,
    /// If it isn't 0, the number is two to the power of it.
    pub exponent: u32,
    pub ghost power: { IsPower number exponent },
}

impl Modulus {
    /// The number, with its exponent if it is a power of two from 2 on.
    pub fn of(number: Number) -> Modulus
        ensures { result.number ≡ number }
    {
        if number.value > 0 {
            let size = number.value as u64;
            let exponent = size.trailing_zeros();
            if exponent <= MAX_EXPONENT && size == 1u64 << exponent {
                return Modulus { number, exponent };
            }
        }
        Modulus {
            number,
            exponent: 0,
        }
    }
}
