//! Codes of values.
//!
//! The ghost field is the proof that the word is a code. A frame of `asm_eval`, for instance, keeps
//! a bound value in this way.
ghost use Rattle.asm_state.specs.Words.{IsCode};

/// The code of a value. It stands for a word when one is copied together with references.
#[derive(Clone, Copy)]
pub struct ValueCode {
    pub value: u64,
    pub ghost is: { IsCode value },
}
