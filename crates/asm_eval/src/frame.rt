//! What the positions of a code stand for while it is evaluated.
use asm_code::code::Code;
use asm_state::value_code::ValueCode as Kept;
use asm_state::word::Word;

/// A frame. It refers to the one that it extends, so that binding a value copies nothing.
#[derive(Clone, Copy)]
pub enum Frame<'a> {
    Empty,
    /// A value at position 0, and after it the frame around it.
    One {
        value: Kept,
        outer: &'a Frame<'a>,
    },
    /// The values of a derived function's first parameters, and those of the others after them.
    Values {
        values: &'a [Word],
        outer: &'a Frame<'a>,
    },
    /// In the body of a rule: the location that `result` stands for, if the call has a target,
    /// and after it the codes of the call's arguments, which belong to the frame of the call.
    Terms {
        answer: Option<usize>,
        codes: &'a [Code],
        caller: &'a Frame<'a>,
    },
}
