//! Resolved terms.
//!
//! A read of a controlled function with up to two arguments has the number of the function's first
//! location and, for each argument, the code of the universe's first value and the number of its
//! values (`CodeRange`). So evaluating it takes one test for each argument, and for two arguments a
//! product. A function with more arguments, and a static one, keep their number (`FunctionAt`). An
//! addition, a remainder and a test for equality with a known right operand have forms of their
//! own, and so has a remainder of such an addition: each is evaluated by a short function of its
//! own.
use crate::modulus::Modulus;
use asm_state::number::Number;
use asm_state::operation::Op;
use asm_state::word::Word;
use std::sync::Arc;

/// Values whose codes follow each other: the code of the first, and how many there are.
#[derive(Clone, Copy)]
pub struct CodeRange {
    pub low: u64,
    pub count: usize,
}

/// The locations of a function with two arguments.
#[derive(Clone, Copy)]
pub struct Grid {
    pub first: usize,
    pub rows: CodeRange,
    pub columns: CodeRange,
}

/// A term in which no name is left. A derived function stands with its body, which all its uses
/// share, so that a code is whole by itself.
#[derive(Drop)]
pub enum Code {
    Constant(Word),
    /// What the frame has at this position, counted from the innermost one.
    Local(usize),
    /// The content of the location with this number.
    Cell(usize),
    /// The content of a controlled function's location, by the position of one argument in a
    /// universe.
    Row {
        first: usize,
        over: CodeRange,
        argument: Box<Code>,
    },
    /// The same by the positions of two arguments.
    Grid {
        place: Grid,
        row: Box<Code>,
        column: Box<Code>,
    },
    /// The value of any controlled or static function.
    FunctionAt {
        function: usize,
        arguments: Vec<Code>,
    },
    /// The value of a derived function's body, under the values of the arguments.
    Derived {
        body: Arc<Code>,
        arguments: Vec<Code>,
    },
    /// The same with one argument.
    DerivedOne {
        body: Arc<Code>,
        argument: Box<Code>,
    },
    /// The same with two arguments.
    DerivedTwo {
        body: Arc<Code>,
        first: Box<Code>,
        second: Box<Code>,
    },
    /// An operation whose right operand is known, or that has none.
    With {
        operation: Op,
        left: Box<Code>,
        right: Word,
    },
    /// The same of an addition of a number.
    Plus {
        left: Box<Code>,
        right: Number,
    },
    /// The same of a remainder of an addition.
    PlusModulo {
        left: Box<Code>,
        by: Number,
        over: Modulus,
    },
    /// The same of a remainder by a number.
    Modulo {
        left: Box<Code>,
        right: Modulus,
    },
    /// The same of a test for equality.
    Equals {
        left: Box<Code>,
        right: Word,
    },
    /// An operation with two operands.
    Both {
        operation: Op,
        left: Box<Code>,
        right: Box<Code>,
    },
    /// Operations taken from the left.
    Chain {
        first: Box<Code>,
        rest: Vec<(Op, Code)>,
    },
    /// Whether some value of the universe passes the test, in which it has position 0.
    Exists {
        over: usize,
        test: Box<Code>,
    },
    /// Whether each value of the universe does.
    Every {
        over: usize,
        test: Box<Code>,
    },
}
