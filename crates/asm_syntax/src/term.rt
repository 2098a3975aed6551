//! Terms.
ghost use Rattle.std.specs.Prelude.{◌≡◌};
ghost use Rattle.asm_syntax.specs.PlainTree.{literal_value};

use crate::name::Name;
use asm_state::number::Number;
use asm_state::operation::Op;
use asm_state::value::Value;
use asm_state::word::Word;

/// A value that can be written: any but the elements of enumerations, which have names.
#[derive(Clone, Copy, Debug, PartialEq, Eq)]
pub enum Literal {
    Undef,
    Truth(bool),
    Number(Number),
}

impl Literal {
    /// The value that is written so.
    #[inline(always)]
    pub fn value(self) -> Word
        ensures { result ≡ literal_value self }
    {
        match self {
            Literal::Undef => Word::undef(),
            Literal::Truth(truth) => Word::truth(truth),
            Literal::Number(number) => Word::of(Value::Number(number)),
        }
    }
}

/// A term. A pair of parentheses makes no node, and a chain has one link at least.
#[derive(Drop)]
pub enum Term {
    Constant(Literal),
    /// A bound name, an element, or a function with its arguments.
    Named {
        name: Name,
        arguments: Vec<Term>,
    },
    /// Operations of one precedence, taken from the left, or one comparison.
    Chain {
        first: Box<Term>,
        rest: Vec<(Op, Term)>,
    },
    Not(Box<Term>),
    Negative(Box<Term>),
    /// `(exists name in over with test)`.
    Exists {
        name: Name,
        over: Name,
        test: Box<Term>,
    },
    /// `(forall name in over holds test)`.
    Every {
        name: Name,
        over: Name,
        test: Box<Term>,
    },
    /// The word `result`: the content of the location into which the rule's result goes.
    Result(Name),
}
