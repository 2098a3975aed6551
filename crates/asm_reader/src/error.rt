//! Why a text isn't read.

ghost use Rattle.std.specs.Prelude.{◌≡◌};
ghost use Rattle.asm_reader.specs.Refusals.{refusal_number, refusal_offset};

use asm_syntax::LexError;

/// Why a text isn't a specification. `at` is an offset among its bytes.
#[derive(Clone, Copy, Debug, PartialEq, Eq)]
pub enum ReadError {
    /// The bytes have a fault.
    Lex(LexError),
    /// The text can't go on with the token that begins here.
    Unexpected { at: usize },
    /// The text could go on, and ends.
    UnexpectedEnd,
    /// The token that begins here would open a 65th level.
    TooDeep { at: usize },
}

impl ReadError {
    /// Its number, by which it is told to a user.
    pub fn number(self) -> u8
        ensures { result ≡ refusal_number self }
    {
        match self {
            ReadError::Lex(fault) => fault.number(),
            ReadError::Unexpected { .. } => 5,
            ReadError::UnexpectedEnd => 6,
            ReadError::TooDeep { .. } => 7,
        }
    }

    /// The offset of the byte where the text is refused; a text that is too long, or that ends too
    /// early, has none.
    pub fn at(self) -> Option<usize>
        ensures { result ≡ refusal_offset self }
    {
        match self {
            ReadError::Lex(fault) => fault.at(),
            ReadError::UnexpectedEnd => None,
            ReadError::Unexpected { at } | ReadError::TooDeep { at } => Some(at),
        }
    }
}
