//! What is wrong with the bytes of a text.

ghost use Rattle.std.specs.Prelude.{◌≡◌};
ghost use Rattle.asm_syntax.specs.Faults.{fault_number, fault_offset};

/// The first fault of a text. `at` is an offset among its bytes.
#[derive(Clone, Copy, Debug, PartialEq, Eq)]
pub enum LexError {
    /// The text has more bytes than a text may have.
    TooLong,
    /// No token begins with this byte.
    BadByte { at: usize },
    /// The comment that begins here isn't closed.
    OpenComment { at: usize },
    /// The number that begins here is too great, or a letter or `_` follows at once.
    BadNumber { at: usize },
}

impl LexError {
    /// Its number, by which it is reported to a user.
    pub fn number(self) -> u8
        ensures { result ≡ fault_number self }
    {
        match self {
            LexError::TooLong => 1,
            LexError::BadByte { .. } => 2,
            LexError::OpenComment { .. } => 3,
            LexError::BadNumber { .. } => 4,
        }
    }

    /// The offset of the byte where it is; a text that is too long has none.
    pub fn at(self) -> Option<usize>
        ensures { result ≡ fault_offset self }
    {
        match self {
            LexError::TooLong => None,
            LexError::BadByte { at } | LexError::OpenComment { at } | LexError::BadNumber { at } =>
                Some(at),
        }
    }
}
