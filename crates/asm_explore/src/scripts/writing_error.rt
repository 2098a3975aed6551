//! Why lines have no text.

/// Why lines have no text that is a script.
#[derive(Clone, Copy, Debug, PartialEq, Eq)]
pub enum WritingError {
    /// The text has more than 1,048,576 bytes.
    TooLong,
    /// A number has more than nine digits.
    LongNumber,
}
