//! Why a text is no script.
ghost use Rattle.std.specs.Prelude.{◌≡◌};
ghost use Rattle.asm_reader.specs.ScriptRefusals.{script_refusal_number, script_refusal_line};

/// Why a text is no script. Lines count from 1, skipped ones with them; it is the first line that
/// has a fault.
#[derive(Clone, Copy, Debug, PartialEq, Eq)]
pub enum ScriptError {
    /// The line isn't a step or `*`, a path and a number.
    BadLine { line: usize },
    /// The line has the step and the path of an earlier one, or it has `*` and the path of an
    /// earlier one with `*`.
    Repeated { line: usize },
    /// The text has more than 1,048,576 bytes.
    TooLong,
}

impl ScriptError {
    /// Its number, by which it is told to a user.
    pub fn number(self) -> u8
        ensures { result ≡ script_refusal_number self }
    {
        match self {
            ScriptError::BadLine { .. } => 1,
            ScriptError::Repeated { .. } => 2,
            ScriptError::TooLong => 3,
        }
    }

    /// The line that has the fault, if one has.
    pub fn line(self) -> Option<usize>
        ensures { result ≡ script_refusal_line self }
    {
        match self {
            ScriptError::BadLine { line } | ScriptError::Repeated { line } => Some(line),
            ScriptError::TooLong => None,
        }
    }
}
