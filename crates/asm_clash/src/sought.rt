//! What is sought.
use asm_state::word::Word;

/// What is sought in a rule.
#[derive(Clone, Copy)]
pub struct Sought<'g> {
    /// The number of the location.
    pub location: usize,
    /// The values of the arguments of the location that `result` stands for.
    pub given: &'g [Word],
    /// How many assignments are kept.
    pub most: usize,
}
