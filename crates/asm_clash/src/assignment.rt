//! Assignments whose updates stand.
use asm_eval::Path;
use asm_state::word::Word;

/// An assignment whose update stands in the set of a step.
#[derive(Drop)]
pub struct Assignment {
    /// Where it is in the rule.
    pub path: Path,
    pub value: Word,
    /// The values of the arguments of its target: none if it has none. Those of `result` are those of
    /// the target of the call.
    pub arguments: Vec<Word>,
    /// The values of the names that are bound there, the innermost first, without `result`. Those
    /// that stand for terms are valued in what the assignment reads.
    pub bound: Vec<Word>,
}
