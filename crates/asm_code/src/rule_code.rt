//! Resolved rules.
//!
//! A location that is updated is coded as one that is read is (`TargetCode`). If an argument is
//! outside of the domain, the location is the stray one of the function, whose number follows those
//! of all its other locations.
use crate::code::{Code, CodeRange, Grid};
use std::sync::Arc;

/// What is updated.
#[derive(Drop)]
pub enum TargetCode {
    /// The location that the frame has at this position, if it has one there: that of `result`.
    ResultAt(usize),
    /// The location with this number.
    Cell(usize),
    /// A location of a controlled function, by the position of its argument in a universe: the
    /// stray one if it has no position.
    Row {
        first: usize,
        over: CodeRange,
        argument: Box<Code>,
    },
    /// The same by the positions of two arguments.
    Grid {
        place: Grid,
        row: Box<Code>,
        column: Box<Code>,
    },
    /// The location of any controlled function.
    FunctionAt {
        function: usize,
        arguments: Vec<Code>,
    },
}

/// A rule in which no name is left. A rule that is called stands with its body, which all its calls
/// share.
#[derive(Drop)]
pub enum RuleCode {
    Skip,
    Assign {
        place: TargetCode,
        value: Code,
    },
    Par(Vec<RuleCode>),
    Seq(Vec<RuleCode>),
    If {
        test: Code,
        yes: Box<RuleCode>,
        no: Box<RuleCode>,
    },
    /// The body, in which the value has position 0.
    Let {
        value: Code,
        body: Box<RuleCode>,
    },
    /// The body for each value of the universe for which the condition holds. The value has
    /// position 0 in both.
    Forall {
        over: usize,
        test: Option<Code>,
        body: Box<RuleCode>,
    },
    /// The body for one such value, or the other rule if there is none.
    Choose {
        over: usize,
        test: Option<Code>,
        body: Box<RuleCode>,
        none: Box<RuleCode>,
    },
    Iterate(Box<RuleCode>),
    /// The body, in which the arguments have positions in their order, by name: from 1 on after
    /// `result` if the call has a target, and else from 0 on.
    Call {
        body: Arc<RuleCode>,
        answer: Option<TargetCode>,
        arguments: Vec<Code>,
    },
}
