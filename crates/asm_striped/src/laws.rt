//! Law. What the rule of the table says, and laws of logs.
ghost use Rattle.asm_striped.specs.code.LogLaws.{LogLaws};

use crate::board::{Board, Known, TableSize};
use atomic_table::TableRule;

/// A rule of a table under which, between any two atomic steps, the words and the shares are
/// functions of the logs of all seats: the low word of a location is the least low at it, the high
/// word the greatest high, and a put that is half done counts with its low and not with its high.
/// Making, both steps of a put, split and join keep the rule.
pub trait ShowsLogs: TableRule<(), Known, TableSize> {
    ghost use Rattle.asm_striped.specs.code.BoardLaws.{RuleLaws};

    fn rule_laws()
        ensures { RuleLaws Self.holds };
}

/// The rule of a `Striped` is such a rule.
impl ShowsLogs for Board {
    fn rule_laws() {}
}

/// No code is a word of a location where nothing was put. The codes in a log are those of one list
/// of values, logs one after another have the values of both, and the summary of a log is that of
/// its values.
pub fn log_laws()
    ensures { LogLaws }
{}
