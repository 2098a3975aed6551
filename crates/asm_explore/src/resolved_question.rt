//! A resolved specification, and what is looked for in it.
ghost use Rattle.std.specs.Prelude.{◌<◌, ◌^◌};

use asm_check::Checked;
use asm_code::code::Code;
use asm_code::rule_code::RuleCode;

/// What is looked for in a checked specification, whose main rule is resolved.
#[derive(Clone, Copy)]
pub struct ResolvedQuestion<'a> {
    pub checked: &'a Checked,
    /// The code of the main rule.
    pub code: &'a RuleCode,
    pub turns: u32,
    /// How many outcomes may be listed at once.
    pub limit: usize,
    /// What is to hold in each state.
    pub always: &'a Option<Code>,
    /// From which states runs are followed.
    pub within: &'a Option<Code>,
    /// What is to hold in each quiet state.
    pub when_quiet: &'a Option<Code>,
    pub ghost turns_in_range: { turns < 2 ^ 32 },
}
