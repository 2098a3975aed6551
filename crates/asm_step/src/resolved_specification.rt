//! A resolved specification: what is run.
ghost use Rattle.std.specs.Prelude.{◌<◌, ◌^◌};

use asm_check::Checked;
use asm_code::rule_code::RuleCode;

/// A specification with the code of its main rule, and the limit of turns.
#[derive(Clone, Copy)]
pub struct ResolvedSpecification<'a> {
    pub checked: &'a Checked,
    pub code: &'a RuleCode,
    pub turns: u32,
    pub ghost turns_in_range: { turns < 2 ^ 32 },
}
