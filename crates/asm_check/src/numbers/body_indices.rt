//! Where the bodies of rules and derived functions are.
ghost use Rattle.std.specs.Prelude.{IfOk, map};
ghost use Rattle.asm_syntax.specs.code.Views.{item_of};
ghost use Rattle.asm_check.specs.code.numbers.NumberTables.{AreBodiesOf};

use asm_syntax::spec::Item;
use std::alloc::{AllocError, Global};

/// By number, where a rule or a derived function is among the items.
#[derive(Drop)]
pub(crate) struct BodyIndices {
    pub rules: Vec<usize>,
    pub derived: Vec<usize>,
}

impl BodyIndices {
    pub(crate) fn of(alloc: Global, items: &[Item]) -> Result<BodyIndices, AllocError>
        ensures { IfOk result (AreBodiesOf (map item_of items.now)) }
    {
        let mut rules = Vec::new(alloc);
        let mut derived = Vec::new(alloc);
        for (k, item) in items.iter().enumerate() {
            match item {
                Item::Rule { .. } => rules.push(k)?,
                Item::Derived { .. } => derived.push(k)?,
                _ => {}
            }
        }
        Ok(BodyIndices { rules, derived })
    }
}
