//! The code of the rule that a specification starts with.
ghost use Rattle.std.specs.Prelude.{[], IfOk};
ghost use Rattle.asm_syntax.specs.code.Views.{spec_of};
ghost use Rattle.asm_check.specs.Faults.{inits};
ghost use Rattle.asm_meaning.specs.Declarations.{main_rule};
ghost use Rattle.asm_code.specs.code.RuleViews.{rule_of};
ghost use Rattle.asm_resolve.specs.code.RuleScopes.{resolved_rule_in};

use crate::bodies::Bodies;
use crate::resolve_rule::resolve_rule;
use crate::scope::Scope;
use crate::used::resolve_used;
use asm_check::Checked;
use asm_code::rule_code::RuleCode;
use std::alloc::{AllocError, Global};

/// The code of the rule that a specification starts with.
pub fn resolve_main(alloc: Global, checked: &Checked) -> Result<RuleCode, AllocError>
    ensures { let s = spec_of checked.now.spec in
        IfOk result (λ c. resolved_rule_in s [] (main_rule s (inits s)) (rule_of c)) }
{
    let (_parameters, main) = checked.rule(checked.main());
    let mut known = Bodies::new(alloc, checked)?;
    resolve_used(alloc, checked, &mut known, main)?;
    resolve_rule(alloc, checked, &mut known, &Scope::Empty, main)
}
