//! The codes of conditions.
ghost use Rattle.std.specs.Prelude.{IfOk};
ghost use Rattle.asm_explore.specs.code.ResolvedConditions.{IsCondition};

use asm_check::Checked;
use asm_code::code::Code;
use asm_resolve::bodies::Bodies;
use asm_resolve::resolve::resolve;
use asm_resolve::scope::Scope;
use asm_syntax::term::Term;
use std::alloc::{AllocError, Global};

/// The code of a condition in which no name is bound.
pub fn condition_code(
    alloc: Global,
    checked: &Checked,
    term: &Option<Term>,
) -> Result<Option<Code>, AllocError>
    ensures { IfOk result (IsCondition checked.now term.now) }
{
    let Some(term) = term else {
        return Ok(None);
    };
    let mut known = Bodies::new(alloc, checked)?;
    let code = resolve(alloc, checked, &mut known.terms, &Scope::Empty, term)?;
    Ok(Some(code))
}
