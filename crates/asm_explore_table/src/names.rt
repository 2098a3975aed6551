//! Names of locations that are to be shown.
ghost use Rattle.std.specs.Prelude.{◌≡◌, All, true, IfNone, IfOk, IfSome};
ghost use Rattle.asm_syntax.specs.code.Views.{spec_of};
ghost use Rattle.asm_explore_table.specs.Tables.{IsFirstUnknown, is_known as is_known_name};
ghost use Rattle.asm_explore_table.specs.code.StepsMade.{names_said};

pub use crate::columns::is_named;
use asm_check::Checked;
use std::alloc::{AllocError, Global};

/// Whether a location has this name, or its function.
fn is_known(alloc: Global, checked: &Checked, name: &str) -> Result<bool, AllocError>
    ensures { let s = spec_of checked.now.spec in IfOk result (λ known. known ≡ is_known_name s name.now) }
{
    for n in 0..checked.signature().count() {
        let location = checked.signature().location(alloc, n)?;
        if is_named(alloc, checked, &[name], &location)? {
            return Ok(true);
        }
    }
    Ok(false)
}

/// The first of these names that no location has, nor the function of one.
pub fn unknown_name<'w>(
    alloc: Global,
    checked: &Checked,
    names: &[&'w str],
) -> Result<Option<&'w str>, AllocError>
    ensures some { let s = spec_of checked.now.spec in
        IfOk result (λ found. IfSome found (λ name. IsFirstUnknown s (names_said names.now) name.now)) }
    ensures none { let s = spec_of checked.now.spec in
        IfOk result (λ found. IfNone found (All (λ name. is_known_name s name ≡ true) (names_said names.now))) }
{
    for k in 0..names.len() {
        if !is_known(alloc, checked, names[k])? {
            return Ok(Some(names[k]));
        }
    }
    Ok(None)
}
