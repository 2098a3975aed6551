//! What is wrong with the uses of names in a term that is asked of a specification without faults.
//!
//! What names stand for is taken from the numbers that the specification's names have, so nothing
//! of the specification is looked through again.
ghost use Rattle.std.specs.Prelude.{◌≡◌, ◌<◌, Some, None, false, cond, option_map, map, flat_map, length, IfOk};
ghost use Rattle.asm_syntax.specs.code.Views.{spec_of, term_of};
ghost use Rattle.asm_check.specs.Errors.{found_of, number_of};
ghost use Rattle.asm_check.specs.Names as names;
ghost use Rattle.asm_check.specs.Names.{declared};
ghost use Rattle.asm_check.specs.Numbers.{functions_of, derived_of, declared_with_number};
ghost use Rattle.asm_check.specs.TermFaults.{IsTermFault};
ghost use Rattle.asm_check.specs.code.LeastFaults.{IsLeastOf, least_after};
ghost use Rattle.asm_check.specs.code.numbers.NumberTables.{IsInRange};
ghost use Rattle.asm_check.specs.code.uses.TermFaultLists.{arity_of, arguments_by, universe_by, wrong_count, wrong_in, at_offset, faults_in_term};
ghost use Rattle.asm_check.specs.code.uses.UseViews.{use_of, role_of};

use crate::checked::{Checked, NameNumber};
use crate::error::{CheckError, FaultKind};
use crate::least_fault::LeastFault;
use crate::uses::declaration_uses::{Role, Use, uses_of_body};
use asm_syntax::name::Text;
use asm_syntax::term::Term;
use std::alloc::{AllocError, Global};

/// The least fault of a term, in which no name is bound from outside.
pub(crate) fn least_term_fault(
    alloc: Global,
    checked: &Checked,
    term: &Term,
) -> Result<Option<CheckError>, AllocError>
    ensures { IfOk result (λ found. IsLeastOf (IsTermFault (spec_of checked.now.spec) (term_of term.now)) (found_of found)) }
{
    let uses = uses_of_body(alloc, &[], term)?;
    Ok(least_of_uses(checked, uses.as_slice()))
}

/// The least fault of these uses, which stand in a term.
fn least_of_uses(checked: &Checked, uses: &[Use]) -> Option<CheckError>
    ensures { found_of result ≡ least_after None (flat_map (faults_in_term (spec_of checked.now.spec)) (map use_of uses.now)) }
{
    let mut least = LeastFault::new();
    note_uses_in_term(checked, uses, &mut least);
    least.found
}

/// Notes the faults of these uses.
fn note_uses_in_term(checked: &Checked, uses: &[Use], least: &mut LeastFault)
    ensures { found_of least.new.found ≡ least_after (found_of least.old.found) (flat_map (faults_in_term (spec_of checked.now.spec)) (map use_of uses.now)) }
{
    for used in uses {
        note_use_in_term(checked, *used, least);
    }
}

/// Notes the fault of a use, if it has one.
fn note_use_in_term(checked: &Checked, used: Use, least: &mut LeastFault)
    ensures { found_of least.new.found ≡ least_after (found_of least.old.found) (faults_in_term (spec_of checked.now.spec) (use_of used.entry)) }
{
    note_fault(fault_in_role(checked, used.role, used), used.name.at, least);
}

/// Notes this fault, if there is one, at this offset.
fn note_fault(fault: Option<FaultKind>, at: usize, least: &mut LeastFault)
    ensures { found_of least.new.found ≡ least_after (found_of least.old.found) (at_offset at (option_map number_of fault)) }
{
    match fault {
        Some(kind) => least.note(kind, at),
        None => {}
    }
}

/// What is wrong with a use that has this role, if anything is.
fn fault_in_role(checked: &Checked, role: Role, used: Use) -> Option<FaultKind>
    ensures { option_map number_of result ≡ wrong_in (role_of role) used.entry.is_bound used.entry.count (declared (spec_of checked.now.spec) used.entry.name.now.text) }
{
    match role {
        Role::InTerm => {
            fault_of_count(
                arguments_in_term(checked, &used.name.text, used.is_bound),
                used.count,
            )
        }
        Role::AsUniverse => fault_of_universe(checked, &used.name.text),
        Role::AsResult => fault_of_result(used.is_bound),
        Role::AsTarget | Role::AsRule | Role::AsResultCall | Role::AsCodomain | Role::AsElement =>
            None,
    }
}

/// What is wrong with so many arguments, if anything is.
fn fault_of_count(arguments: Option<usize>, count: usize) -> Option<FaultKind>
    ensures { option_map number_of result ≡ wrong_count arguments count }
{
    match arguments {
        None => Some(FaultKind::Unknown),
        Some(arguments) => fault_unless(count == arguments, FaultKind::Arity),
    }
}

/// What is wrong with a name that is to be a universe, if anything is.
fn fault_of_universe(checked: &Checked, name: &Text) -> Option<FaultKind>
    ensures { option_map number_of result ≡ cond (names.is_known names.AsUniverse false (declared (spec_of checked.now.spec) name.now)) None (Some 9) }
{
    fault_unless(is_universe(checked, name), FaultKind::Unknown)
}

/// What is wrong with the word `result`, if anything is.
fn fault_of_result(is_bound: bool) -> Option<FaultKind>
    ensures { option_map number_of result ≡ cond is_bound None (Some 17) }
{
    fault_unless(is_bound, FaultKind::ResultUse)
}

/// This fault, unless all is right.
fn fault_unless(is_right: bool, kind: FaultKind) -> Option<FaultKind>
    ensures { option_map number_of result ≡ cond is_right None (Some (number_of kind)) }
{
    if is_right { None } else { Some(kind) }
}

/// How many arguments a name has where it is used in a term, if it can stand there.
fn arguments_in_term(checked: &Checked, name: &Text, is_bound: bool) -> Option<usize>
    ensures { result ≡ names.arguments_of names.InTerm is_bound (declared (spec_of checked.now.spec) name.now) }
{
    if is_bound {
        Some(0)
    } else {
        arguments_of(checked, name)
    }
}

/// The same of a name that isn't bound.
fn arguments_of(checked: &Checked, name: &Text) -> Option<usize>
    ensures { result ≡ names.arguments_of names.InTerm false (declared (spec_of checked.now.spec) name.now) }
{
    arguments_numbered(checked, checked.named_text(name))
}

/// The same by what the name stands for.
fn arguments_numbered(checked: &Checked, number: Option<NameNumber>) -> Option<usize>
    requires { IsInRange (spec_of checked.now.spec) number }
    ensures { result ≡ arguments_by (spec_of checked.now.spec) number }
{
    match number {
        Some(NameNumber::Element(_)) => Some(0),
        Some(NameNumber::Function(f)) => Some(function_arity(checked, f)),
        Some(NameNumber::Derived(d)) => Some(derived_arity(checked, d)),
        Some(NameNumber::Universe(_) | NameNumber::Rule(_)) | None => None,
    }
}

/// How many arguments the controlled or static function with this number has.
fn function_arity(checked: &Checked, f: usize) -> usize
    requires { f < length (functions_of (spec_of checked.now.spec)) }
    ensures { option_map arity_of (declared_with_number (functions_of (spec_of checked.now.spec)) f) ≡ Some result }
{
    checked.signature().function(f).domain.as_slice().len()
}

/// How many parameters the derived function with this number has.
fn derived_arity(checked: &Checked, d: usize) -> usize
    requires { d < length (derived_of (spec_of checked.now.spec)) }
    ensures { option_map arity_of (declared_with_number (derived_of (spec_of checked.now.spec)) d) ≡ Some result }
{
    checked.derived(d).0.len()
}

/// Whether a name stands for a universe.
fn is_universe(checked: &Checked, name: &Text) -> bool
    ensures { result ≡ names.is_known names.AsUniverse false (declared (spec_of checked.now.spec) name.now) }
{
    is_universe_number(checked.named_text(name))
}

/// Whether this is the number of a universe.
fn is_universe_number(number: Option<NameNumber>) -> bool
    ensures { result ≡ universe_by number }
{
    matches!(number, Some(NameNumber::Universe(_)))
}
