//! Uses of unknown names, with wrong numbers of arguments, or as targets that can't be assigned;
//! with them, misuses of `result`.
ghost use Rattle.std.specs.Prelude.{◌≡◌, map, flat_map};
ghost use Rattle.asm_syntax.specs.SourceTree as source;
ghost use Rattle.asm_check.specs.code.uses.RulesWithResult.{AreWithResult};
ghost use Rattle.asm_check.specs.Errors.{found_of};
ghost use Rattle.asm_check.specs.code.FaultLists.{use_faults, all_of_use, faults_of_use, faults_of_bound, miscounts};
ghost use Rattle.asm_check.specs.code.FaultLists as fault_lists;
ghost use Rattle.asm_check.specs.code.LeastFaults.{least_after};
ghost use Rattle.asm_check.specs.code.names.Tables.{IsTableOf};
ghost use Rattle.asm_check.specs.code.uses.UseViews.{use_of, role_of, AreUsesOf};

use crate::error::FaultKind;
use crate::least_fault::LeastFault;
use crate::names::first_names::meaning;
use crate::names::name_table::NameTable;
use crate::uses::declaration_uses::{Role, Use};
use crate::uses::roles::{arguments_of, is_assignable, is_known};
use crate::uses::rules_with_result::note_misuse;

/// Notes the faults of all uses, which are those of the items of the specification.
pub(crate) fn note_uses(
    names: &NameTable,
    with_result: &[bool],
    uses: &[Vec<Use>],
    least: &mut LeastFault,
)
    requires { AreWithResult names.now with_result.now }
    ensures { (spec : source.Spec) → IsTableOf spec names.now → AreUsesOf spec.items uses.now →
        found_of least.new.found ≡ least_after (found_of least.old.found) (use_faults spec) }
{
    for list in uses {
        note_each(names, with_result, list, least);
    }
}

/// Notes the faults of these uses.
fn note_each(names: &NameTable, with_result: &[bool], uses: &[Use], least: &mut LeastFault)
    requires { AreWithResult names.now with_result.now }
    ensures { (spec : source.Spec) → IsTableOf spec names.now →
        found_of least.new.found ≡ least_after (found_of least.old.found) (flat_map (all_of_use spec) (map use_of uses.now)) }
{
    for used in uses {
        note_use(names, *used, least);
        note_misuse(names, with_result, *used, least);
    }
}

/// Notes the fault of a use, if it has one of the first three. What is declared doesn't matter for
/// a bound name in a term.
fn note_use(names: &NameTable, used: Use, least: &mut LeastFault)
    ensures { (spec : source.Spec) → IsTableOf spec names.now →
        found_of least.new.found ≡ least_after (found_of least.old.found) (faults_of_use spec (use_of used.entry)) }
{
    match used.role {
        Role::InTerm if used.is_bound => note_arguments(used, least),
        _ => note_declared(names, used, least),
    }
}

/// Notes arguments of a bound name.
fn note_arguments(used: Use, least: &mut LeastFault)
    ensures { found_of least.new.found ≡ least_after (found_of least.old.found) (faults_of_bound (use_of used.entry)) }
{
    if is_miscounted(Some(0), used.count) {
        least.note(FaultKind::Arity, used.name.at);
    }
}

/// Notes the fault of a use of what is declared.
fn note_declared(names: &NameTable, used: Use, least: &mut LeastFault)
    ensures { (spec : source.Spec) → IsTableOf spec names.now →
        found_of least.new.found ≡ least_after (found_of least.old.found) (faults_of_use spec (use_of used.entry)) }
{
    let meaning = meaning(names, &used.name.text);
    let at = used.name.at;
    if !is_known(used.role, used.is_bound, meaning) {
        least.note(FaultKind::Unknown, at);
    } else if is_miscounted(arguments_of(used.role, used.is_bound, meaning), used.count) {
        least.note(FaultKind::Arity, at);
    } else if is_target(used.role) && !is_assignable(used.is_bound, meaning) {
        least.note(FaultKind::NotControlled, at);
    }
}

fn is_miscounted(arguments: Option<usize>, count: usize) -> bool
    ensures { result ≡ miscounts arguments count }
{
    arguments.is_some_and(|arguments| count != arguments)
}

fn is_target(role: Role) -> bool
    ensures { result ≡ fault_lists.is_target (role_of role) }
{
    matches!(role, Role::AsTarget)
}
