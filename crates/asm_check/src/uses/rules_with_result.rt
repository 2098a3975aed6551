//! Rules with a result: those in whose bodies the word `result` is.
ghost use Rattle.std.specs.Prelude.{◌≡◌};
ghost use Rattle.std.specs.List.{list_any};
ghost use Rattle.asm_syntax.specs.SourceTree as source;
ghost use Rattle.asm_syntax.specs.code.Views.{spec_of, item_of};
ghost use Rattle.asm_check.specs.code.uses.RulesWithResult.{AreWithResult};
ghost use Rattle.asm_check.specs.Errors.{found_of};
ghost use Rattle.asm_check.specs.code.FaultLists.{misuse, main_rule_with_result, main_rules_with_result};
ghost use Rattle.asm_check.specs.code.FaultLists as fault_lists;
ghost use Rattle.asm_check.specs.Names.{declared};
ghost use Rattle.asm_check.specs.Names as meanings;
ghost use Rattle.asm_check.specs.code.LeastFaults.{least_after};
ghost use Rattle.asm_check.specs.code.names.Tables.{IsTableOf};
ghost use Rattle.asm_check.specs.code.uses.UseViews.{use_of, role_of};

use crate::error::FaultKind;
use crate::least_fault::LeastFault;
use crate::names::first_names::position;
use crate::names::name_table::NameTable;
use crate::uses::declaration_uses::{Role, Use};
use asm_syntax::name::Text;
use asm_syntax::spec::{Item, Spec};

/// Whether the word `result` is among these uses.
pub(crate) fn has_result(uses: &[Use]) -> bool
    ensures { result ≡ list_any (λ u. meanings.is_result (role_of u.role)) uses.now }
{
    uses.iter().any(|used| is_result(used.role))
}

fn is_result(role: Role) -> bool
    ensures { result ≡ meanings.is_result (role_of role) }
{
    matches!(role, Role::AsResult)
}

/// Whether the name is declared as a rule with a result.
fn has_result_in_body(names: &NameTable, with_result: &[bool], name: &Text) -> bool
    requires { AreWithResult names.now with_result.now }
    ensures { (spec : source.Spec) → IsTableOf spec names.now → result ≡ meanings.has_result_in_body (declared spec name.now) }
{
    match position(names, name) {
        Some(i) => with_result[i],
        None => false,
    }
}

/// Notes a `result` outside of a rule, or a rule with a result that is called without a target.
pub(crate) fn note_misuse(
    names: &NameTable,
    with_result: &[bool],
    used: Use,
    least: &mut LeastFault,
)
    requires { AreWithResult names.now with_result.now }
    ensures { (spec : source.Spec) → IsTableOf spec names.now →
        found_of least.new.found ≡ least_after (found_of least.old.found) (misuse spec (use_of used.entry)) }
{
    if is_misused(names, with_result, used) {
        least.note(FaultKind::ResultUse, used.name.at);
    }
}

fn is_misused(names: &NameTable, with_result: &[bool], used: Use) -> bool
    requires { AreWithResult names.now with_result.now }
    ensures { (spec : source.Spec) → IsTableOf spec names.now → result ≡ fault_lists.is_misused spec (use_of used.entry) }
{
    match used.role {
        Role::AsResult => !used.is_bound,
        Role::AsRule => has_result_in_body(names, with_result, &used.name.text),
        _ => false,
    }
}

/// Notes each main rule with a result.
pub(crate) fn note_main_rules_with_result(
    spec: &Spec,
    names: &NameTable,
    with_result: &[bool],
    least: &mut LeastFault,
)
    requires table { IsTableOf (spec_of spec.now) names.now }
    requires answering { AreWithResult names.now with_result.now }
    ensures { found_of least.new.found ≡ least_after (found_of least.old.found) (main_rules_with_result (spec_of spec.now)) }
{
    for item in &spec.items {
        note_main_rule_with_result(names, with_result, item, least);
    }
}

/// Notes the rule after `init`, if it has a result.
fn note_main_rule_with_result(
    names: &NameTable,
    with_result: &[bool],
    item: &Item,
    least: &mut LeastFault,
)
    requires { AreWithResult names.now with_result.now }
    ensures { (spec : source.Spec) → IsTableOf spec names.now →
        found_of least.new.found ≡ least_after (found_of least.old.found) (main_rule_with_result spec (item_of item.now)) }
{
    if let Item::Init(name) = item
        && has_result_in_body(names, with_result, &name.text)
    {
        least.note(FaultKind::ResultUse, name.at);
    }
}
