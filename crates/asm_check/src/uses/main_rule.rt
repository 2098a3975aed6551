//! The main rule.
ghost use Rattle.std.specs.Prelude.{◌≡◌, ◌||◌, cond, not, map, filter_map, option_map, [], ◌∷◌};
ghost use Rattle.std.specs.Option.{option_copied};
ghost use Rattle.asm_syntax.specs.SourceTree as source;
ghost use Rattle.asm_syntax.specs.code.Views.{spec_of, item_of, name_of};
ghost use Rattle.asm_check.specs.Errors.{found_of};
ghost use Rattle.asm_check.specs.Faults.{init_of};
ghost use Rattle.asm_check.specs.code.FaultLists.{init_faults};
ghost use Rattle.asm_check.specs.Names as meanings;
ghost use Rattle.asm_check.specs.Names.{declared};
ghost use Rattle.asm_check.specs.code.LeastFaults.{least_after};
ghost use Rattle.asm_check.specs.code.uses.MainRules.{main_rule_faults, is_any};
ghost use Rattle.asm_check.specs.code.names.Tables.{IsTableOf, declared_as_view};

use crate::error::FaultKind;
use crate::least_fault::LeastFault;
use crate::names::declared_as::DeclaredAs;
use crate::names::first_names::meaning;
use crate::names::name_table::NameTable;
use asm_syntax::name::Name;
use asm_syntax::spec::{Item, Spec};

/// Notes main rules that there can't be, or that none is named.
pub(crate) fn note_inits(spec: &Spec, names: &NameTable, least: &mut LeastFault)
    requires { IsTableOf (spec_of spec.now) names.now }
    ensures { found_of least.new.found ≡ least_after (found_of least.old.found) (init_faults (spec_of spec.now)) }
{
    if !note_main_rules(&spec.items, names, least) {
        least.note(FaultKind::Init, spec.length);
    }
}

/// Notes main rules that there can't be, and says whether one is named.
fn note_main_rules(items: &[Item], names: &NameTable, least: &mut LeastFault) -> bool
    ensures named { result ≡ is_any (filter_map init_of (map item_of items.now)) }
    ensures least { (spec : source.Spec) → IsTableOf spec names.now → found_of least.new.found ≡ least_after (found_of least.old.found) (main_rule_faults spec (filter_map init_of (map item_of items.now))) }
{
    let mut is_named = false;
    for item in items {
        if let Some(name) = init_name(item) {
            note_main_rule(name, is_named, names, least);
            is_named = true;
        }
    }
    is_named
}

/// The name after `init`.
fn init_name(item: &Item) -> Option<&Name>
    ensures { option_map name_of (option_copied result) ≡ init_of (item_of item.now) }
{
    match item {
        Item::Init(name) => Some(name),
        _ => None,
    }
}

/// Only the first `init` counts, and what it names must be a rule without parameters.
fn note_main_rule(name: &Name, is_named: bool, names: &NameTable, least: &mut LeastFault)
    ensures { (spec : source.Spec) → IsTableOf spec names.now → found_of least.new.found ≡ least_after (found_of least.old.found) (cond (is_named || not (meanings.can_be_main (declared spec name.now.text))) ((name.now.at, 14) ∷ []) []) }
{
    if is_named || !can_be_main(meaning(names, &name.text)) {
        least.note(FaultKind::Init, name.at);
    }
}

/// Whether it is a rule without parameters.
fn can_be_main(meaning: Option<DeclaredAs>) -> bool
    ensures { result ≡ meanings.can_be_main (option_map declared_as_view meaning.entry) }
{
    match meaning {
        Some(DeclaredAs::Rule(body)) => body.parameters.is_empty(),
        _ => false,
    }
}
