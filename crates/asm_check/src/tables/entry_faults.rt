//! Entries of tables.
ghost use Rattle.std.specs.Prelude.{◌≡◌, ◌&&◌, ◌||◌, not, List, [], ◌∷◌, ◌++◌, flat_map, map, option_map, IfOk, OnOk};
ghost use Rattle.std.specs.List.{list_all, list_any};
ghost use Rattle.asm_syntax.specs.SourceTree as source;
ghost use Rattle.asm_syntax.specs.code.Views.{spec_of, item_of, name_of, const_of, entry_of};
ghost use Rattle.asm_check.specs.code.tables.EntryArguments.{HasSeen, fits_in, key, key_of};
ghost use Rattle.asm_check.specs.Errors.{found_of};
ghost use Rattle.asm_check.specs.code.FaultLists.{bad_entries, entry_faults};
ghost use Rattle.asm_check.specs.Faults.{table_of, same_arguments, is_known_use, is_in_universe as is_inside};
ghost use Rattle.asm_check.specs.Names.{declared, uses_of_const, uses_of_entry};
ghost use Rattle.asm_check.specs.code.LeastFaults.{least_after};
ghost use Rattle.asm_check.specs.code.names.Tables.{IsTableOf, declared_as_view};

use crate::error::FaultKind;
use crate::least_fault::LeastFault;
use crate::names::declared_as::DeclaredAs;
use crate::names::first_names::meaning;
use crate::names::name_table::NameTable;
use asm_syntax::name::Name;
use asm_syntax::spec::{Const, Entry, Given, Item, Spec};
use asm_syntax::term::Literal;
use std::alloc::{AllocError, Global};
use std::collections::BTreeSet;

/// Notes the entries of tables that aren't in the domain of their function, or are there twice.
pub(crate) fn note_entries(
    alloc: Global,
    spec: &Spec,
    names: &NameTable,
    least: &mut LeastFault,
) -> Result<(), AllocError>
    requires { IsTableOf (spec_of spec.now) names.now }
    ensures { OnOk result (found_of least.new.found ≡ least_after (found_of least.old.found) (entry_faults (spec_of spec.now))) }
{
    for item in &spec.items {
        note_item(alloc, names, item, least)?;
    }
    Ok(())
}

fn note_item(
    alloc: Global,
    names: &NameTable,
    item: &Item,
    least: &mut LeastFault,
) -> Result<(), AllocError>
    ensures { (spec : source.Spec) → IsTableOf spec names.now → OnOk result (found_of least.new.found
        ≡ least_after (found_of least.old.found) (flat_map (λ t. bad_entries spec t.0 [] t.1) (table_of (item_of item.now)))) }
{
    match item {
        Item::Function {
            domain,
            table: Some(Given::Entries(entries)),
            ..
        } => note_table(alloc, names, domain, entries, least),
        _ => Ok(()),
    }
}

/// Notes the bad entries of one table.
fn note_table(
    alloc: Global,
    names: &NameTable,
    domain: &[Name],
    entries: &[Entry],
    least: &mut LeastFault,
) -> Result<(), AllocError>
    ensures { (spec : source.Spec) → IsTableOf spec names.now → OnOk result (found_of least.new.found
        ≡ least_after (found_of least.old.found) (bad_entries spec (map name_of domain.now) [] (map entry_of entries.now))) }
{
    // Looked up once for the table, since their names can be long and the entries many.
    let universes = universes_of(alloc, names, domain)?;
    let mut seen = BTreeSet::new(alloc);
    for entry in entries {
        let is_repeated = put_arguments(alloc, &mut seen, entry)?;
        if is_bad(names, &universes, entry, is_repeated) {
            least.note(FaultKind::TableEntry, entry.at);
        }
    }
    Ok(())
}

/// Whether all names in an entry are known, but it isn't in the domain, or its
/// arguments are in an entry before.
fn is_bad(
    names: &NameTable,
    universes: &[Option<DeclaredAs>],
    entry: &Entry,
    is_repeated: bool,
) -> bool
    ensures { (spec : source.Spec) → IsTableOf spec names.now → result ≡ (list_all (is_known_use spec) (uses_of_entry (entry_of entry.now))
        && (not (fits_in spec (map (option_map declared_as_view) universes.now) (map const_of entry.now.arguments.items)) || is_repeated)) }
{
    let is_good = !is_repeated && fits(names, universes, &entry.arguments);
    !is_good && is_known(names, entry)
}

/// Puts the arguments of an entry with those before it, and returns whether they are there already.
fn put_arguments<'a>(
    alloc: Global,
    seen: &mut BTreeSet<Vec<Argument<'a>>>,
    entry: &'a Entry,
) -> Result<bool, AllocError>
    ensures repeated { (before : List source.Entry) → HasSeen before seen.old.keys → IfOk result (λ is_repeated. is_repeated
        ≡ list_any (λ e. same_arguments e.arguments (map const_of entry.now.arguments.items)) before) }
    ensures seen { (before : List source.Entry) → HasSeen before seen.old.keys → OnOk result (HasSeen (before ++ entry_of entry.now ∷ []) seen.new.keys) }
{
    let arguments = arguments_of(alloc, &entry.arguments)?;
    let is_new = seen.insert(arguments)?;
    Ok(!is_new)
}

/// What the universes of a domain are declared as.
fn universes_of<'a>(
    alloc: Global,
    names: &NameTable<'a>,
    domain: &[Name],
) -> Result<Vec<Option<DeclaredAs<'a>>>, AllocError>
    ensures { (spec : source.Spec) → IsTableOf spec names.now → IfOk result (λ universes. map (option_map declared_as_view) universes.items
        ≡ map (λ u. declared spec u.text) (map name_of domain.now)) }
{
    let mut universes = Vec::with_capacity(alloc, domain.len())?;
    for name in domain {
        universes.push(meaning(names, &name.text))?;
    }
    Ok(universes)
}

/// Whether each name in an entry is an element's.
fn is_known(names: &NameTable, entry: &Entry) -> bool
    ensures { (spec : source.Spec) → IsTableOf spec names.now → result ≡ list_all (is_known_use spec) (uses_of_entry (entry_of entry.now)) }
{
    for argument in &entry.arguments {
        if !is_known_constant(names, argument) {
            return false;
        }
    }
    is_known_constant(names, &entry.value)
}

fn is_known_constant(names: &NameTable, constant: &Const) -> bool
    ensures { (spec : source.Spec) → IsTableOf spec names.now → result ≡ list_all (is_known_use spec) (uses_of_const (const_of constant.now)) }
{
    match constant {
        Const::Plain(_) => true,
        Const::Element(name) => matches!(meaning(names, &name.text), Some(DeclaredAs::Element(_))),
    }
}

/// Whether there are as many arguments as universes, each in its own.
fn fits(names: &NameTable, universes: &[Option<DeclaredAs>], arguments: &[Const]) -> bool
    ensures { (spec : source.Spec) → IsTableOf spec names.now → result ≡ fits_in spec (map (option_map declared_as_view) universes.now) (map const_of arguments.now) }
{
    if universes.len() != arguments.len() {
        return false;
    }
    for (i, argument) in arguments.iter().enumerate() {
        if !is_in_universe(names, universes[i], argument) {
            return false;
        }
    }
    true
}

fn is_in_universe(names: &NameTable, universe: Option<DeclaredAs>, constant: &Const) -> bool
    ensures { (spec : source.Spec) → IsTableOf spec names.now → result ≡ is_inside spec (option_map declared_as_view universe.entry) (const_of constant.now) }
{
    match constant {
        Const::Plain(Literal::Number(n)) => match universe {
            Some(DeclaredAs::Range { first, last }) => {
                first.value <= n.value && n.value <= last.value
            }
            _ => false,
        },
        Const::Plain(_) => false,
        Const::Element(name) => match (universe, meaning(names, &name.text)) {
            (Some(DeclaredAs::Enumeration(k)), Some(DeclaredAs::Element(j))) => j == k,
            _ => false,
        },
    }
}

/// An argument, to be compared with those of other entries.
#[derive(Clone, Copy, PartialEq, Eq, PartialOrd, Ord)]
enum Argument<'a> {
    Undef,
    Truth(bool),
    Number(i64),
    Element(&'a [u8]),
}

fn arguments_of<'a>(alloc: Global, constants: &'a [Const]) -> Result<Vec<Argument<'a>>, AllocError>
    ensures { IfOk result (λ arguments. map key_of arguments.items ≡ map key (map const_of constants.now)) }
{
    let mut arguments = Vec::with_capacity(alloc, constants.len())?;
    for constant in constants {
        arguments.push(argument_of(constant))?;
    }
    Ok(arguments)
}

fn argument_of<'a>(constant: &'a Const) -> Argument<'a>
    ensures { key_of result ≡ key (const_of constant.now) }
{
    match constant {
        Const::Plain(Literal::Undef) => Argument::Undef,
        Const::Plain(Literal::Truth(b)) => Argument::Truth(*b),
        Const::Plain(Literal::Number(n)) => Argument::Number(n.value),
        Const::Element(name) => Argument::Element(name.text.as_bytes()),
    }
}
