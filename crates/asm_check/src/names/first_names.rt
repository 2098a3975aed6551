//! The table of declared names.
ghost use Rattle.std.specs.Prelude.{◌≡◌, ◌<◌, IfOk, OnOk, IfSome, IfNone, None, length, option_map, [], ◌∷◌, map};
ghost use Rattle.asm_syntax.specs.code.Views.{spec_of, item_of, name_of};
ghost use Rattle.asm_check.specs.Errors.{found_of};
ghost use Rattle.asm_check.specs.code.FaultLists.{twice_faults, repeats, at_with};
ghost use Rattle.asm_check.specs.Faults.{parameters_of};
ghost use Rattle.asm_check.specs.code.LeastFaults.{least_after};
ghost use Rattle.asm_check.specs.code.names.Tables.{IsTableOf, declared_as_view, text_at, declaration_of};
ghost use Rattle.asm_check.specs.code.names.Gathering.{Gathers, predeclares, parameter_faults};
ghost use Rattle.asm_check.specs.code.uses.UseViews.{use_of, AreUsesOf};
ghost use Rattle.asm_check.specs.Names as meanings;
ghost use Rattle.asm_check.specs.Names.{declared, declares, predeclared, declarations_of, declarations_from, uses_of, Element};
ghost use Rattle.asm_syntax.specs.SourceTree as source;

use crate::error::FaultKind;
use crate::least_fault::LeastFault;
use crate::names::declared_as::{Declaration, DeclaredAs};
use crate::names::declared_bodies::{DerivedBody, RuleBody};
use crate::names::name_hash::declared_names;
use crate::names::name_table::NameTable;
use crate::uses::declaration_uses::Use;
use asm_state::function::FunctionKind;
use asm_syntax::name::{Name, Text};
use asm_syntax::spec::{Item, Spec};
use std::alloc::{AllocError, Global};
use std::collections::BTreeSet;

/// The table of a specification. Names that are declared twice are noted.
pub(crate) fn first_names<'a>(
    alloc: Global,
    spec: &'a Spec,
    uses: &'a [Vec<Use<'a>>],
    least: &mut LeastFault,
) -> Result<NameTable<'a>, AllocError>
    requires { AreUsesOf (spec_of spec.now).items uses.now }
    ensures table { IfOk result (λ names. IsTableOf (spec_of spec.now) names) }
    ensures least { OnOk result (found_of least.new.found ≡ least_after (found_of least.old.found) (twice_faults (spec_of spec.now))) }
{
    let declared = declared_names(spec);
    let mut names = NameTable::new(alloc, declared.key, declared.count)?;
    predeclare_all(&mut names, least)?;
    declare_items(&mut names, &spec.items, uses, least)?;
    note_parameters(alloc, &spec.items, least)?;
    Ok(names)
}

/// The names that are declared before any text. They have no offset of their own.
fn predeclare_all(names: &mut NameTable, least: &mut LeastFault) -> Result<(), AllocError>
    ensures { OnOk result (Gathers predeclared names.old (found_of least.old.found) names.new (found_of least.new.found)) }
{
    predeclare(names, "NUMBER", least)?;
    predeclare(names, "BOOLEAN", least)?;
    predeclare(names, "ANY", least)
}

fn predeclare(
    names: &mut NameTable,
    name: &'static str,
    least: &mut LeastFault,
) -> Result<(), AllocError>
    ensures { OnOk result (Gathers (predeclares name.entry.now ∷ []) names.old (found_of least.old.found) names.new (found_of least.new.found)) }
{
    let declared = Declaration {
        at: 0,
        meaning: DeclaredAs::Predeclared,
    };
    declare(names, name.as_bytes(), declared, least)
}

/// The declarations of the items, in their order.
fn declare_items<'a>(
    names: &mut NameTable<'a>,
    items: &'a [Item],
    uses: &'a [Vec<Use<'a>>],
    least: &mut LeastFault,
) -> Result<(), AllocError>
    requires { AreUsesOf (map item_of items.now) uses.now }
    ensures { OnOk result (Gathers (declarations_from 0 (map item_of items.now)) names.old (found_of least.old.found) names.new (found_of least.new.found)) }
{
    for (k, item) in items.iter().enumerate() {
        declare_item(names, item, &uses[k], k, least)?;
    }
    Ok(())
}

/// What the item with this index declares, in which these are the uses.
fn declare_item<'a>(
    names: &mut NameTable<'a>,
    item: &'a Item,
    uses: &'a [Use<'a>],
    k: usize,
    least: &mut LeastFault,
) -> Result<(), AllocError>
    requires { map use_of uses.now ≡ uses_of (item_of item.now) }
    ensures { OnOk result (Gathers (declarations_of k (item_of item.now)) names.old (found_of least.old.found) names.new (found_of least.new.found)) }
{
    match item {
        Item::Uses(_) | Item::Init(_) => Ok(()),
        Item::Enum { name, elements } => {
            declare_name(names, name, DeclaredAs::Enumeration(k), least)?;
            declare_elements(names, elements, k, least)
        }
        Item::Universe { name, first, last } => {
            let range = DeclaredAs::Range {
                first: *first,
                last: *last,
            };
            declare_name(names, name, range, least)
        }
        Item::Function {
            name,
            kind,
            domain,
            ..
        } => declare_name(names, name, function_of(*kind, domain), least),
        Item::Derived {
            name,
            parameters,
            body,
        } => {
            let body = DerivedBody {
                parameters,
                term: body,
                uses,
            };
            declare_name(names, name, DeclaredAs::Derived(body), least)
        }
        Item::Rule {
            name,
            parameters,
            body,
        } => {
            let body = RuleBody {
                parameters,
                rule: body,
                uses,
            };
            declare_name(names, name, DeclaredAs::Rule(body), least)
        }
    }
}

/// A function of this kind.
fn function_of<'a>(kind: FunctionKind, domain: &'a [Name]) -> DeclaredAs<'a>
    ensures { declared_as_view result ≡ meanings.function_of kind (map name_of domain.now) }
{
    match kind {
        FunctionKind::Controlled => DeclaredAs::Controlled(domain),
        FunctionKind::Static => DeclaredAs::Static(domain),
    }
}

/// The elements of the enumeration that is the item with this index.
fn declare_elements<'a>(
    names: &mut NameTable<'a>,
    elements: &'a [Name],
    k: usize,
    least: &mut LeastFault,
) -> Result<(), AllocError>
    ensures { OnOk result (Gathers (map (λ y. declares y (Element k)) (map name_of elements.now)) names.old (found_of least.old.found) names.new (found_of least.new.found)) }
{
    for element in elements {
        declare_name(names, element, DeclaredAs::Element(k), least)?;
    }
    Ok(())
}

fn declare_name<'a>(
    names: &mut NameTable<'a>,
    name: &'a Name,
    meaning: DeclaredAs<'a>,
    least: &mut LeastFault,
) -> Result<(), AllocError>
    ensures { OnOk result (Gathers (declares (name_of name.now) (declared_as_view meaning.entry) ∷ []) names.old (found_of least.old.found) names.new (found_of least.new.found)) }
{
    let declared = Declaration {
        at: name.at,
        meaning,
    };
    names.expect(&name.text);
    declare(names, name.text.as_bytes(), declared, least)
}

/// One more declaration.
fn declare<'a>(
    names: &mut NameTable<'a>,
    text: &'a [u8],
    declared: Declaration<'a>,
    least: &mut LeastFault,
) -> Result<(), AllocError>
    ensures { OnOk result (Gathers (declaration_of (text.entry, declared.entry) ∷ []) names.old (found_of least.old.found) names.new (found_of least.new.found)) }
{
    if !names.put(text, declared)? {
        least.note(FaultKind::Twice, declared.at);
    }
    Ok(())
}

/// Parameters that are named twice in one list.
fn note_parameters(alloc: Global, items: &[Item], least: &mut LeastFault) -> Result<(), AllocError>
    ensures { OnOk result (found_of least.new.found ≡ least_after (found_of least.old.found) (parameter_faults (map item_of items.now))) }
{
    for item in items {
        note_repeats(alloc, parameters(item), least)?;
    }
    Ok(())
}

/// The parameters of the item, if it can have any.
fn parameters(item: &Item) -> &[Name]
    ensures { map name_of result.now ≡ parameters_of (item_of item.now) }
{
    match item {
        Item::Derived { parameters, .. } | Item::Rule { parameters, .. } => parameters,
        _ => &[],
    }
}

/// Names that are in the list before.
fn note_repeats(alloc: Global, names: &[Name], least: &mut LeastFault) -> Result<(), AllocError>
    ensures { OnOk result (found_of least.new.found ≡ least_after (found_of least.old.found) (at_with 8 (repeats [] (map name_of names.now)))) }
{
    let mut seen = BTreeSet::new(alloc);
    for name in names {
        if !seen.insert(name.text.as_bytes())? {
            least.note(FaultKind::Twice, name.at);
        }
    }
    Ok(())
}

/// What a name is declared as.
pub(crate) fn meaning<'a>(names: &NameTable<'a>, name: &Text) -> Option<DeclaredAs<'a>>
    ensures { (spec : source.Spec) → IsTableOf spec names.now → option_map declared_as_view result ≡ declared spec name.now }
{
    let declared = names.get(name)?;
    Some(declared.meaning)
}

/// Where a name is in the table.
pub(crate) fn position(names: &NameTable, name: &Text) -> Option<usize>
    ensures found { IfSome result (λ i. i < length names.now) }
    ensures name { IfSome result (λ i. text_at names.now i ≡ name.now) }
    ensures missing { (spec : source.Spec) → IsTableOf spec names.now → IfNone result (declared spec name.now ≡ None) }
{
    names.get_index_of(name.as_bytes())
}
