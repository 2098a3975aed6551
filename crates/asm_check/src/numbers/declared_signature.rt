//! The signature that a well-formed specification declares.
ghost use Rattle.std.specs.Prelude.{◌≡◌, map, option_map, IfOk};
ghost use Rattle.asm_state.specs.Universe as elements;
ghost use Rattle.asm_syntax.specs.code.Views.{spec_of, item_of, name_of, const_of, entry_of, given_of};
ghost use Rattle.asm_check.specs.Faults.{IsWellFormed};
ghost use Rattle.asm_check.specs.Names.{first_declarations};
ghost use Rattle.asm_check.specs.Numbers.{universes_of, elements_of};
ghost use Rattle.asm_check.specs.code.numbers.NumberTables as numbers;
ghost use Rattle.asm_check.specs.code.numbers.NumberTables.{IsNumberingOf};
ghost use Rattle.asm_check.specs.Shapes.{shape_of, texts_of, index_among, const_by, entry_by, table_by, domain_by, function_given};

use crate::checked::NameNumber;
use crate::numbers::numbering::Numbering;
use asm_state::arguments::Arguments;
use asm_state::domain::Domain;
use asm_state::element::{Element, MAX_ELEMENTS};
use asm_state::entries::Entries;
use asm_state::function::{Function, Table};
use asm_state::signature::Signature;
use asm_state::universe::Universe;
use asm_state::value::Value;
use asm_state::word::Word;
use asm_syntax::name::Name;
use asm_syntax::spec::{Const, Entry, Given, Item, Spec};
use std::alloc::{AllocError, Global};

/// A specification, with the numbers of what it declares.
#[derive(Clone, Copy)]
struct NumberedSpec<'a> {
    spec: &'a Spec,
    numbering: &'a Numbering,
    ghost numbered: { IsNumberingOf (first_declarations (spec_of spec.now)) numbering.now },
}

/// The signature of the specification.
pub(crate) fn signature_of(
    alloc: Global,
    spec: &Spec,
    numbering: &Numbering,
) -> Result<Signature, AllocError>
    requires good { IsWellFormed (spec_of spec.now) }
    requires numbered { IsNumberingOf (first_declarations (spec_of spec.now)) numbering.now }
    ensures { IfOk result (λ s. s ≡ shape_of (spec_of spec.now)) }
{
    let universes = universes(alloc, spec)?;
    let numbered = NumberedSpec { spec, numbering };
    let functions = functions(alloc, &numbered)?;
    Signature::build(alloc, universes, functions)
}

/// All universes, in the order of the text. Elements are numbered through.
fn universes(alloc: Global, spec: &Spec) -> Result<Vec<Universe>, AllocError>
    requires { IsWellFormed (spec_of spec.now) }
    ensures { IfOk result (λ us. us.items ≡ (shape_of (spec_of spec.now)).universes) }
{
    let mut universes = Vec::new(alloc);
    let mut count = 0;
    for item in &spec.items {
        match item {
            Item::Enum { elements, .. } => {
                let size = elements.len();
                universes.push(Universe::elements(count, size))?;
                count += size as u32;
            }
            Item::Universe { first, last, .. } => universes.push(Universe::range(*first, *last))?,
            _ => {}
        }
    }
    Ok(universes)
}

/// All controlled and static functions, in the order of the text.
fn functions(alloc: Global, numbered: &NumberedSpec) -> Result<Vec<Function>, AllocError>
    ensures { IfOk result (λ fs. fs.items ≡ (shape_of (spec_of numbered.now.spec.now)).functions) }
{
    let mut functions = Vec::new(alloc);
    for item in &numbered.spec.items {
        if let Some(function) = function_of(alloc, item, numbered)? {
            functions.push(function)?;
        }
    }
    Ok(functions)
}

/// The function that an item declares, if it is one that is controlled or static.
fn function_of(
    alloc: Global,
    item: &Item,
    numbered: &NumberedSpec,
) -> Result<Option<Function>, AllocError>
    ensures { IfOk result (λ f. f ≡ function_given (spec_of numbered.now.spec.now) (item_of item.now)) }
{
    let Item::Function {
        kind,
        domain,
        table,
        ..
    } = item
    else {
        return Ok(None);
    };
    Ok(Some(Function {
        kind: *kind,
        domain: domain_of(alloc, domain, numbered)?,
        table: table_of(alloc, table, numbered)?,
    }))
}

/// The number of the universe with this name, or how many universes there are if none has it.
fn universe_number(name: &Name, numbered: &NumberedSpec) -> usize
    ensures { result ≡ index_among (texts_of (universes_of (spec_of numbered.now.spec.now))) name.now.text }
{
    let numbering = numbered.numbering;
    universe_or(numbering.universes(), numbering.named(&name.text))
}

/// The number of the element with this name, or how many elements there are if none has it.
fn element_number(name: &Name, numbered: &NumberedSpec) -> usize
    ensures { result ≡ index_among (texts_of (elements_of (spec_of numbered.now.spec.now))) name.now.text }
{
    let numbering = numbered.numbering;
    element_or(numbering.elements(), numbering.named(&name.text))
}

/// The number, if it is that of a universe, or else the other one.
fn universe_or(other: usize, named: Option<NameNumber>) -> usize
    ensures { result ≡ numbers.universe_or other named }
{
    match named {
        Some(NameNumber::Universe(n)) => n,
        _ => other,
    }
}

/// The number, if it is that of an element, or else the other one.
fn element_or(other: usize, named: Option<NameNumber>) -> usize
    ensures { result ≡ numbers.element_or other named }
{
    match named {
        Some(NameNumber::Element(n)) => n,
        _ => other,
    }
}

fn domain_of(alloc: Global, domain: &[Name], numbered: &NumberedSpec) -> Result<Domain, AllocError>
    ensures { IfOk result (λ d. d ≡ domain_by (texts_of (universes_of (spec_of numbered.now.spec.now))) (map name_of domain.now)) }
{
    let mut numbers = Vec::with_capacity(alloc, domain.len())?;
    for name in domain {
        numbers.push(universe_number(name, numbered))?;
    }
    Ok(Domain::new(numbers))
}

fn table_of(
    alloc: Global,
    table: &Option<Given>,
    numbered: &NumberedSpec,
) -> Result<Table, AllocError>
    ensures { IfOk result (λ t. t ≡ table_by (texts_of (elements_of (spec_of numbered.now.spec.now))) (option_map given_of table.now)) }
{
    match table {
        None => Ok(Table::Same(Word::undef())),
        Some(Given::Each(constant)) => Ok(Table::Same(value_of(constant, numbered))),
        Some(Given::Entries(entries)) => Ok(Table::Entries(entries_of(alloc, entries, numbered)?)),
    }
}

fn entries_of(
    alloc: Global,
    entries: &[Entry],
    numbered: &NumberedSpec,
) -> Result<Entries, AllocError>
    ensures { IfOk result (λ es. es ≡ map (entry_by (texts_of (elements_of (spec_of numbered.now.spec.now)))) (map entry_of entries.now)) }
{
    let mut all = Vec::with_capacity(alloc, entries.len())?;
    for entry in entries {
        let arguments = arguments_of(alloc, &entry.arguments, numbered)?;
        all.push((arguments, value_of(&entry.value, numbered)))?;
    }
    Ok(Entries::new(all))
}

fn arguments_of(
    alloc: Global,
    constants: &[Const],
    numbered: &NumberedSpec,
) -> Result<Arguments, AllocError>
    ensures { IfOk result (λ vs. vs ≡ map (const_by (texts_of (elements_of (spec_of numbered.now.spec.now)))) (map const_of constants.now)) }
{
    let mut values = Vec::with_capacity(alloc, constants.len())?;
    for constant in constants {
        values.push(value_of(constant, numbered))?;
    }
    Ok(Arguments::new(values))
}

fn value_of(constant: &Const, numbered: &NumberedSpec) -> Word
    ensures { result ≡ const_by (texts_of (elements_of (spec_of numbered.now.spec.now))) (const_of constant.now) }
{
    match constant {
        Const::Plain(literal) => literal.value(),
        Const::Element(name) => element(element_number(name, numbered)),
    }
}

/// The element with a number.
fn element(number: usize) -> Word
    ensures { result ≡ elements.element number }
{
    if number < MAX_ELEMENTS as usize {
        Word::of(Value::Element(Element {
            index: number as u32,
        }))
    } else {
        Word::undef()
    }
}
