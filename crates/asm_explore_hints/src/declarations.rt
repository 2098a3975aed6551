//! What a specification declares.
ghost use Rattle.std.specs.Prelude.{◌≡◌, ◌++◌, ◌∷◌, [], List, flat_map, length, map, IfOk, OnOk};
ghost use Rattle.asm_syntax.specs.SourceTree as source;
ghost use Rattle.asm_check.specs.Names as names;
ghost use Rattle.asm_syntax.specs.code.Views.{item_of, name_of, spec_of};
ghost use Rattle.asm_explore_hints.specs.code.DeclaredNames.{meaning_of, seen_in, seen_of};
ghost use Rattle.asm_explore_hints.specs.declared.declarations.Meaning.TheVariants as meanings;

use asm_state::function::FunctionKind;
use asm_syntax::name::Name;
use asm_syntax::spec::{Item, Spec};
use std::alloc::{AllocError, Global};

/// What a name is declared as, with how many parameters.
#[derive(Clone, Copy, Debug, PartialEq, Eq)]
pub(crate) enum Meaning {
    Universe,
    Enumeration,
    Element,
    Controlled(usize),
    Static(usize),
    Derived(usize),
    Rule(usize),
}

/// A declaration, with its name.
#[derive(Clone, Copy)]
pub(crate) struct Declaration<'s> {
    pub name: &'s Name,
    pub meaning: Meaning,
    /// Whether it says which values the name has, or can't.
    pub has_codomain: bool,
}

impl Meaning {
    /// How many arguments it has where it is used.
    pub(crate) fn arguments(self) -> usize {
        match self {
            Meaning::Universe | Meaning::Enumeration | Meaning::Element => 0,
            Meaning::Controlled(count) | Meaning::Static(count) => count,
            Meaning::Derived(count) | Meaning::Rule(count) => count,
        }
    }

    /// What it is, in words.
    pub(crate) fn words(self) -> &'static str {
        match self {
            Meaning::Universe => "a universe",
            Meaning::Enumeration => "an enumeration",
            Meaning::Element => "an element",
            Meaning::Controlled(_) => "a controlled function",
            Meaning::Static(_) => "a static function",
            Meaning::Derived(_) => "a derived function",
            Meaning::Rule(_) => "a rule",
        }
    }
}

/// The declarations of a specification, in the order of the text.
pub(crate) fn declarations<'s>(
    alloc: Global,
    spec: &'s Spec,
) -> Result<Vec<Declaration<'s>>, AllocError>
    ensures { IfOk result (λ all. map seen_of all.items ≡ flat_map seen_in (spec_of spec.now).items) }
{
    let mut all = Vec::new(alloc);
    for item in &spec.items {
        push_item(&mut all, item)?;
    }
    Ok(all)
}

/// Adds what an item declares.
fn push_item<'s>(all: &mut Vec<Declaration<'s>>, item: &'s Item) -> Result<(), AllocError>
    ensures { OnOk result (map seen_of all.new.items ≡ map seen_of all.old.items ++ seen_in (item_of item.now)) }
{
    match item {
        Item::Uses(_) | Item::Init(_) => Ok(()),
        Item::Enum { name, elements } => {
            push_plain(all, name, Meaning::Enumeration)?;
            push_elements(all, elements.as_slice())
        }
        Item::Universe { name, .. } => push_plain(all, name, Meaning::Universe),
        Item::Function {
            name,
            kind,
            domain,
            codomain,
            ..
        } => {
            all.push(Declaration {
                name,
                meaning: function_of(*kind, domain.len()),
                has_codomain: codomain.is_some(),
            })?;
            Ok(())
        }
        Item::Derived {
            name,
            parameters,
            ..
        } => push_plain(all, name, Meaning::Derived(parameters.len())),
        Item::Rule {
            name,
            parameters,
            ..
        } => push_plain(all, name, Meaning::Rule(parameters.len())),
    }
}

/// A function of this kind, with so many parameters.
fn function_of(kind: FunctionKind, count: usize) -> Meaning
    ensures { (domain : List source.Name) → length domain ≡ count → result ≡ meaning_of (names.function_of kind domain) }
{
    match kind {
        FunctionKind::Controlled => Meaning::Controlled(count),
        FunctionKind::Static => Meaning::Static(count),
    }
}

/// Adds a declaration that has no codomain.
fn push_plain<'s>(
    all: &mut Vec<Declaration<'s>>,
    name: &'s Name,
    meaning: Meaning,
) -> Result<(), AllocError>
    ensures { OnOk result (map seen_of all.new.items ≡ map seen_of all.old.items ++ (name_of name.now, meaning) ∷ []) }
{
    all.push(Declaration {
        name,
        meaning,
        has_codomain: true,
    })?;
    Ok(())
}

/// Adds the elements of an enumeration.
fn push_elements<'s>(all: &mut Vec<Declaration<'s>>, elements: &'s [Name]) -> Result<(), AllocError>
    ensures { OnOk result (map seen_of all.new.items ≡ map seen_of all.old.items ++ map (λ y. (name_of y, meanings.Element)) elements.now) }
{
    for name in elements {
        push_plain(all, name, Meaning::Element)?;
    }
    Ok(())
}
