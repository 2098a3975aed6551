//! The part of a part that decides it.
ghost use Rattle.std.specs.Prelude.{◌≡◌, IfOk, OnOk, map, option_map};
ghost use Rattle.std.specs.List.{list_any};
ghost use Rattle.asm_meaning.specs.Program.{is_name};
ghost use Rattle.asm_syntax.specs.SourceTree as source;
ghost use Rattle.asm_check.specs.Names.{text_of};
ghost use Rattle.asm_resolve.specs.code.Scopes.{AreResolvedBodies};
ghost use Rattle.asm_syntax.specs.code.Views.{name_of, term_of, terms_of};
ghost use Rattle.asm_explore_because.specs.Parts as parts;
ghost use Rattle.asm_explore_because.specs.code.CodedParts.{bound_of, part_of, part_of_some, spec_in, state_in, term_at};
ghost use Rattle.asm_explore_because.specs.code.CodedTerms.{links_in};

use crate::bound_name::BoundName;
use crate::chains::{are_decisive, deciding_operand};
use crate::elements::{Quantified, element_part};
use crate::part::Part;
use crate::scene::Scene;
use crate::value_under::values_under;
use asm_check::NameNumber;
use asm_resolve::bodies::Bodies;
use asm_state::operation::Op;
use asm_state::word::Word;
use asm_syntax::name::Name;
use asm_syntax::term::Term;
use std::alloc::{AllocError, Global};

/// The part of it that decides it, if one does.
pub(crate) fn next<'e>(
    alloc: Global,
    scene: &Scene<'e>,
    known: &mut Bodies,
    part: &Part<'e>,
) -> Result<Option<Part<'e>>, AllocError>
    requires known { AreResolvedBodies (spec_in scene.now) known.old.terms.items }
    ensures next { IfOk result (λ it. part_of_some it ≡ parts.next (spec_in scene.now) (state_in scene.now) (part_of part.now)) }
    ensures known { OnOk result (AreResolvedBodies (spec_in scene.now) known.new.terms.items) }
{
    match part.term {
        Term::Named { name, arguments } => {
            named_part(alloc, scene, known, part, name, arguments.as_slice())
        }
        Term::Chain { first, rest } => {
            chain_part(alloc, scene, known, part, first, rest.as_slice())
        }
        Term::Not(inner) => Ok(Some(part_with(alloc, part, inner, !part.wanted)?)),
        Term::Exists { name, over, test } if !part.wanted => {
            let quantified = Quantified { name, over, test };
            element_part(alloc, scene, known, part, &quantified)
        }
        Term::Every { name, over, test } if part.wanted => {
            let quantified = Quantified { name, over, test };
            element_part(alloc, scene, known, part, &quantified)
        }
        _ => Ok(None),
    }
}

/// A term in it, of which this is wanted.
fn part_with<'e>(
    alloc: Global,
    part: &Part<'e>,
    term: &'e Term,
    wanted: bool,
) -> Result<Part<'e>, AllocError>
    ensures { IfOk result (λ it. part_of it ≡ record { term = term_of term.now; bound = bound_of part.now.bound.items; wanted = wanted; strictly = part.now.strictly }) }
{
    let bound = Vec::from_slice(alloc, part.bound.as_slice())?;
    Ok(Part {
        term,
        bound,
        wanted,
        strictly: part.strictly,
    })
}

/// A term in it that there may be, of which the same is wanted.
fn inner_part<'e>(
    alloc: Global,
    part: &Part<'e>,
    term: Option<&'e Term>,
) -> Result<Option<Part<'e>>, AllocError>
    ensures { IfOk result (λ it. part_of_some it ≡ parts.inner_part (part_of part.now) (option_map term_at term.entry)) }
{
    match term {
        Some(term) => Ok(Some(part_with(alloc, part, term, part.wanted)?)),
        None => Ok(None),
    }
}

/// The operand that decides a chain.
fn chain_part<'e>(
    alloc: Global,
    scene: &Scene<'e>,
    known: &mut Bodies,
    part: &Part<'e>,
    first: &'e Term,
    rest: &'e [(Op, Term)],
) -> Result<Option<Part<'e>>, AllocError>
    requires known { AreResolvedBodies (spec_in scene.now) known.old.terms.items }
    ensures next { IfOk result (λ it. part_of_some it ≡ parts.next_in (spec_in scene.now) (state_in scene.now) (part_of part.now) (source.Chain (term_of first.now) (links_in rest.now))) }
    ensures known { OnOk result (AreResolvedBodies (spec_in scene.now) known.new.terms.items) }
{
    if !are_decisive(part.wanted, rest) {
        return Ok(None);
    }
    let operand = deciding_operand(alloc, scene, known, part, first, rest)?;
    inner_part(alloc, part, operand)
}

/// The body of the derived function that a name stands for.
fn named_part<'e>(
    alloc: Global,
    scene: &Scene<'e>,
    known: &mut Bodies,
    part: &Part<'e>,
    name: &'e Name,
    arguments: &'e [Term],
) -> Result<Option<Part<'e>>, AllocError>
    requires known { AreResolvedBodies (spec_in scene.now) known.old.terms.items }
    ensures next { IfOk result (λ it. part_of_some it ≡ parts.next_in (spec_in scene.now) (state_in scene.now) (part_of part.now) (source.Named (name_of name.now) (terms_of (map term_of arguments.now)))) }
    ensures known { OnOk result (AreResolvedBodies (spec_in scene.now) known.new.terms.items) }
{
    if is_bound(part.bound.as_slice(), name) {
        return Ok(None);
    }
    let checked = scene.checked;
    let Some(NameNumber::Derived(d)) = checked.named_text(&name.text) else {
        return Ok(None);
    };
    let values = values_under(alloc, scene, known, part.bound.as_slice(), arguments)?;
    let (names, body) = checked.derived(d);
    let bound = parameters(alloc, names, values.as_slice())?;
    Ok(Some(Part {
        term: body,
        bound,
        wanted: part.wanted,
        strictly: part.strictly,
    }))
}

/// Whether a name is bound.
pub(crate) fn is_bound(bound: &[BoundName<'_>], name: &Name) -> bool
    ensures { result ≡ parts.is_bound (bound_of bound.now) name.now.text }
{
    has_name(bound, name)
}

/// The same, of the names of the code.
fn has_name(bound: &[BoundName<'_>], name: &Name) -> bool
    ensures { result ≡ list_any (λ inner. is_name inner.name.now.text name.now.text) bound.now }
{
    bound
        .iter()
        .any(|inner| inner.name.text.is_same_text(&name.text))
}

/// The parameters of a derived function, bound to the values of arguments.
fn parameters<'e>(
    alloc: Global,
    names: &'e [Name],
    values: &[Word],
) -> Result<Vec<BoundName<'e>>, AllocError>
    ensures { IfOk result (λ bound. bound_of bound.items ≡ parts.parameters (map text_of (map name_of names.now)) values.now) }
{
    let mut bound = Vec::new(alloc);
    for i in 0..names.len() {
        let value = values.get(i).copied().unwrap_or(Word::undef());
        bound.push(BoundName {
            name: &names[i],
            value: value.unbranded_code(),
        })?;
    }
    Ok(bound)
}
