//! The operand of a chain of `and` by which it isn't true, or of a chain of `or` by which it is.
ghost use Rattle.std.specs.Prelude.{◌≡◌, ◌∷◌, find, option_map, true, IfOk, OnOk};
ghost use Rattle.std.specs.List.{list_all};
ghost use Rattle.asm_syntax.specs.code.Views.{term_of};
ghost use Rattle.asm_resolve.specs.code.Scopes.{AreResolvedBodies};
ghost use Rattle.asm_explore_because.specs.Parts as parts;
ghost use Rattle.asm_explore_because.specs.code.CodedParts.{bound_of, part_of, spec_in, state_in, term_at, terms_at};
ghost use Rattle.asm_explore_because.specs.code.CodedTerms.{links_in};

use crate::part::Part;
use crate::scene::Scene;
use crate::truths::{decides, is_boolean};
use crate::value_under::value_under;
use asm_resolve::bodies::Bodies;
use asm_state::operation::Op;
use asm_syntax::term::Term;
use std::alloc::{AllocError, Global};

/// Whether one operand of such an operation can decide what this is wanted of.
fn is_decisive(wanted: bool, operation: Op) -> bool
    ensures { result ≡ parts.is_decisive wanted operation }
{
    match operation {
        Op::And => wanted,
        Op::Or => !wanted,
        _ => false,
    }
}

/// Whether one operand of a chain with these links can decide what this is wanted of.
pub(crate) fn are_decisive(wanted: bool, rest: &[(Op, Term)]) -> bool
    ensures { result ≡ parts.are_decisive wanted (links_in rest.now) }
{
    for i in 0..rest.len() {
        if !is_decisive(wanted, rest[i].0) {
            return false;
        }
    }
    true
}

/// The operands of a chain.
fn operands<'e>(
    alloc: Global,
    first: &'e Term,
    rest: &'e [(Op, Term)],
) -> Result<Vec<&'e Term>, AllocError>
    ensures { IfOk result (λ terms. terms_at terms.items ≡ term_of first.now ∷ parts.operands (links_in rest.now)) }
{
    let mut terms = Vec::new(alloc);
    terms.push(first)?;
    for i in 0..rest.len() {
        terms.push(&rest[i].1)?;
    }
    Ok(terms)
}

/// The first operand of a chain that decides it, if one does.
pub(crate) fn deciding_operand<'e>(
    alloc: Global,
    scene: &Scene<'_>,
    known: &mut Bodies,
    part: &Part<'_>,
    first: &'e Term,
    rest: &'e [(Op, Term)],
) -> Result<Option<&'e Term>, AllocError>
    requires known { AreResolvedBodies (spec_in scene.now) known.old.terms.items }
    ensures operand { IfOk result (λ it. option_map term_at it ≡ parts.deciding_operand (spec_in scene.now) (state_in scene.now) (part_of part.now) (term_of first.now ∷ parts.operands (links_in rest.now))) }
    ensures known { OnOk result (AreResolvedBodies (spec_in scene.now) known.new.terms.items) }
{
    let terms = operands(alloc, first, rest)?;
    if part.strictly {
        return strictly_deciding(alloc, scene, known, part, terms.as_slice());
    }
    first_deciding(alloc, scene, known, part, terms.as_slice())
}

/// The first of the terms that decides the part, if the value of each is a truth value.
fn strictly_deciding<'e>(
    alloc: Global,
    scene: &Scene<'_>,
    known: &mut Bodies,
    part: &Part<'_>,
    terms: &[&'e Term],
) -> Result<Option<&'e Term>, AllocError>
    requires known { AreResolvedBodies (spec_in scene.now) known.old.terms.items }
    requires strictly { part.now.strictly ≡ true }
    ensures operand { IfOk result (λ it. option_map term_at it ≡ parts.deciding_operand (spec_in scene.now) (state_in scene.now) (part_of part.now) (terms_at terms.now)) }
    ensures known { OnOk result (AreResolvedBodies (spec_in scene.now) known.new.terms.items) }
{
    if !are_boolean(alloc, scene, known, part, terms)? {
        return Ok(None);
    }
    first_deciding(alloc, scene, known, part, terms)
}

/// Whether the value of each term is a truth value.
fn are_boolean(
    alloc: Global,
    scene: &Scene<'_>,
    known: &mut Bodies,
    part: &Part<'_>,
    terms: &[&Term],
) -> Result<bool, AllocError>
    requires known { AreResolvedBodies (spec_in scene.now) known.old.terms.items }
    ensures all { IfOk result (λ b. b ≡ list_all (λ t. parts.is_boolean (parts.value_under (spec_in scene.now) (state_in scene.now) (bound_of part.now.bound.items) t)) (terms_at terms.now)) }
    ensures known { OnOk result (AreResolvedBodies (spec_in scene.now) known.new.terms.items) }
{
    for i in 0..terms.len() {
        let value = value_under(alloc, scene, known, part.bound.as_slice(), terms[i])?;
        if !is_boolean(value) {
            return Ok(false);
        }
    }
    Ok(true)
}

/// The first of the terms that decides the part.
fn first_deciding<'e>(
    alloc: Global,
    scene: &Scene<'_>,
    known: &mut Bodies,
    part: &Part<'_>,
    terms: &[&'e Term],
) -> Result<Option<&'e Term>, AllocError>
    requires known { AreResolvedBodies (spec_in scene.now) known.old.terms.items }
    ensures first { IfOk result (λ it. option_map term_at it ≡ find (parts.decides_under (spec_in scene.now) (state_in scene.now) (part_of part.now) (bound_of part.now.bound.items)) (terms_at terms.now)) }
    ensures known { OnOk result (AreResolvedBodies (spec_in scene.now) known.new.terms.items) }
{
    for i in 0..terms.len() {
        let value = value_under(alloc, scene, known, part.bound.as_slice(), terms[i])?;
        if decides(part.wanted, value) {
            return Ok(Some(terms[i]));
        }
    }
    Ok(None)
}
