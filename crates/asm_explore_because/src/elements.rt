//! The first element by which an `exists` is true, or a `forall` isn't.
ghost use Rattle.std.specs.Prelude.{◌≡◌, ◌∷◌, [], IfNone, IfOk, IfSome, OnOk};
ghost use Rattle.asm_resolve.specs.code.Scopes.{AreResolvedBodies};
ghost use Rattle.asm_syntax.specs.code.Views.{spec_of, term_of};
ghost use Rattle.asm_meaning.specs.Declarations.{program_of, universe_number};
ghost use Rattle.asm_meaning.specs.Value.{universe};
ghost use Rattle.asm_explore_because.specs.Parts as parts;
ghost use Rattle.asm_explore_because.specs.code.CodedParts.{bound_of, part_of, part_of_some, spec_in, state_in};

use crate::bound_name::BoundName;
use crate::part::Part;
use crate::scene::Scene;
use crate::truths::decides;
use crate::value_under::value_under;
use asm_check::{Checked, NameNumber};
use asm_meaning::laws::universe_names;
use asm_resolve::bodies::Bodies;
use asm_state::universe::Universe;
use asm_state::word::Word;
use asm_syntax::name::Name;
use asm_syntax::term::Term;
use std::alloc::{AllocError, Global};

/// What an `exists` or a `forall` consists of.
#[derive(Clone, Copy)]
pub(crate) struct Quantified<'e> {
    pub name: &'e Name,
    /// What its universe is called.
    pub over: &'e Name,
    pub test: &'e Term,
}

/// Bound names, and one more within them.
fn with_name<'e>(
    alloc: Global,
    bound: &[BoundName<'e>],
    name: &'e Name,
    value: Word,
) -> Result<Vec<BoundName<'e>>, AllocError>
    ensures { IfOk result (λ names. bound_of names.items ≡ (name.now.text, value) ∷ bound_of bound.now) }
{
    let mut names = Vec::new(alloc);
    names.push(BoundName {
        name,
        value: value.unbranded_code(),
    })?;
    names.extend_from_slice(bound)?;
    Ok(names)
}

/// The universe that a name stands for, if it stands for one.
fn universe_of<'e>(checked: &'e Checked, name: &Name) -> Option<&'e Universe>
    ensures some { IfSome result (λ u. universe (program_of (spec_of checked.now.spec)) name.now.text ≡ u.now) }
    ensures none { IfNone result (universe (program_of (spec_of checked.now.spec)) name.now.text ≡ []) }
{
    universe_names();
    match universe_in(checked.named_text(&name.text)) {
        Some(n) => Some(checked.signature().universe(n)),
        None => None,
    }
}

/// The number of a universe.
fn universe_in(it: Option<NameNumber>) -> Option<usize>
    ensures { result ≡ universe_number it }
{
    match it {
        Some(NameNumber::Universe(n)) => Some(n),
        _ => None,
    }
}

/// The term in an `exists` or a `forall` under the first element that decides it.
pub(crate) fn element_part<'e>(
    alloc: Global,
    scene: &Scene<'e>,
    known: &mut Bodies,
    part: &Part<'e>,
    quantified: &Quantified<'e>,
) -> Result<Option<Part<'e>>, AllocError>
    requires known { AreResolvedBodies (spec_in scene.now) known.old.terms.items }
    ensures element { let s = spec_in scene.now in
        let A = state_in scene.now in
        let p = part_of part.now in
        let q = quantified.now in
        IfOk result (λ it. part_of_some it ≡ parts.element_part p q.name.now.text (term_of q.test.now) (parts.deciding_element s A p q.name.now.text q.over.now.text (term_of q.test.now))) }
    ensures known { OnOk result (AreResolvedBodies (spec_in scene.now) known.new.terms.items) }
{
    let Quantified { name, over, test } = *quantified;
    let Some(universe) = universe_of(scene.checked, over) else {
        return Ok(None);
    };
    for i in 0..universe.size() {
        let bound = with_name(alloc, part.bound.as_slice(), name, universe.element(i))?;
        let value = value_under(alloc, scene, known, bound.as_slice(), test)?;
        if decides(part.wanted, value) {
            return Ok(Some(Part {
                term: test,
                bound,
                wanted: part.wanted,
                strictly: !part.wanted,
            }));
        }
    }
    Ok(None)
}
