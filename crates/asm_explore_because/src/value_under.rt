//! The value of a term under bound names.
ghost use Rattle.std.specs.Prelude.{◌≡◌, ◌++◌, map, IfOk, OnOk};
ghost use Rattle.asm_check.specs.Shapes.{shape_of};
ghost use Rattle.asm_eval.specs.code.Frames.{IsSoundFrame};
ghost use Rattle.asm_resolve.specs.code.Scopes.{AreResolvedBodies};
ghost use Rattle.asm_syntax.specs.code.Views.{term_of, terms_of};
ghost use Rattle.asm_explore_because.specs.Parts as parts;
ghost use Rattle.asm_explore_because.specs.Parts.{Bound};
ghost use Rattle.asm_explore_because.specs.code.CodedParts.{AreNamed, bound_of, spec_in, state_in};

use crate::bound_name::BoundName;
use crate::scene::Scene;
use asm_eval::View;
use asm_eval::frame::Frame;
use asm_eval::value::value;
use asm_resolve::bodies::Bodies;
use asm_resolve::resolve::resolve;
use asm_resolve::scope::Scope;
use asm_state::word::Word;
use asm_syntax::term::Term;
use asm_updates::summary::Summary;
use std::alloc::{AllocError, Global};

/// What has a position while a term is valued.
#[derive(Clone, Copy)]
struct Positions<'e> {
    scope: &'e Scope<'e>,
    frame: &'e Frame<'e>,
}

/// The value of a term under bound names. The bodies of derived functions are kept.
pub(crate) fn value_under(
    alloc: Global,
    scene: &Scene<'_>,
    known: &mut Bodies,
    bound: &[BoundName<'_>],
    term: &Term,
) -> Result<Word, AllocError>
    requires known { AreResolvedBodies (spec_in scene.now) known.old.terms.items }
    ensures value { IfOk result (λ v. v ≡ parts.value_under (spec_in scene.now) (state_in scene.now) (bound_of bound.now) (term_of term.now)) }
    ensures known { OnOk result (AreResolvedBodies (spec_in scene.now) known.new.terms.items) }
{
    let scope = Scope::Empty;
    let frame = Frame::Empty;
    let outside = Positions {
        scope: &scope,
        frame: &frame,
    };
    value_within(alloc, scene, known, bound, &outside, term)
}

/// The same, if these names are in those that have positions.
fn value_within<'e>(
    alloc: Global,
    scene: &Scene<'_>,
    known: &mut Bodies,
    bound: &'e [BoundName<'e>],
    outside: &'e Positions<'e>,
    term: &Term,
) -> Result<Word, AllocError>
    requires known { AreResolvedBodies (spec_in scene.now) known.old.terms.items }
    requires framed { IsSoundFrame (shape_of (spec_in scene.now)) outside.now.frame.now }
    ensures value { (outer : Bound) → AreNamed (shape_of (spec_in scene.now)) outside.now.scope.now outside.now.frame.now outer →
        IfOk result (λ v. v ≡ parts.value_under (spec_in scene.now) (state_in scene.now) (bound_of bound.now ++ outer) (term_of term.now)) }
    ensures known { OnOk result (AreResolvedBodies (spec_in scene.now) known.new.terms.items) }
{
    let [inner @ .., outermost] = bound else {
        return value_at(alloc, scene, known, outside, term);
    };
    let scope = Scope::Within {
        name: outermost.name,
        outer: outside.scope,
    };
    let frame = Frame::One {
        value: outermost.value,
        outer: outside.frame,
    };
    let positions = Positions {
        scope: &scope,
        frame: &frame,
    };
    value_within(alloc, scene, known, inner, &positions, term)
}

/// The value of a term in which these names are bound.
fn value_at(
    alloc: Global,
    scene: &Scene<'_>,
    known: &mut Bodies,
    positions: &Positions<'_>,
    term: &Term,
) -> Result<Word, AllocError>
    requires known { AreResolvedBodies (spec_in scene.now) known.old.terms.items }
    requires framed { IsSoundFrame (shape_of (spec_in scene.now)) positions.now.frame.now }
    ensures value { (bound : Bound) → AreNamed (shape_of (spec_in scene.now)) positions.now.scope.now positions.now.frame.now bound →
        IfOk result (λ v. v ≡ parts.value_under (spec_in scene.now) (state_in scene.now) bound (term_of term.now)) }
    ensures known { OnOk result (AreResolvedBodies (spec_in scene.now) known.new.terms.items) }
{
    let checked = scene.checked;
    let signature = checked.signature();
    let nothing = Summary::new(alloc, signature.count());
    let view = View::new(signature, scene.state, &nothing);
    let code = resolve(alloc, checked, &mut known.terms, positions.scope, term)?;
    Ok(value(&view, positions.frame, &code))
}

/// The values of terms.
pub(crate) fn values_under(
    alloc: Global,
    scene: &Scene<'_>,
    known: &mut Bodies,
    bound: &[BoundName<'_>],
    terms: &[Term],
) -> Result<Vec<Word>, AllocError>
    requires known { AreResolvedBodies (spec_in scene.now) known.old.terms.items }
    ensures values { IfOk result (λ vs. vs.items ≡ parts.values_under (spec_in scene.now) (state_in scene.now) (bound_of bound.now) (terms_of (map term_of terms.now))) }
    ensures known { OnOk result (AreResolvedBodies (spec_in scene.now) known.new.terms.items) }
{
    let mut values = Vec::new(alloc);
    for i in 0..terms.len() {
        let value = value_under(alloc, scene, known, bound, &terms[i])?;
        values.push(value)?;
    }
    Ok(values)
}
