//! Why a condition isn't true in a state.
ghost use Rattle.std.specs.Prelude.{◌≡◌, [], length, true, IfNone, IfOk, IfSome, OnOk};
ghost use Rattle.asm_state.specs.Signature.{count_of, state_of};
ghost use Rattle.asm_syntax.specs.code.Views.{spec_of, term_of};
ghost use Rattle.asm_check.specs.Shapes.{shape_of};
ghost use Rattle.asm_meaning.specs.Value as meaning;
ghost use Rattle.asm_resolve.specs.code.Scopes.{AreResolvedBodies};
ghost use Rattle.asm_explore_because.specs.Because.{IsBecause};
ghost use Rattle.asm_explore_because.specs.Parts.{Decides, value_under as spec_value};
ghost use Rattle.asm_explore_because.specs.code.CodedParts.{part_of, spec_in, state_in};

use crate::laws::{deciding_laws, lighter_parts};
use crate::line::line_of;
use crate::next::next;
use crate::part::Part;
use crate::scene::Scene;
use crate::truths::is_true;
use crate::value_under::value_under;
use asm_check::Checked;
use asm_resolve::bodies::Bodies;
use asm_state::state::State;
use asm_syntax::term::Term;
use std::alloc::{AllocError, Global};

/// The part that decides a part in the end.
fn innermost<'e>(
    alloc: Global,
    scene: &Scene<'e>,
    known: &mut Bodies,
    part: Part<'e>,
) -> Result<Part<'e>, AllocError>
    requires known { AreResolvedBodies (spec_in scene.now) known.old.terms.items }
    ensures decides { IfOk result (λ it. Decides (spec_in scene.now) (state_in scene.now) (part_of part.entry) (part_of it)) }
    ensures known { OnOk result (AreResolvedBodies (spec_in scene.now) known.new.terms.items) }
{
    lighter_parts();
    match next(alloc, scene, known, &part)? {
        Some(inner) => innermost(alloc, scene, known, inner),
        None => Ok(part),
    }
}

/// Says why a condition isn't true in a state, if it isn't.
pub fn because(
    alloc: Global,
    checked: &Checked,
    condition: &Term,
    state: &State,
) -> Result<Option<Vec<u8>>, AllocError>
    requires whole { length state.now ≡ count_of (shape_of (spec_of checked.now.spec)) }
    ensures found { let s = spec_of checked.now.spec in
        IfOk result (λ found. IfSome found (λ line. IsBecause s (state_of (shape_of s) state.now) (term_of condition.now) line.items)) }
    ensures holds { let s = spec_of checked.now.spec in
        IfOk result (λ found. IfNone found (meaning.is_true (spec_value s (state_of (shape_of s) state.now) [] (term_of condition.now)) ≡ true)) }
{
    deciding_laws();
    let scene = Scene { checked, state };
    let mut known = Bodies::new(alloc, checked)?;
    let value = value_under(alloc, &scene, &mut known, &[], condition)?;
    if is_true(value) {
        return Ok(None);
    }
    let whole = Part {
        term: condition,
        bound: Vec::new(alloc),
        wanted: true,
        strictly: false,
    };
    let part = innermost(alloc, &scene, &mut known, whole)?;
    let line = line_of(alloc, &scene, &mut known, &part)?;
    Ok(Some(line))
}
