//! The line for the part that decides.
ghost use Rattle.std.specs.Prelude.{◌≡◌, ◌++◌, [], codes, IfOk, OnOk};
ghost use Rattle.std.specs.List.{flat_map};
ghost use Rattle.asm_state.specs.Words.{value_of_code};
ghost use Rattle.asm_syntax.specs.code.Views.{spec_of};
ghost use Rattle.asm_resolve.specs.code.Scopes.{AreResolvedBodies};
ghost use Rattle.asm_run.specs.Written.{names_in};
ghost use Rattle.asm_explore_because.specs.Because as because;
ghost use Rattle.asm_explore_because.specs.code.CodedParts.{bound_of, part_of, spec_in, state_in, texts_of};

use crate::bound_name::BoundName;
use crate::next::is_bound;
use crate::part::Part;
use crate::reads::read_texts;
use crate::scene::Scene;
use crate::term_text::push_term;
use crate::value_under::value_under;
use asm_check::Checked;
use asm_resolve::bodies::Bodies;
use asm_run::locations::push_value;
use asm_state::word::Word;
use std::alloc::{AllocError, Global};

/// Adds a name with its value, unless one of these inner ones hides it.
fn push_bound_value(
    line: &mut Vec<u8>,
    checked: &Checked,
    inner: &[BoundName<'_>],
    bound: &BoundName<'_>,
) -> Result<(), AllocError>
    ensures { let names = names_in (spec_of checked.now.spec) in
        OnOk result (line.new.items ≡ line.old.items ++ because.bound_value names.elements (bound_of inner.now) bound.now.name.now.text (value_of_code bound.now.value.value)) }
{
    if is_bound(inner, bound.name) {
        return Ok(());
    }
    line.extend_from_slice(b", ")?;
    line.extend_from_slice(bound.name.text.as_bytes())?;
    line.extend_from_slice(b" = ")?;
    push_value(line, checked, Word::of_code(bound.value))
}

/// Adds names with their values, the innermost first, without those that an inner one hides.
fn push_bound(
    line: &mut Vec<u8>,
    checked: &Checked,
    bound: &[BoundName<'_>],
) -> Result<(), AllocError>
    ensures { let names = names_in (spec_of checked.now.spec) in
        OnOk result (line.new.items ≡ line.old.items ++ because.bound_text names.elements [] (bound_of bound.now)) }
{
    for i in 0..bound.len() {
        push_bound_value(line, checked, &bound[..i], &bound[i])?;
    }
    Ok(())
}

/// Adds texts, each after a comma.
fn push_each(line: &mut Vec<u8>, texts: &[Vec<u8>]) -> Result<(), AllocError>
    ensures { OnOk result (line.new.items ≡ line.old.items ++ flat_map (λ text. codes ", " ++ text) (texts_of texts.now)) }
{
    for text in texts {
        line.extend_from_slice(b", ")?;
        line.extend_from_slice(text.as_slice())?;
    }
    Ok(())
}

/// Says of the part that decides what its value is, and what it reads.
pub(crate) fn line_of(
    alloc: Global,
    scene: &Scene<'_>,
    known: &mut Bodies,
    part: &Part<'_>,
) -> Result<Vec<u8>, AllocError>
    requires known { AreResolvedBodies (spec_in scene.now) known.old.terms.items }
    ensures { IfOk result (λ line. line.items ≡ codes "because: " ++ because.part_text (spec_in scene.now) (state_in scene.now) (part_of part.now)) }
{
    let bound = part.bound.as_slice();
    let value = value_under(alloc, scene, known, bound, part.term)?;
    let mut line = Vec::from_slice(alloc, b"because: ")?;
    push_term(&mut line, scene.checked, part.term)?;
    line.extend_from_slice(b" is ")?;
    push_value(&mut line, scene.checked, value)?;
    push_bound(&mut line, scene.checked, bound)?;
    let texts = read_texts(alloc, scene, known, bound, part.term)?;
    push_each(&mut line, texts.as_slice())?;
    Ok(line)
}
