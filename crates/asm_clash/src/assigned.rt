//! Whether an assignment's update is at a location.
ghost use Rattle.std.specs.Prelude.{◌≡◌, ◌<◌, ◌∷◌, [], take, IfOk};
ghost use Rattle.asm_state.specs.Signature.{count_of, location_at};
ghost use Rattle.asm_code.specs.code.CodeViews.{code_of};
ghost use Rattle.asm_code.specs.code.RuleMeaning.{IsSoundTarget};
ghost use Rattle.asm_code.specs.code.RuleViews.{target_code_of};
ghost use Rattle.asm_code.specs.code.SoundCodes.{IsSound};
ghost use Rattle.asm_eval.specs.code.Frames.{IsSoundFrame};
ghost use Rattle.asm_eval.specs.code.Evaluation.{target_in};
ghost use Rattle.asm_clash.specs.Standing.{assigned_of, all_assigned};
ghost use Rattle.asm_clash.specs.code.FirstFound.{IsFound};
ghost use Rattle.asm_clash.specs.code.StandingRules.{assigned_at, detail_at};

use crate::assignment::Assignment;
use crate::bound_values::{arguments_given, values_bound};
use crate::found::Found;
use crate::sought::Sought;
use asm_code::code::Code;
use asm_code::rule_code::TargetCode;
use asm_eval::frame::Frame;
use asm_eval::target::target_number;
use asm_eval::value::value;
use asm_eval::{Path, View};
use asm_state::word::Word;
use std::alloc::{AllocError, Global};

/// The assignment of a term's value to a target, if that is the location that is sought.
pub(crate) fn assigned<'e>(
    alloc: Global,
    view: &View<'_>,
    frame: &'e Frame<'e>,
    place: &'e TargetCode,
    term: &'e Code,
    path: &[u64],
    sought: &Sought<'_>,
) -> Result<Found, AllocError>
    requires number { sought.now.location < count_of view.now.signature.now }
    requires sound { IsSoundTarget view.now.signature.now (target_code_of place.now) }
    requires sound_term { IsSound view.now.signature.now (code_of term.now) }
    requires framed { IsSoundFrame view.now.signature.now frame.now }
    ensures { IfOk result (IsFound sought.now.most
        (assigned_at (location_at view.now.signature.now sought.now.location) (target_in view.now frame.now (target_code_of place.now))
        (detail_at view.now frame.now sought.now.given.now (target_code_of place.now) (code_of term.now) path.now))) }
{
    let found = Found::none(alloc);
    let Some(m) = target_number(alloc, view, frame, place)? else {
        return Ok(found);
    };
    if m != sought.location {
        return Ok(found);
    }
    let first = kept(alloc, view, frame, place, term, path, sought)?;
    Ok(Found { first, count: 1 })
}

/// The assignment of a term's value to a target, if any is kept.
fn kept<'e>(
    alloc: Global,
    view: &View<'_>,
    frame: &'e Frame<'e>,
    place: &'e TargetCode,
    term: &'e Code,
    path: &[u64],
    sought: &Sought<'_>,
) -> Result<Vec<Assignment>, AllocError>
    requires sound { IsSoundTarget view.now.signature.now (target_code_of place.now) }
    requires sound_term { IsSound view.now.signature.now (code_of term.now) }
    requires framed { IsSoundFrame view.now.signature.now frame.now }
    ensures { IfOk result (λ first. all_assigned first.items ≡ take sought.now.most
        (detail_at view.now frame.now sought.now.given.now (target_code_of place.now) (code_of term.now) path.now ∷ [])) }
{
    let mut first = Vec::new(alloc);
    if sought.most > 0 {
        let assignment = assignment(alloc, view, frame, place, term, path, sought.given)?;
        first.push(assignment)?;
        return Ok(first);
    }
    Ok(first)
}

/// The assignment of a term's value to a target.
fn assignment<'e>(
    alloc: Global,
    view: &View<'_>,
    frame: &'e Frame<'e>,
    place: &'e TargetCode,
    term: &'e Code,
    path: &[u64],
    given: &[Word],
) -> Result<Assignment, AllocError>
    requires sound { IsSoundTarget view.now.signature.now (target_code_of place.now) }
    requires sound_term { IsSound view.now.signature.now (code_of term.now) }
    requires framed { IsSoundFrame view.now.signature.now frame.now }
    ensures { IfOk result (λ made. assigned_of made ≡ detail_at view.now frame.now given.now (target_code_of place.now) (code_of term.now) path.now) }
{
    let path = Path::of(alloc, path)?;
    let value = value(view, frame, term);
    let arguments = arguments_given(alloc, view, frame, place, given)?;
    let bound = values_bound(alloc, view, frame)?;
    Ok(Assignment {
        path,
        value,
        arguments,
        bound,
    })
}
