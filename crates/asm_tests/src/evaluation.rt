//! What resolved terms and rules yield.
mod endings;
mod pieces;
mod refusals;
mod rows;
mod steps;
mod terms;

ghost use Rattle.std.specs.Prelude.{◌≡◌};
ghost use Rattle.asm_syntax.specs.code.Views.{spec_of};
ghost use Rattle.asm_check.specs.Shapes.{shape_of};
ghost use Rattle.asm_eval.specs.code.Evaluation.{HasLocations, evaluation_shape};

use asm_check::Checked;
use asm_eval::evaluation::Evaluation;
use asm_eval::form::form;
use asm_eval::frame::Frame;
use asm_eval::regions::OnThisThread;
use asm_eval::{Choices, Forming, Outcome, Stopped, View};
use asm_reader::Picks;
use asm_resolve::main_rule::resolve_main;
use std::alloc::{AllocError, Global};

/// Forms what the main rule yields, by way of its code.
fn form_main<P: Picks>(
    alloc: Global,
    checked: &Checked,
    evaluation: &Evaluation<'_, '_, P>,
    forming: &mut Forming,
) -> Result<Result<(), Stopped>, AllocError>
    requires shaped { evaluation_shape evaluation.now ≡ shape_of (spec_of checked.now.spec) }
    requires fits { HasLocations evaluation.now forming.old }
{
    let code = resolve_main(alloc, checked)?;
    let formed = form(
        alloc,
        &mut OnThisThread,
        evaluation,
        &Frame::Empty,
        &code,
        forming,
    );
    drop(code);
    Ok(formed)
}

/// What the main rule yields at this path.
fn outcome_at<'a, P: Picks>(
    alloc: Global,
    checked: &'a Checked,
    view: &'a View<'_>,
    choices: &'a Choices<'a, P>,
    path: &[u64],
    turns: u32,
) -> Result<Outcome, AllocError>
    requires { view.now.signature.now ≡ shape_of (spec_of checked.now.spec) }
{
    let mut forming = Forming::at(alloc, view.signature, path)?;
    let evaluation = Evaluation {
        view,
        choices,
        turns,
    };
    let formed = form_main(alloc, checked, &evaluation, &mut forming)?;
    forming.into_outcome(formed)
}
