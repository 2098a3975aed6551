//! Pieces of resolved rules, evaluated whole.
ghost use Rattle.std.specs.Prelude.{◌≡◌, OnOk, IfOk, IfErr};
ghost use Rattle.asm_eval.specs.code.FormedOutcomes.{Follows, Forms, IsFormed, IsStoppedAt};
ghost use Rattle.asm_eval.specs.declared.part.Part.TheVariants as part;
ghost use Rattle.asm_code.specs.code.RuleMeaning.{IsSoundRule};
ghost use Rattle.asm_code.specs.code.RuleViews.{rule_of};
ghost use Rattle.asm_eval.specs.code.Frames.{IsSoundFrame};
ghost use Rattle.asm_eval.specs.code.Pieces.{IsPartOf, IsPiece, part_yields, piece_yields};
ghost use Rattle.asm_eval.specs.code.Evaluation.{HasLocations, evaluation_shape};

use crate::evaluation::Evaluation;
use crate::form::{form, form_span};
use crate::frame::Frame;
use crate::outcome::{Forming, Outcome};
use crate::part::Part;
use crate::path::Path;
use crate::regions::OnThisThread;
use crate::stopped::Stopped;
use asm_code::rule_code::RuleCode;
use asm_reader::Picks;
use std::alloc::{AllocError, Global};

/// A part of a region's work. The innermost frame is its own; the frames around it are those of the
/// pieces from which it was opened, which it borrows.
#[derive(Drop)]
pub struct Piece<'a> {
    pub rule: &'a RuleCode,
    pub frame: Frame<'a>,
    /// The path of the rule, of a span too.
    pub path: Path,
    pub part: Part,
}

/// What a piece yields, all of it on this thread.
pub fn whole_piece<P: Picks>(
    alloc: Global,
    evaluation: &Evaluation<'_, '_, P>,
    piece: &Piece<'_>,
) -> Result<Outcome, AllocError>
    requires { IsPiece (evaluation_shape evaluation.now) piece.now }
    ensures { IfOk result (IsFormed (evaluation_shape evaluation.now) (piece_yields evaluation.now piece.now)) }
{
    let mut forming = Forming::at(alloc, evaluation.view.signature, &[])?;
    let formed = form_piece(alloc, evaluation, piece, &mut forming);
    forming.into_outcome(formed)
}

/// Forms what a piece yields, at the piece's own path: wherever the forming stood, it goes there
/// first. The updates come to those formed before, and the instances are counted. If the piece
/// is exhausted, the forming stands at the path of the `iterate` that made its last turn. If it
/// stopped, the set may have some of the updates.
pub fn form_piece<P: Picks>(
    alloc: Global,
    evaluation: &Evaluation<'_, '_, P>,
    piece: &Piece<'_>,
    forming: &mut Forming,
) -> Result<(), Stopped>
    requires fits { HasLocations evaluation.now forming.old }
    requires piece { IsPiece (evaluation_shape evaluation.now) piece.now }
    ensures count { forming.new.set.count ≡ forming.old.set.count }
    ensures formed { OnOk result (Forms (evaluation_shape evaluation.now) (piece_yields evaluation.now piece.now) forming.old.set forming.new.set forming.old.instances forming.new.instances) }
    ensures exhausted { IfErr result (IsStoppedAt (piece_yields evaluation.now piece.now) forming.new.path.items) }
{
    forming.path.clear();
    forming.path.extend_from_slice(piece.path.as_slice())?;
    form_part_of(
        alloc,
        evaluation,
        &piece.frame,
        piece.rule,
        piece.part,
        forming,
    )
}

/// Forms a part of a rule.
fn form_part_of<'e, P: Picks>(
    alloc: Global,
    evaluation: &Evaluation<'_, '_, P>,
    frame: &'e Frame<'e>,
    rule: &'e RuleCode,
    part: Part,
    forming: &mut Forming,
) -> Result<(), Stopped>
    requires fits { HasLocations evaluation.now forming.old }
    requires sound { IsSoundRule (evaluation_shape evaluation.now) (rule_of rule.now) }
    requires framed { IsSoundFrame (evaluation_shape evaluation.now) frame.now }
    requires part { IsPartOf (evaluation_shape evaluation.now) (rule_of rule.now) part }
    ensures { Follows (evaluation_shape evaluation.now) (part_yields evaluation.now frame.now forming.old.path.items (rule_of rule.now) part) forming.old forming.new result }
{
    match part {
        Part::Whole => form(alloc, &mut OnThisThread, evaluation, frame, rule, forming),
        Part::Span { from, to } => form_elements(alloc, evaluation, frame, rule, from, to, forming),
    }
}

/// Forms the elements of a `forall` at the positions from one to before another.
fn form_elements<'e, P: Picks>(
    alloc: Global,
    evaluation: &Evaluation<'_, '_, P>,
    frame: &'e Frame<'e>,
    rule: &'e RuleCode,
    from: usize,
    to: usize,
    forming: &mut Forming,
) -> Result<(), Stopped>
    requires fits { HasLocations evaluation.now forming.old }
    requires sound { IsSoundRule (evaluation_shape evaluation.now) (rule_of rule.now) }
    requires framed { IsSoundFrame (evaluation_shape evaluation.now) frame.now }
    requires part { IsPartOf (evaluation_shape evaluation.now) (rule_of rule.now) (part.Span from to) }
    ensures { Follows (evaluation_shape evaluation.now) (part_yields evaluation.now frame.now forming.old.path.items (rule_of rule.now) (part.Span from to)) forming.old forming.new result }
{
    let RuleCode::Forall { over, test, body } = rule else {
        unreachable!();
    };
    form_span(
        alloc,
        &mut OnThisThread,
        evaluation,
        frame,
        *over,
        test,
        from,
        to,
        body,
        forming,
    )
}
