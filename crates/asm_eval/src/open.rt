//! Opening pieces of resolved rules.
ghost use Rattle.std.specs.Prelude.{◌-◌, ◌<◌, ◌≤◌, Some, map, option_map, IfOk};
ghost use Rattle.asm_meaning.specs.code.Intervals.{between};
ghost use Rattle.asm_meaning.specs.Yields as yields;
ghost use Rattle.asm_eval.specs.declared.part.Part.TheVariants as part;
ghost use Rattle.asm_code.specs.code.CodeViews.{code_of};
ghost use Rattle.asm_code.specs.code.Readings.{universe_at};
ghost use Rattle.asm_code.specs.code.RuleMeaning.{AreSoundRules, IsSoundRule, IsSoundTest};
ghost use Rattle.asm_code.specs.code.RuleViews.{rule_of, rules_of};
ghost use Rattle.asm_code.specs.code.SoundCodes.{IsUniverseNumber};
ghost use Rattle.asm_eval.specs.code.Frames.{IsSoundFrame, readings_of};
ghost use Rattle.asm_eval.specs.code.OpenedPieces.{Opens, OpensTo};
ghost use Rattle.asm_eval.specs.code.Opening.{body_works, counted_works, one_work, part_opened, part_works, rule_works};
ghost use Rattle.asm_eval.specs.code.Pieces.{IsInterval, IsPartOf, IsPiece};
ghost use Rattle.asm_eval.specs.code.Evaluation.{evaluation_choices, frame_locations, evaluation_shape, evaluation_state};

use crate::choose::{chosen, passes};
use crate::evaluation::Evaluation;
use crate::frame::Frame;
use crate::part::Part;
use crate::path::Path;
use crate::piece::Piece;
use crate::target::optional_target_number;
use crate::value::{holds, value};
use asm_code::code::Code;
use asm_code::rule_code::RuleCode;
use asm_reader::Picks;
use std::alloc::{AllocError, Global};

/// What comes of opening a piece.
#[derive(Drop)]
pub enum Opened<'a> {
    /// The pieces that it is made of, in order, and how many elements were counted in opening it.
    Pieces {
        pieces: Vec<Piece<'a>>,
        instances: u64,
    },
    /// It isn't opened: it is evaluated whole.
    Closed,
}

/// The pieces that a piece is made of, in order; they borrow from it. A span longer than the cut
/// gives spans, each except the last with as many positions as the cut. Each other part gives
/// its one step of evaluation: a `par` its parts, a `forall` the bodies for the elements whose
/// condition holds, an `if`, `let`, `choose` or call the one rule beneath it. A `skip`, an
/// assignment, a `seq` and an `iterate` are closed.
pub fn open_piece<'a, P: Picks>(
    alloc: Global,
    evaluation: &Evaluation<'_, '_, P>,
    piece: &'a Piece<'a>,
    cut: usize,
) -> Result<Opened<'a>, AllocError>
    requires cut { 0 < cut }
    requires piece { IsPiece (evaluation_shape evaluation.now) piece.now }
    ensures { IfOk result (Opens evaluation.now cut piece.now) }
{
    match piece.part {
        Part::Whole => open_rule(alloc, evaluation, &*piece, cut),
        Part::Span { from, to } => open_span(alloc, evaluation, &*piece, from, to, cut),
    }
}

/// What a piece that has all of its rule is made of.
fn open_rule<'a, P: Picks>(
    alloc: Global,
    evaluation: &Evaluation<'_, '_, P>,
    piece: &'a Piece<'a>,
    cut: usize,
) -> Result<Opened<'a>, AllocError>
    requires cut { 0 < cut }
    requires sound { IsSoundRule (evaluation_shape evaluation.now) (rule_of piece.now.rule.now) }
    requires framed { IsSoundFrame (evaluation_shape evaluation.now) piece.now.frame }
    ensures { let f = piece.now.frame in
        let works = rule_works (evaluation_shape evaluation.now) (evaluation_state evaluation.now) (evaluation_choices evaluation.now) cut (rule_of piece.now.rule.now) (readings_of (evaluation_shape evaluation.now) f) (frame_locations (evaluation_shape evaluation.now) f) piece.now.path in
        IfOk result (OpensTo evaluation.now works) }
{
    let path = piece.path.as_slice();
    match piece.rule {
        RuleCode::Skip => Ok(Opened::Closed),
        RuleCode::Assign { .. } => Ok(Opened::Closed),
        RuleCode::Seq(_) => Ok(Opened::Closed),
        RuleCode::Iterate(_) => Ok(Opened::Closed),
        RuleCode::Par(parts) => open_parts(alloc, evaluation, parts.as_slice(), &piece.frame, path),
        RuleCode::Forall { over, .. } => {
            let size = evaluation.view.signature.universe(*over).size();
            open_span(alloc, evaluation, &*piece, 0, size, cut)
        }
        RuleCode::If { test, yes, no } => {
            let tested = holds(evaluation.view, &piece.frame, test);
            if tested {
                open_one(alloc, evaluation, yes, piece.frame, path, 0)
            } else {
                open_one(alloc, evaluation, no, piece.frame, path, 1)
            }
        }
        RuleCode::Let { value: term, body } => {
            let value = value(evaluation.view, &piece.frame, term);
            let bound = Frame::One {
                value: value.unbranded_code(),
                outer: &piece.frame,
            };
            open_one(alloc, evaluation, body, bound, path, 0)
        }
        RuleCode::Choose {
            over,
            test,
            body,
            none,
        } => match chosen(evaluation, &piece.frame, *over, test, path) {
            Some(value) => {
                let bound = Frame::One {
                    value: value.unbranded_code(),
                    outer: &piece.frame,
                };
                open_one(alloc, evaluation, body, bound, path, 0)
            }
            None => open_one(alloc, evaluation, none, piece.frame, path, 1),
        },
        RuleCode::Call {
            body,
            answer,
            arguments,
        } => {
            let answer = optional_target_number(alloc, evaluation.view, &piece.frame, answer)?;
            let bound = Frame::Terms {
                answer,
                codes: arguments.as_slice(),
                caller: &piece.frame,
            };
            open_one(alloc, evaluation, body, bound, path, 0)
        }
    }
}

/// The one rule beneath another.
fn open_one<'a, P: Picks>(
    alloc: Global,
    evaluation: &Evaluation<'_, '_, P>,
    rule: &'a RuleCode,
    frame: Frame<'a>,
    path: &[u64],
    number: u64,
) -> Result<Opened<'a>, AllocError>
    requires sound { IsSoundRule (evaluation_shape evaluation.now) (rule_of rule.now) }
    requires framed { IsSoundFrame (evaluation_shape evaluation.now) frame }
    ensures { let shape = evaluation_shape evaluation.now in
        IfOk result (OpensTo evaluation.now (one_work (rule_of rule.now) (readings_of shape frame.entry) (frame_locations shape frame.entry) path.now number)) }
{
    let path = Path::below(alloc, path, number)?;
    let mut pieces = Vec::new(alloc);
    pieces.push(Piece {
        rule,
        frame,
        path,
        part: Part::Whole,
    })?;
    Ok(Opened::Pieces {
        pieces,
        instances: 0,
    })
}

/// The parts of a `par`.
fn open_parts<'a, P: Picks>(
    alloc: Global,
    evaluation: &Evaluation<'_, '_, P>,
    parts: &'a [RuleCode],
    frame: &Frame<'a>,
    path: &[u64],
) -> Result<Opened<'a>, AllocError>
    requires sound { AreSoundRules (evaluation_shape evaluation.now) (rules_of (map rule_of parts.now)) }
    requires framed { IsSoundFrame (evaluation_shape evaluation.now) frame.now }
    ensures { let shape = evaluation_shape evaluation.now in
        IfOk result (OpensTo evaluation.now (Some (part_works 0 (rules_of (map rule_of parts.now)) (readings_of shape frame.now) (frame_locations shape frame.now) path.now, 0))) }
{
    let mut pieces = Vec::with_capacity(alloc, parts.len())?;
    for i in 0..parts.len() {
        let path = Path::below(alloc, path, i as u64)?;
        pieces.push(Piece {
            rule: &parts[i],
            frame: *frame,
            path,
            part: Part::Whole,
        })?;
    }
    Ok(Opened::Pieces {
        pieces,
        instances: 0,
    })
}

/// What a `forall` at an interval of positions is made of.
fn open_span<'a, P: Picks>(
    alloc: Global,
    evaluation: &Evaluation<'_, '_, P>,
    piece: &'a Piece<'a>,
    from: usize,
    to: usize,
    cut: usize,
) -> Result<Opened<'a>, AllocError>
    requires cut { 0 < cut }
    requires sound { IsSoundRule (evaluation_shape evaluation.now) (rule_of piece.now.rule.now) }
    requires framed { IsSoundFrame (evaluation_shape evaluation.now) piece.now.frame }
    requires part { IsPartOf (evaluation_shape evaluation.now) (rule_of piece.now.rule.now) (part.Span from to) }
    ensures { let f = piece.now.frame in
        let works = part_opened (evaluation_shape evaluation.now) (evaluation_state evaluation.now) (evaluation_choices evaluation.now) cut (rule_of piece.now.rule.now) (readings_of (evaluation_shape evaluation.now) f) (frame_locations (evaluation_shape evaluation.now) f) piece.now.path (part.Span from to) in
        IfOk result (OpensTo evaluation.now works) }
{
    match piece.rule {
        RuleCode::Forall { over, test, body } => {
            if to - from > cut {
                return open_spans(alloc, evaluation, &*piece, from, to, cut);
            }
            open_bodies(
                alloc,
                evaluation,
                &piece.frame,
                piece.path.as_slice(),
                *over,
                test,
                body,
                from,
                to,
            )
        }
        _ => unreachable!(),
    }
}

/// Spans of at most `cut` positions.
fn open_spans<'a, P: Picks>(
    alloc: Global,
    evaluation: &Evaluation<'_, '_, P>,
    piece: &'a Piece<'a>,
    from: usize,
    to: usize,
    cut: usize,
) -> Result<Opened<'a>, AllocError>
    requires cut { 0 < cut }
    requires rises { from ≤ to }
    requires long { cut < to - from }
    requires sound { IsSoundRule (evaluation_shape evaluation.now) (rule_of piece.now.rule.now) }
    requires framed { IsSoundFrame (evaluation_shape evaluation.now) piece.now.frame }
    requires part { IsPartOf (evaluation_shape evaluation.now) (rule_of piece.now.rule.now) (part.Span from to) }
    ensures { let f = piece.now.frame in
        let works = part_opened (evaluation_shape evaluation.now) (evaluation_state evaluation.now) (evaluation_choices evaluation.now) cut (rule_of piece.now.rule.now) (readings_of (evaluation_shape evaluation.now) f) (frame_locations (evaluation_shape evaluation.now) f) piece.now.path (part.Span from to) in
        IfOk result (OpensTo evaluation.now works) }
{
    let mut pieces = Vec::with_capacity(alloc, (to - from).div_ceil(cut))?;
    let mut next = from;
    while next < to {
        let end = next + cut.min(to - next);
        let path = Path::of(alloc, piece.path.as_slice())?;
        pieces.push(Piece {
            rule: piece.rule,
            frame: piece.frame,
            path,
            part: Part::Span {
                from: next,
                to: end,
            },
        })?;
        next = end;
    }
    Ok(Opened::Pieces {
        pieces,
        instances: 0,
    })
}

/// The bodies for the values at an interval of positions for which the condition holds. Each is
/// counted.
fn open_bodies<'a, P: Picks>(
    alloc: Global,
    evaluation: &Evaluation<'_, '_, P>,
    frame: &'a Frame<'a>,
    path: &[u64],
    over: usize,
    test: &'a Option<Code>,
    body: &'a RuleCode,
    from: usize,
    to: usize,
) -> Result<Opened<'a>, AllocError>
    requires universe { IsUniverseNumber (evaluation_shape evaluation.now) over }
    requires interval { IsInterval (evaluation_shape evaluation.now) over from to }
    requires sound_test { IsSoundTest (evaluation_shape evaluation.now) (option_map code_of test.now) }
    requires sound { IsSoundRule (evaluation_shape evaluation.now) (rule_of body.now) }
    requires framed { IsSoundFrame (evaluation_shape evaluation.now) frame.now }
    ensures { let shape = evaluation_shape evaluation.now in
        let works = body_works shape (evaluation_state evaluation.now) (option_map code_of test.now) (rule_of body.now) (readings_of shape frame.now) (frame_locations shape frame.now) path.now from (between from to (universe_at shape over)) in
        IfOk result (OpensTo evaluation.now (counted_works works)) }
{
    let mut pieces = Vec::new(alloc);
    let mut instances = 0;
    let universe = evaluation.view.signature.universe(over);
    for i in from..to {
        let bound = Frame::One {
            value: universe.element(i).unbranded_code(),
            outer: frame,
        };
        if passes(evaluation.view, &bound, test) {
            let below = Path::below(alloc, path, i as u64)?;
            pieces.push(Piece {
                rule: body,
                frame: bound,
                path: below,
                part: Part::Whole,
            })?;
            instances += 1;
        }
    }
    Ok(Opened::Pieces { pieces, instances })
}
