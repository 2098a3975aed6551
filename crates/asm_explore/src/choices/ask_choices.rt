//! The choices that are made in a piece of a resolved rule, in their order.
ghost use Rattle.std.specs.Prelude.{◌≡◌, ◌<◌, ◌++◌, true, map, option_map, IfOk, OnOk};
ghost use Rattle.asm_state.specs.Signature.{count_of};
ghost use Rattle.asm_state.specs.Updates.{UpdateSet, IsConsistent, fire};
ghost use Rattle.asm_updates.specs.code.Stands.{Stands};
ghost use Rattle.asm_eval.specs.code.FormedOutcomes.{IsFormed};
ghost use Rattle.asm_meaning.specs.Yields as yields;
ghost use Rattle.asm_eval.specs.declared.part.Part.TheVariants as part;
ghost use Rattle.asm_code.specs.code.CodeViews.{code_of};
ghost use Rattle.asm_code.specs.code.RuleMeaning.{AreSoundRules, IsSoundRule, IsSoundTest};
ghost use Rattle.asm_code.specs.code.RuleTree as tree;
ghost use Rattle.asm_code.specs.code.RuleViews.{rule_of, rules_of};
ghost use Rattle.asm_code.specs.code.SoundCodes.{IsUniverseNumber};
ghost use Rattle.asm_eval.specs.code.Frames.{IsSoundFrame};
ghost use Rattle.asm_eval.specs.code.OpenedPieces.{is_closed};
ghost use Rattle.asm_eval.specs.code.Pieces.{IsPiece};
ghost use Rattle.asm_eval.specs.code.Evaluation.{evaluation_choices, passing_in, rule_upon, evaluation_shape, evaluation_state};
ghost use Rattle.asm_explore.specs.code.AskedPieces.{HasCount, IsUpon, all_said, asks_at, own_at, own_choice, piece_asks};

use crate::choices::choice_point::ChoicePoint;
use crate::outcomes::candidates::candidates;
use crate::outcomes::listed_outcome::Choice;
use asm_code::code::Code;
use asm_code::rule_code::RuleCode;
use asm_eval::evaluation::Evaluation;
use asm_eval::frame::Frame;
use asm_eval::open::{Opened, open_piece};
use asm_eval::part_set::PartSet;
use asm_eval::piece::{Piece, whole_piece};
use asm_eval::piece_positions::whole_cut;
use asm_eval::{Outcome, Part, Path, View};
use asm_reader::Picks;
use asm_updates::summary::Summary;
use std::alloc::{AllocError, Global};

/// Adds the choice that a `choose` makes, if it has candidates.
fn add_choice<'e, P: Picks>(
    alloc: Global,
    evaluation: &Evaluation<'_, '_, P>,
    frame: &'e Frame<'e>,
    over: usize,
    test: &'e Option<Code>,
    path: &[u64],
    into: &mut Vec<ChoicePoint>,
) -> Result<(), AllocError>
    requires universe { IsUniverseNumber (evaluation_shape evaluation.now) over }
    requires sound { IsSoundTest (evaluation_shape evaluation.now) (option_map code_of test.now) }
    requires framed { IsSoundFrame (evaluation_shape evaluation.now) frame.now }
    ensures { OnOk result (all_said into.new.items ≡ all_said into.old.items ++ own_choice path.now (evaluation_choices evaluation.now path.now) (passing_in evaluation.now.view.now frame.now over test.now)) }
{
    let candidates = candidates(alloc, evaluation.view, frame, over, test)?;
    let many = candidates.len() as u64;
    if many == 0 {
        return Ok(());
    }
    let choices = evaluation.choices;
    let number = choices.script.pick(choices.step, path) % many;
    let path = Path::of(alloc, path)?;
    into.push(ChoicePoint {
        choice: Choice { path, number },
        candidates,
    })?;
    Ok(())
}

/// Adds the choice that the rule of a piece makes itself.
fn add_own<P: Picks>(
    alloc: Global,
    evaluation: &Evaluation<'_, '_, P>,
    piece: &Piece<'_>,
    into: &mut Vec<ChoicePoint>,
) -> Result<(), AllocError>
    requires { IsPiece (evaluation_shape evaluation.now) piece.now }
    ensures { OnOk result (all_said into.new.items ≡ all_said into.old.items ++ own_at evaluation.now piece.now) }
{
    match piece.rule {
        RuleCode::Choose { over, test, .. } => {
            let path = piece.path.as_slice();
            add_choice(alloc, evaluation, &piece.frame, *over, test, path, into)
        }
        _ => Ok(()),
    }
}

/// Adds the choices that are made in a piece which has all of its rule.
#[cycle(asking)]
pub(crate) fn add_asked<'e, P: Picks>(
    alloc: Global,
    evaluation: &Evaluation<'_, '_, P>,
    piece: &'e Piece<'e>,
    into: &mut Vec<ChoicePoint>,
) -> Result<(), AllocError>
    requires piece { IsPiece (evaluation_shape evaluation.now) piece.now }
    requires whole { piece.now.part ≡ part.Whole }
    ensures { OnOk result (all_said into.new.items ≡ all_said into.old.items ++ piece_asks evaluation.now piece.now) }
{
    add_own(alloc, evaluation, piece, into)?;
    let cut = whole_cut(evaluation.view.signature, piece.rule);
    match open_piece(alloc, evaluation, &*piece, cut)? {
        Opened::Pieces { pieces, .. } => {
            for i in 0..pieces.len() {
                add_asked(alloc, evaluation, &pieces[i], into)?;
            }
            Ok(())
        }
        Opened::Closed => add_closed(alloc, evaluation, piece, into),
    }
}

/// Adds the choices that are made in a piece that isn't opened.
#[cycle(asking)]
fn add_closed<'e, P: Picks>(
    alloc: Global,
    evaluation: &Evaluation<'_, '_, P>,
    piece: &'e Piece<'e>,
    into: &mut Vec<ChoicePoint>,
) -> Result<(), AllocError>
    requires piece { IsPiece (evaluation_shape evaluation.now) piece.now }
    requires closed { is_closed (rule_of piece.now.rule.now) ≡ true }
    ensures { OnOk result (all_said into.new.items ≡ all_said into.old.items ++ piece_asks evaluation.now piece.now) }
{
    let path = piece.path.as_slice();
    match piece.rule {
        RuleCode::Seq(parts) => {
            add_in_order(
                alloc,
                evaluation,
                &piece.frame,
                parts.as_slice(),
                path,
                into,
            )
        }
        RuleCode::Iterate(body) => add_turns(alloc, evaluation, &piece.frame, body, path, into),
        RuleCode::Skip => Ok(()),
        RuleCode::Assign { .. } => Ok(()),
        _ => unreachable!(),
    }
}

/// Adds those of parts one after the other, up to the first whose set is faulty.
#[cycle(asking)]
fn add_in_order<'e, P: Picks>(
    alloc: Global,
    evaluation: &Evaluation<'_, '_, P>,
    frame: &'e Frame<'e>,
    parts: &'e [RuleCode],
    path: &[u64],
    into: &mut Vec<ChoicePoint>,
) -> Result<(), AllocError>
    requires sound { AreSoundRules (evaluation_shape evaluation.now) (rules_of (map rule_of parts.now)) }
    requires framed { IsSoundFrame (evaluation_shape evaluation.now) frame.now }
    ensures { let R = tree.Seq (rules_of (map rule_of parts.now)) in
        OnOk result (all_said into.new.items ≡ all_said into.old.items ++ asks_at evaluation.now frame.now path.now R (evaluation_state evaluation.now)) }
{
    let mut so_far = Summary::new(alloc, evaluation.view.signature.count());
    for i in 0..parts.len() {
        let number = i as u64;
        let next = add_next(
            alloc,
            evaluation,
            frame,
            &parts[i],
            number,
            path,
            &mut so_far,
            into,
        )?;
        let Some(part) = next else {
            return Ok(());
        };
        if part.ends_parts() {
            return Ok(());
        }
    }
    Ok(())
}

/// Adds those of turns one after the other, up to the first whose set is empty or faulty.
#[cycle(asking)]
fn add_turns<'e, P: Picks>(
    alloc: Global,
    evaluation: &Evaluation<'_, '_, P>,
    frame: &'e Frame<'e>,
    body: &'e RuleCode,
    path: &[u64],
    into: &mut Vec<ChoicePoint>,
) -> Result<(), AllocError>
    requires sound { IsSoundRule (evaluation_shape evaluation.now) (rule_of body.now) }
    requires framed { IsSoundFrame (evaluation_shape evaluation.now) frame.now }
    ensures { let R = tree.Iterate (rule_of body.now) in
        OnOk result (all_said into.new.items ≡ all_said into.old.items ++ asks_at evaluation.now frame.now path.now R (evaluation_state evaluation.now)) }
{
    let mut so_far = Summary::new(alloc, evaluation.view.signature.count());
    for turn in 0..evaluation.turns {
        let number = u64::from(turn);
        let next = add_next(
            alloc,
            evaluation,
            frame,
            body,
            number,
            path,
            &mut so_far,
            into,
        )?;
        let Some(part) = next else {
            return Ok(());
        };
        if part.ends_turns() {
            return Ok(());
        }
    }
    Ok(())
}

/// Adds those of the part with this number, in the state in which the set so far has been fired,
/// and joins its set to that. There is none if the part is exhausted.
#[cycle(asking)]
fn add_next<'e, P: Picks>(
    alloc: Global,
    evaluation: &Evaluation<'_, '_, P>,
    frame: &'e Frame<'e>,
    rule: &'e RuleCode,
    number: u64,
    path: &[u64],
    so_far: &mut Summary,
    into: &mut Vec<ChoicePoint>,
) -> Result<Option<PartSet>, AllocError>
    requires sound { IsSoundRule (evaluation_shape evaluation.now) (rule_of rule.now) }
    requires framed { IsSoundFrame (evaluation_shape evaluation.now) frame.now }
    requires counted { so_far.old.count ≡ count_of (evaluation_shape evaluation.now) }
    ensures counted { so_far.new.count ≡ so_far.old.count }
    ensures upon { (U : UpdateSet) → Stands (evaluation_shape evaluation.now) so_far.old U → IsConsistent U →
        IfOk result (IsUpon evaluation.now frame.now (yields.at path.now number) (rule_of rule.now) U so_far.new (all_said into.old.items) (all_said into.new.items)) }
{
    let path = Path::below(alloc, path, number)?;
    let piece = Piece {
        rule,
        frame: *frame,
        path,
        part: Part::Whole,
    };
    match asked_upon(alloc, evaluation, &piece, so_far, into)? {
        Outcome::Exhausted(_) => Ok(None),
        Outcome::Set { set, .. } => {
            let part = PartSet::of(evaluation.view.signature, &set);
            so_far.merge_with(&set)?;
            Ok(Some(part))
        }
    }
}

/// Adds those of a piece in the state in which the set so far has been fired, and returns what it
/// yields there.
#[cycle(asking)]
fn asked_upon<'e, P: Picks>(
    alloc: Global,
    evaluation: &Evaluation<'_, '_, P>,
    piece: &'e Piece<'e>,
    so_far: &Summary,
    into: &mut Vec<ChoicePoint>,
) -> Result<Outcome, AllocError>
    requires piece { IsPiece (evaluation_shape evaluation.now) piece.now }
    requires whole { piece.now.part ≡ part.Whole }
    requires counted { so_far.now.count ≡ count_of (evaluation_shape evaluation.now) }
    ensures asked { (U : UpdateSet) → Stands (evaluation_shape evaluation.now) so_far.now U → IsConsistent U →
        OnOk result (all_said into.new.items ≡ all_said into.old.items ++ asks_at evaluation.now piece.now.frame piece.now.path (rule_of piece.now.rule.now) (fire (evaluation_state evaluation.now) U)) }
    ensures counted { IfOk result (HasCount (count_of (evaluation_shape evaluation.now))) }
    ensures formed { (U : UpdateSet) → Stands (evaluation_shape evaluation.now) so_far.now U → IsConsistent U →
        IfOk result (IsFormed (evaluation_shape evaluation.now) (rule_upon evaluation.now U piece.now.frame piece.now.path (rule_of piece.now.rule.now))) }
{
    let view = View::upon(evaluation.view, so_far);
    let inner = Evaluation {
        view: &view,
        choices: evaluation.choices,
        turns: evaluation.turns,
    };
    add_asked(alloc, &inner, piece, into)?;
    let outcome = whole_piece(alloc, &inner, piece)?;
    Ok(outcome)
}
