//! The assignments whose updates stand at a location, found by a walk over pieces.
ghost use Rattle.std.specs.Prelude.{◌≡◌, ◌<◌, List, IfOk, map};
ghost use Rattle.asm_state.specs.Signature.{count_of, location_at};
ghost use Rattle.asm_state.specs.Updates.{UpdateSet, IsConsistent, fire};
ghost use Rattle.asm_updates.specs.code.Stands.{Stands};
ghost use Rattle.asm_meaning.specs.Yields as yields;
ghost use Rattle.asm_eval.specs.declared.part.Part.TheVariants as part;
ghost use Rattle.asm_code.specs.code.RuleMeaning.{AreSoundRules, IsSoundRule};
ghost use Rattle.asm_code.specs.code.RuleTree as tree;
ghost use Rattle.asm_code.specs.code.RuleViews.{rule_of, rules_of};
ghost use Rattle.asm_eval.specs.code.Frames.{IsSoundFrame};
ghost use Rattle.asm_eval.specs.code.Pieces.{IsPiece};
ghost use Rattle.asm_eval.specs.code.Evaluation.{rule_upon, evaluation_shape, evaluation_state};
ghost use Rattle.asm_clash.specs.Standing.{Assigned, later};
ghost use Rattle.asm_clash.specs.code.FirstFound.{IsFound};
ghost use Rattle.asm_clash.specs.code.StandingRules.{IsNext, order_in, stands_at, stands_in};

use crate::assigned::assigned;
use crate::bound_values::given_in_pieces;
use crate::found::Found;
use crate::sought::Sought;
use asm_code::rule_code::RuleCode;
use asm_eval::evaluation::Evaluation;
use asm_eval::frame::Frame;
use asm_eval::laws::opening_laws;
use asm_eval::open::{Opened, open_piece};
use asm_eval::part_set::PartSet;
use asm_eval::piece::{Piece, whole_piece};
use asm_eval::piece_positions::whole_cut;
use asm_eval::{Outcome, Part, Path, View};
use asm_reader::Picks;
use asm_updates::summary::Summary;
use std::alloc::{AllocError, Global};

/// The assignments of the piece's rule whose updates stand at the location that is sought, in the
/// order of evaluation: the first, and how many there are.
#[cycle(walk)]
pub fn standing_in<'e, P: Picks>(
    alloc: Global,
    evaluation: &Evaluation<'_, '_, P>,
    piece: &'e Piece<'e>,
    sought: &Sought<'_>,
) -> Result<Found, AllocError>
    requires piece { IsPiece (evaluation_shape evaluation.now) piece.now }
    requires whole { piece.now.part ≡ part.Whole }
    requires number { sought.now.location < count_of (evaluation_shape evaluation.now) }
    ensures { let l = location_at (evaluation_shape evaluation.now) sought.now.location in
        IfOk result (IsFound sought.now.most (stands_at evaluation.now l sought.now.given.now piece.now.frame piece.now.path (rule_of piece.now.rule.now))) }
{
    opening_laws::<P>();
    let cut = whole_cut(evaluation.view.signature, piece.rule);
    let frame = &piece.frame;
    let path = piece.path.as_slice();
    match open_piece(alloc, evaluation, &*piece, cut)? {
        Opened::Pieces { pieces, .. } => {
            let mut all = Found::none(alloc);
            let given = given_in_pieces(alloc, evaluation.view, frame, piece.rule, sought.given)?;
            for i in 0..pieces.len() {
                let room = Sought {
                    location: sought.location,
                    given: given.as_slice(),
                    most: all.room(sought.most),
                };
                let found = standing_in(alloc, evaluation, &pieces[i], &room)?;
                all.append(found)?;
            }
            Ok(all)
        }
        Opened::Closed => match piece.rule {
            RuleCode::Assign { place, value } => {
                assigned(alloc, evaluation.view, frame, place, value, path, sought)
            }
            RuleCode::Seq(parts) => {
                standing_in_order(alloc, evaluation, frame, parts.as_slice(), path, sought)
            }
            RuleCode::Iterate(body) => standing_in_turns(
                alloc, evaluation, frame, body, path, sought,
            ),
            _ => Ok(Found::none(alloc)),
        },
    }
}

/// The same of the parts one after the other, up to the first that is exhausted or whose set is
/// faulty.
#[cycle(walk)]
fn standing_in_order<'e, P: Picks>(
    alloc: Global,
    evaluation: &Evaluation<'_, '_, P>,
    frame: &'e Frame<'e>,
    parts: &'e [RuleCode],
    path: &[u64],
    sought: &Sought<'_>,
) -> Result<Found, AllocError>
    requires sound { AreSoundRules (evaluation_shape evaluation.now) (rules_of (map rule_of parts.now)) }
    requires framed { IsSoundFrame (evaluation_shape evaluation.now) frame.now }
    requires number { sought.now.location < count_of (evaluation_shape evaluation.now) }
    ensures { let l = location_at (evaluation_shape evaluation.now) sought.now.location in
        IfOk result (IsFound sought.now.most (order_in evaluation.now l sought.now.given.now frame.now path.now 0 (rules_of (map rule_of parts.now)) (evaluation_state evaluation.now))) }
{
    let mut so_far = Summary::new(alloc, evaluation.view.signature.count());
    let mut found = Found::none(alloc);
    for i in 0..parts.len() {
        let rule = &parts[i];
        let number = i as u64;
        let next = standing_next(
            alloc,
            evaluation,
            frame,
            rule,
            path,
            number,
            sought,
            &mut so_far,
            &mut found,
        )?;
        let Some(part) = next else {
            return Ok(found);
        };
        if part.ends_parts() {
            return Ok(found);
        }
    }
    Ok(found)
}

/// The same of turns of the body one after the other, up to the first that is exhausted or whose set
/// is empty or faulty.
#[cycle(walk)]
fn standing_in_turns<'e, P: Picks>(
    alloc: Global,
    evaluation: &Evaluation<'_, '_, P>,
    frame: &'e Frame<'e>,
    body: &'e RuleCode,
    path: &[u64],
    sought: &Sought<'_>,
) -> Result<Found, AllocError>
    requires sound { IsSoundRule (evaluation_shape evaluation.now) (rule_of body.now) }
    requires framed { IsSoundFrame (evaluation_shape evaluation.now) frame.now }
    requires number { sought.now.location < count_of (evaluation_shape evaluation.now) }
    ensures { let l = location_at (evaluation_shape evaluation.now) sought.now.location in
        IfOk result (IsFound sought.now.most (stands_at evaluation.now l sought.now.given.now frame.now path.now (tree.Iterate (rule_of body.now)))) }
{
    let mut so_far = Summary::new(alloc, evaluation.view.signature.count());
    let mut found = Found::none(alloc);
    for turn in 0..evaluation.turns {
        let number = u64::from(turn);
        let next = standing_next(
            alloc,
            evaluation,
            frame,
            body,
            path,
            number,
            sought,
            &mut so_far,
            &mut found,
        )?;
        let Some(part) = next else {
            return Ok(found);
        };
        if part.ends_turns() {
            return Ok(found);
        }
    }
    Ok(found)
}

/// Goes on with the part with this number, in the state in which the set so far has been fired, and
/// says what its set is: none if it is exhausted.
#[cycle(walk)]
fn standing_next<'e, P: Picks>(
    alloc: Global,
    evaluation: &Evaluation<'_, '_, P>,
    frame: &'e Frame<'e>,
    rule: &'e RuleCode,
    path: &[u64],
    number: u64,
    sought: &Sought<'_>,
    so_far: &mut Summary,
    found: &mut Found,
) -> Result<Option<PartSet>, AllocError>
    requires sound { IsSoundRule (evaluation_shape evaluation.now) (rule_of rule.now) }
    requires framed { IsSoundFrame (evaluation_shape evaluation.now) frame.now }
    requires number { sought.now.location < count_of (evaluation_shape evaluation.now) }
    requires so_far { so_far.old.count ≡ count_of (evaluation_shape evaluation.now) }
    ensures count { so_far.new.count ≡ so_far.old.count }
    ensures next { let p = yields.at path.now number in
        let l = location_at (evaluation_shape evaluation.now) sought.now.location in
        IfOk result (λ part. (U : UpdateSet) (before : List Assigned) → Stands (evaluation_shape evaluation.now) so_far.old U → IsConsistent U → IsFound sought.now.most before found.old →
        IsFound sought.now.most (later before (stands_in evaluation.now l sought.now.given.now frame.now p (rule_of rule.now) (fire (evaluation_state evaluation.now) U))) found.new ×
        IsNext (evaluation_shape evaluation.now) U (rule_upon evaluation.now U frame.now p (rule_of rule.now)).result so_far.new part) }
{
    let path = Path::below(alloc, path, number)?;
    let piece = Piece {
        rule,
        frame: *frame,
        path,
        part: Part::Whole,
    };
    let view = View::upon(evaluation.view, so_far);
    let inner = Evaluation {
        view: &view,
        choices: evaluation.choices,
        turns: evaluation.turns,
    };
    let own = standing_in(alloc, &inner, &piece, sought)?;
    found.put_later(own);
    let outcome = whole_piece(alloc, &inner, &piece)?;
    match outcome {
        Outcome::Exhausted(_) => Ok(None),
        Outcome::Set { set, .. } => {
            let part = PartSet::of(evaluation.view.signature, &set);
            so_far.merge_with(&set)?;
            Ok(Some(part))
        }
    }
}
