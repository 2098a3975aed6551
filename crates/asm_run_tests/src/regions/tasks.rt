//! What the tasks of a region put into its table.
ghost use Rattle.std.specs.Prelude.{◌≡◌, ◌<◌, ◌+◌, All, IfOk, length};
ghost use Rattle.asm_state.specs.Signature.{count_of};
ghost use Rattle.asm_syntax.specs.code.Views.{spec_of};
ghost use Rattle.asm_check.specs.Shapes.{shape_of};
ghost use Rattle.asm_code.specs.code.RuleMeaning.{IsSoundRule};
ghost use Rattle.asm_code.specs.code.RuleViews.{rule_of};
ghost use Rattle.asm_eval.specs.code.Pieces.{IsPiece};
ghost use Rattle.asm_eval.specs.code.Evaluation.{evaluation_shape};

use asm_check::Checked;
use asm_code::rule_code::RuleCode;
use asm_eval::evaluation::Evaluation;
use asm_eval::frame::Frame;
use asm_eval::open::{Opened, open_piece};
use asm_eval::piece::Piece;
use asm_eval::{Choices, Part, Path, View};
use asm_pool::Job;
use asm_resolve::main_rule::resolve_main;
use asm_run::hand::RegionHand;
use asm_run::job::{RegionJob, RegionOut};
use asm_striped::{StripeSeat, Striped, WordsBefore};
use asm_tests::beginning::Beginning;
use asm_tests::checked_text::checked_of;
use asm_tests::plain::{Entry, FIVE, TWO, has_entries, value};
use asm_tests::rules::Counting;
use asm_updates::summary::Summary;
use std::alloc::{AllocError, Global};
use std::test::Fail;

/// Each of two assignments beside each other takes the content of the other one's location.
const SWAP: &str =
    "CoreASM T init M function controlled a initially 1 function controlled b initially 2 \
rule M = par a := b b := a endpar";

/// Runs the first task with a hand that has this seat, and gives the seat back. The task is done if
/// its piece was worked whole, and no element was counted.
fn run_first_task<'a>(
    alloc: Global,
    evaluation: &'a Evaluation<'a, 'a, Counting>,
    pieces: &'a [Piece<'a>],
    striped: &'a Striped,
    seat: StripeSeat,
) -> Result<(bool, StripeSeat), AllocError>
    requires pieces { All (IsPiece (evaluation_shape evaluation.now)) pieces.now × (0 < length pieces.now) }
    requires count { striped.now.count ≡ count_of (evaluation_shape evaluation.now) }
    requires seat { seat.table ≡ striped.now.table }
    ensures table { IfOk result (λ r. r.1.table ≡ seat.table) }
    ensures parts { IfOk result (λ r. r.1.parts ≡ seat.parts) }
{
    let mut hand = RegionHand::new(alloc, evaluation.view.signature, seat);
    let job = RegionJob::new(alloc, evaluation, pieces, None, striped);
    let is_done = matches!(job.run(0, &mut hand)?, RegionOut::Done(0));
    let RegionHand { seat, own: _ } = hand;
    Ok((is_done, seat))
}

/// What a seat finds that puts 5 at the first location, and what was put in all by this seat and
/// the other.
fn put_five(
    alloc: Global,
    striped: Striped,
    mut seat: StripeSeat,
    mut other: StripeSeat,
) -> Result<(WordsBefore, Summary), AllocError>
    requires tables { (seat.table ≡ striped.table) × (other.table ≡ striped.table) }
    requires parts { other.parts + seat.parts ≡ striped.parts }
    requires location { 0 < striped.count }
{
    let five = value(FIVE).code();
    let met = striped.put(&mut seat, 1, 0, five, five);
    striped.join(&mut other, seat);
    let set = striped.close(alloc, other)?;
    Ok((met, set))
}

/// What a seat finds that puts 5 at the location of `a` once the first task is done, and what was
/// put in all. None: it isn't done.
fn put_behind_first_task<'a>(
    alloc: Global,
    evaluation: &'a Evaluation<'a, 'a, Counting>,
    pieces: &'a [Piece<'a>],
) -> Result<Option<(WordsBefore, Summary)>, AllocError>
    requires { All (IsPiece (evaluation_shape evaluation.now)) pieces.now }
{
    let count = evaluation.view.signature.count();
    if count == 0 || pieces.is_empty() {
        return Ok(None);
    }
    let (striped, mut s) = Striped::open(alloc, count, 2)?;
    let t = striped.split(&mut s);
    let (is_done, s) = run_first_task(alloc, evaluation, pieces, &striped, s)?;
    let found = put_five(alloc, striped, t, s)?;
    Ok(is_done.then_some(found))
}

/// That for the parts of a rule.
fn put_behind_first_part(
    alloc: Global,
    evaluation: &Evaluation<'_, '_, Counting>,
    code: &RuleCode,
) -> Result<Option<(WordsBefore, Summary)>, AllocError>
    requires { IsSoundRule (evaluation_shape evaluation.now) (rule_of code.now) }
{
    let region = Piece {
        rule: code,
        frame: Frame::Empty,
        path: Path::new(Vec::new(alloc)),
        part: Part::Whole,
    };
    match open_piece(alloc, evaluation, &region, 64)? {
        Opened::Pieces { pieces, .. } => {
            put_behind_first_task(alloc, evaluation, pieces.as_slice())
        }
        Opened::Closed => Ok(None),
    }
}

/// That for the main rule.
fn put_behind_main_rule<'a>(
    alloc: Global,
    checked: &'a Checked,
    view: &'a View<'_>,
    choices: &'a Choices<'a, Counting>,
) -> Result<Option<(WordsBefore, Summary)>, AllocError>
    requires { view.now.signature.now ≡ shape_of (spec_of checked.now.spec) }
{
    let code = resolve_main(alloc, checked)?;
    let evaluation = Evaluation {
        view,
        choices,
        turns: 1000,
    };
    let found = put_behind_first_part(alloc, &evaluation, &code);
    drop(code);
    found
}

/// That in the initial state.
fn put_initially(
    alloc: Global,
    checked: &Checked,
) -> Result<Option<(WordsBefore, Summary)>, AllocError> {
    let beginning = Beginning::of(alloc, checked)?;
    let picks = Counting::new();
    let choices = Choices {
        script: &picks,
        step: 1,
    };
    put_behind_main_rule(alloc, checked, &beginning.view(), &choices)
}

/// The value 2 that the task put at the location of `a`, and the value 5 that was put after it.
const TWO_TO_FIVE: [Entry; 1] = [(0, TWO, FIVE)];

#[test]
fn job_puts(rt: HostRuntime) -> Result<(), Fail> {
    let checked = checked_of(rt.alloc(), SWAP.as_bytes())?;
    let two = value(TWO).code();
    let put = put_initially(rt.alloc(), &checked);
    drop(checked);
    let is_right = match put? {
        Some((met, set)) => {
            let met_two = met.low_before == two && met.high_before == two;
            met_two && has_entries(&set, &TWO_TO_FIVE)
        }
        None => false,
    };
    assert!(rt; is_right);
    Ok(())
}
