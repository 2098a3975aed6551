//! Pieces of resolved rules: what they are opened to, and what they yield whole.
ghost use Rattle.std.specs.Prelude.{◌≡◌};
ghost use Rattle.asm_state.specs.Signature.{Shape};
ghost use Rattle.asm_code.specs.code.RuleMeaning.{IsSoundRule};
ghost use Rattle.asm_code.specs.code.RuleViews.{rule_of};
ghost use Rattle.asm_eval.specs.code.Pieces.{IsPiece};
ghost use Rattle.asm_eval.specs.code.Evaluation.{evaluation_shape};

use crate::beginning::Beginning;
use crate::plain::{Entry, ONE, TWO};
use crate::rules::{Counting, is_set, specification};
use asm_check::Checked;
use asm_code::rule_code::RuleCode;
use asm_eval::evaluation::Evaluation;
use asm_eval::frame::Frame;
use asm_eval::open::{Opened, open_piece};
use asm_eval::piece::{Piece, whole_piece};
use asm_eval::piece_positions::positions_of;
use asm_eval::rule_outcome::whole;
use asm_eval::{Choices, Part, Path};
use asm_resolve::main_rule::resolve_main;
use std::alloc::{AllocError, Global};
use std::test::Fail;

/// How many pieces something is opened to, and how many elements are counted in opening it.
type Parts = (usize, u64);

/// What a rule shows as a piece.
#[derive(Clone, Copy)]
enum Shown {
    /// It is opened to these parts, if two elements are one piece. None: it is closed.
    Parts(Option<Parts>),
    /// It is evaluated at so many positions. None: it is no `forall`.
    Positions(Option<usize>),
    /// It yields a set with so many instances and these entries, as a piece and as a rule.
    Set(u64, &'static [Entry]),
}

/// A body, and what it shows.
type Row = (&'static str, Shown);

/// A branch that is left out is a `skip`, and so is what a choice without candidates gives.
static OPENED: [Row; 15] = [
    ("skip", Shown::Parts(None)),
    ("x := 1", Shown::Parts(None)),
    ("seq skip skip endseq", Shown::Parts(None)),
    ("iterate skip enditerate", Shown::Parts(None)),
    ("while true do skip endwhile", Shown::Parts(None)),
    ("par skip skip skip endpar", Shown::Parts(Some((3, 0)))),
    (
        "forall i in Idx do skip endforall",
        Shown::Parts(Some((2, 0))),
    ),
    (
        "forall i in Empty do skip endforall",
        Shown::Parts(Some((0, 0))),
    ),
    (
        "forall k in Two with k = two do skip endforall",
        Shown::Parts(Some((1, 1))),
    ),
    ("if true then skip endif", Shown::Parts(Some((1, 0)))),
    ("if false then skip endif", Shown::Parts(Some((1, 0)))),
    ("let v = 1 in skip endlet", Shown::Parts(Some((1, 0)))),
    (
        "choose i in Empty do skip endchoose",
        Shown::Parts(Some((1, 0))),
    ),
    ("Pick(1)", Shown::Parts(Some((1, 0)))),
    ("c(1) <- Count(2)", Shown::Parts(Some((1, 0)))),
];

static EVALUATED: [Row; 3] = [
    (
        "forall i in Idx with i = 1 do skip endforall",
        Shown::Positions(Some(3)),
    ),
    (
        "forall i in Empty do skip endforall",
        Shown::Positions(Some(0)),
    ),
    (
        "par forall i in Idx do skip endforall endpar",
        Shown::Positions(None),
    ),
];

/// Two regions in a sequence. The instances are those of the `forall`.
static YIELDED: [Row; 1] = [(
    "seq forall i in Idx with i < 2 do c(i) := i + 1 endforall par x := c(0) skip endpar endseq",
    Shown::Set(2, &[(0, ONE, ONE), (1, TWO, TWO), (4, ONE, ONE)]),
)];

/// All of a rule as a piece.
fn piece_of(alloc: Global, code: &RuleCode) -> Piece<'_>
    ensures { (shape : Shape) → IsSoundRule shape (rule_of code.now) → IsPiece shape result }
{
    Piece {
        rule: code,
        frame: Frame::Empty,
        path: Path::new(Vec::new(alloc)),
        part: Part::Whole,
    }
}

/// What all of a rule is opened to.
fn parts_of(
    alloc: Global,
    code: &RuleCode,
    evaluation: &Evaluation<'_, '_, Counting>,
) -> Result<Option<Parts>, AllocError>
    requires { IsSoundRule (evaluation_shape evaluation.now) (rule_of code.now) }
{
    let piece = piece_of(alloc, code);
    match open_piece(alloc, evaluation, &piece, 2)? {
        Opened::Pieces { pieces, instances } => Ok(Some((pieces.len(), instances))),
        Opened::Closed => Ok(None),
    }
}

/// Whether a rule yields this set, as a piece and as a rule.
fn both_yield(
    alloc: Global,
    code: &RuleCode,
    evaluation: &Evaluation<'_, '_, Counting>,
    instances: u64,
    entries: &[Entry],
) -> Result<bool, AllocError>
    requires { IsSoundRule (evaluation_shape evaluation.now) (rule_of code.now) }
{
    let piece = whole_piece(alloc, evaluation, &piece_of(alloc, code))?;
    let as_piece = is_set(piece, instances, entries);
    let rule = whole(alloc, evaluation, &Frame::Empty, code, &[])?;
    Ok(as_piece && is_set(rule, instances, entries))
}

/// Whether a rule shows this.
fn shows(
    alloc: Global,
    code: &RuleCode,
    evaluation: &Evaluation<'_, '_, Counting>,
    shown: &Shown,
) -> Result<bool, AllocError>
    requires { IsSoundRule (evaluation_shape evaluation.now) (rule_of code.now) }
{
    match shown {
        Shown::Parts(parts) => Ok(parts_of(alloc, code, evaluation)? == *parts),
        Shown::Positions(positions) => {
            let piece = piece_of(alloc, code);
            Ok(positions_of(evaluation.view.signature, &piece) == *positions)
        }
        Shown::Set(instances, entries) => {
            both_yield(alloc, code, evaluation, *instances, entries)
        }
    }
}

/// Whether the main rule does in the initial state.
fn main_shows(alloc: Global, checked: &Checked, shown: &Shown) -> Result<bool, AllocError> {
    let beginning = Beginning::of(alloc, checked)?;
    let view = beginning.view();
    let picks = Counting::new();
    let choices = Choices {
        script: &picks,
        step: 1,
    };
    let evaluation = Evaluation {
        view: &view,
        choices: &choices,
        turns: 1000,
    };
    let code = resolve_main(alloc, checked)?;
    let is_so = shows(alloc, &code, &evaluation, shown);
    drop(code);
    is_so
}

/// Whether a main rule with this body does.
fn is_shown(alloc: Global, row: &Row) -> Result<bool, Fail> {
    let (body, shown) = row;
    let checked = specification(alloc, body)?;
    let is_so = main_shows(alloc, &checked, shown);
    drop(checked);
    Ok(is_so?)
}

/// The first body that shows something else.
fn first_other(alloc: Global, rows: &'static [Row]) -> Result<Option<&'static str>, Fail> {
    for row in rows {
        if !is_shown(alloc, row)? {
            return Ok(Some(row.0));
        }
    }
    Ok(None)
}

#[test]
fn each_kind_of_rule_is_opened_or_closed(rt: HostRuntime) -> Result<(), Fail> {
    assert_eq!(rt; first_other(rt.alloc(), &OPENED)?, None);
    Ok(())
}

#[test]
fn a_forall_is_evaluated_at_each_position(rt: HostRuntime) -> Result<(), Fail> {
    assert_eq!(rt; first_other(rt.alloc(), &EVALUATED)?, None);
    Ok(())
}

#[test]
fn a_piece_yields_what_its_rule_yields(rt: HostRuntime) -> Result<(), Fail> {
    assert_eq!(rt; first_other(rt.alloc(), &YIELDED)?, None);
    Ok(())
}
