//! What rules yield in the initial state, how often a `choose` asks for its number, and what is
//! formed after other updates.
ghost use Rattle.std.specs.Prelude.{◌≡◌, IfOk};

use super::{form_main, outcome_at};
use crate::beginning::Beginning;
use crate::plain::{Entry, ONE, Plain, TWO, has_entries, summary_of};
use crate::rules::{
    ASKING, Asking, Counting, YIELDED, Yielded, is_exhausted, is_set, specification,
};
use asm_check::Checked;
use asm_eval::evaluation::Evaluation;
use asm_eval::{Choices, Forming, Outcome};
use std::alloc::{AllocError, Global};
use std::test::Fail;

/// What the main rule yields at this path in the initial state.
fn outcome_of(
    alloc: Global,
    checked: &Checked,
    picks: &Counting,
    path: &[u64],
) -> Result<Outcome, AllocError> {
    let beginning = Beginning::of(alloc, checked)?;
    let view = beginning.view();
    let choices = Choices {
        script: picks,
        step: 1,
    };
    outcome_at(alloc, checked, &view, &choices, path, 1000)
}

/// What a main rule with this body yields, and how often it asks.
fn yielded(alloc: Global, body: &str, path: &[u64]) -> Result<(Outcome, u64), Fail> {
    let checked = specification(alloc, body)?;
    let picks = Counting::new();
    let outcome = outcome_of(alloc, &checked, &picks, path);
    drop(checked);
    Ok((outcome?, picks.times()))
}

/// How often a body asks.
fn asked(alloc: Global, body: &str) -> Result<u64, Fail> {
    let (_outcome, asked) = yielded(alloc, body, &[])?;
    Ok(asked)
}

/// The first body that asks more often or less.
fn first_asking(alloc: Global, rows: &'static [Asking]) -> Result<Option<&'static str>, Fail> {
    for (body, times) in rows {
        if asked(alloc, body)? != *times {
            return Ok(Some(*body));
        }
    }
    Ok(None)
}

#[test]
fn a_choose_with_candidates_asks_once(rt: HostRuntime) -> Result<(), Fail> {
    assert_eq!(rt; first_asking(rt.alloc(), &ASKING)?, None);
    Ok(())
}

/// Whether a body asks so often, and yields the set with these instances and entries.
fn yields(alloc: Global, row: &Yielded) -> Result<bool, Fail> {
    let (body, times, instances, entries) = row;
    let (outcome, asked) = yielded(alloc, body, &[])?;
    Ok(asked == *times && is_set(outcome, *instances, entries))
}

/// The first body that yields something else.
fn first_yielding(alloc: Global, rows: &'static [Yielded]) -> Result<Option<&'static str>, Fail> {
    for row in rows {
        if !yields(alloc, row)? {
            return Ok(Some(row.0));
        }
    }
    Ok(None)
}

#[test]
fn a_rule_yields_its_set_and_its_instances(rt: HostRuntime) -> Result<(), Fail> {
    assert_eq!(rt; first_yielding(rt.alloc(), &YIELDED)?, None);
    Ok(())
}

/// A body, and the path at which it is exhausted if it is at the path 4.2.
type Exhausted = (&'static str, &'static [u64]);

static EXHAUSTED: [Exhausted; 9] = [
    ("iterate x := 1 enditerate", &[4, 2]),
    ("par skip iterate x := 1 enditerate endpar", &[4, 2, 1]),
    (
        "seq x := 0 skip iterate x := 1 enditerate endseq",
        &[4, 2, 2],
    ),
    (
        "if x = 1 then skip else iterate x := 1 enditerate endif",
        &[4, 2, 1],
    ),
    (
        "forall i in Idx with i > 0 do iterate x := 1 enditerate endforall",
        &[4, 2, 1],
    ),
    (
        "choose i in Empty do skip ifnone iterate x := 1 enditerate endchoose",
        &[4, 2, 1],
    ),
    (
        "let i = 1 in choose j in Idx do while true do x := j endwhile endchoose endlet",
        &[4, 2, 0, 0],
    ),
    (
        "iterate par x := 1 iterate x := 2 enditerate endpar enditerate",
        &[4, 2, 0, 1],
    ),
    (
        "par skip seq x := 0 forall i in Idx with i > 0 do iterate c(i) := 1 enditerate endforall \
endseq par x := 1 x := 2 endpar endpar",
        &[4, 2, 1, 1, 1],
    ),
];

/// Whether a body is exhausted at this path.
fn exhausts(alloc: Global, body: &str, path: &[u64]) -> Result<bool, Fail> {
    let (outcome, _) = yielded(alloc, body, &[4, 2])?;
    Ok(is_exhausted(outcome, path))
}

/// The first body that is exhausted at another path, or isn't.
fn first_exhausted(
    alloc: Global,
    rows: &'static [Exhausted],
) -> Result<Option<&'static str>, Fail> {
    for (body, path) in rows {
        if !exhausts(alloc, body, path)? {
            return Ok(Some(*body));
        }
    }
    Ok(None)
}

#[test]
fn an_exhausted_rule_yields_its_path(rt: HostRuntime) -> Result<(), Fail> {
    assert_eq!(rt; first_exhausted(rt.alloc(), &EXHAUSTED)?, None);
    Ok(())
}

/// A set with two locations, five instances, and a path.
fn formed_before(alloc: Global, count: usize) -> Result<Forming, AllocError>
    ensures { IfOk result (λ made. made.set.count ≡ count) }
{
    Ok(Forming {
        set: summary_of(alloc, count, &[(1, TWO, TWO), (4, ONE, ONE)])?,
        instances: 5,
        path: vec![in alloc; 3u64]?,
        spare: Vec::new(alloc),
    })
}

/// Forms what the main rule yields after that.
fn formed_behind(alloc: Global, checked: &Checked) -> Result<Forming, Fail> {
    let beginning = Beginning::of(alloc, checked)?;
    let view = beginning.view();
    let picks = Counting::new();
    let choices = Choices {
        script: &picks,
        step: 1,
    };
    let evaluation = Evaluation {
        view: &view,
        choices: &choices,
        turns: 1,
    };
    let mut forming = formed_before(alloc, view.signature.count())?;
    match form_main(alloc, checked, &evaluation, &mut forming)? {
        Ok(()) => Ok(forming),
        Err(_) => Err(Fail::new("the rule gives a set")),
    }
}

/// Updates of the same two locations and of one more, and three instances.
const BESIDE: &str = "par x := 2 seq c(1) := 2 c(1) := 1 endseq c(2) := c(1) \
forall i in Idx do skip endforall endpar";

/// The bounds of both.
const WIDENED: [Entry; 3] = [
    (1, ONE, TWO),
    (2, Plain::Undef, Plain::Undef),
    (4, ONE, TWO),
];

/// Forms what a main rule with this body yields after that.
fn formed_by(alloc: Global, body: &str) -> Result<Forming, Fail> {
    let checked = specification(alloc, body)?;
    let formed = formed_behind(alloc, &checked);
    drop(checked);
    formed
}

/// Whether that comes to what was formed before.
fn is_added(alloc: Global) -> Result<bool, Fail> {
    let forming = formed_by(alloc, BESIDE)?;
    let counted = forming.instances == 8 && forming.path.as_slice() == [3u64].as_slice();
    Ok(counted && has_entries(&forming.set, &WIDENED))
}

#[test]
fn what_a_rule_yields_is_added(rt: HostRuntime) -> Result<(), Fail> {
    assert!(rt; is_added(rt.alloc())?);
    Ok(())
}
