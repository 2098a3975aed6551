//! The outcomes of each kind of rule.
use crate::question::{ANY, Asked, joined, told_of};
use crate::told::{Told, Verdict};
use asm_explore::Fault;
use std::alloc::Global;
use std::test::Fail;

/// What is before the main rule's body. Each location begins with 0.
const BEFORE: &str = "CoreASM T init M enum Color = { red, green, blue } \
universe Bit = 0 .. 1 universe Few = 0 .. 2 universe Empty = 1 .. 0 \
function controlled x initially 0 function controlled y initially 0 \
function controlled c : Few initially 0 \
derived isFirst = x = 0 and y = 0 \
rule Pick(n) = choose i in Few do result := i + n endchoose \
rule Late(n) = seq choose i in Bit do x := i + 1 endchoose y := n x := 5 endseq \
rule M = ";

/// A main rule's body, how many outcomes it has in the first state, and the states in which a run
/// may be after one step at most: how many, and a condition that is true in them.
type Row = (&'static str, usize, usize, &'static str);

static LEAVES: [Row; 2] = [
    ("skip", 1, 1, "isFirst"),
    ("x := 1", 1, 2, "x <= 1 and y = 0"),
];

static CHOICES: [Row; 13] = [
    (
        "choose i in Few do x := i endchoose",
        3,
        3,
        "x <= 2 and y = 0",
    ),
    (
        "choose k in Color do x := k endchoose",
        3,
        4,
        "(x = 0 or x = red or x = green or x = blue) and y = 0",
    ),
    (
        "choose i in Few with i > 0 do x := i + 2 endchoose",
        2,
        3,
        "isFirst or (x = 3 or x = 4) and y = 0",
    ),
    (
        "choose i in Few with i > 2 do x := i endchoose",
        1,
        1,
        "isFirst",
    ),
    (
        "choose i in Few with i > 0 do x := i ifnone x := 9 endchoose",
        2,
        3,
        "x <= 2 and y = 0",
    ),
    (
        "choose i in Few with i > 2 do skip ifnone \
choose j in Bit do x := 7 + j endchoose endchoose",
        2,
        3,
        "isFirst or (x = 7 or x = 8) and y = 0",
    ),
    ("choose i in Empty do x := 1 endchoose", 1, 1, "isFirst"),
    (
        "choose i in Empty do x := 1 ifnone x := 9 endchoose",
        1,
        2,
        "isFirst or x = 9 and y = 0",
    ),
    // No candidate of the inner one comes after the last of the outer one.
    (
        "choose i in Few do choose j in Few with j > i do par x := i + 1 y := j endpar \
endchoose endchoose",
        4,
        4,
        "isFirst or x = 1 and y = 1 or x = 1 and y = 2 or x = 2 and y = 2",
    ),
    (
        "choose i in Few do choose j in Few with j > i do x := j ifnone x := 9 endchoose endchoose",
        3,
        4,
        "(x <= 2 or x = 9) and y = 0",
    ),
    // Equal results are listed once, whatever the order of their updates.
    (
        "choose i in Few do x := 5 endchoose",
        1,
        2,
        "isFirst or x = 5 and y = 0",
    ),
    (
        "choose i in Few do x := i mod 2 endchoose",
        2,
        2,
        "x <= 1 and y = 0",
    ),
    (
        "choose i in Bit do if i = 0 then par x := 1 y := 2 endpar else par y := 2 x := 1 endpar \
endif endchoose",
        1,
        2,
        "isFirst or x = 1 and y = 2",
    ),
];

static CONDITIONS_AND_VALUES: [Row; 5] = [
    (
        "if x = 0 then choose i in Bit do y := i + 1 endchoose else y := 9 endif",
        2,
        3,
        "x = 0 and y <= 2",
    ),
    (
        "if x = 1 then y := 9 else choose i in Bit do y := i + 1 endchoose endif",
        2,
        3,
        "x = 0 and y <= 2",
    ),
    (
        "if x = 1 then choose i in Bit do y := i + 1 endchoose endif",
        1,
        1,
        "isFirst",
    ),
    (
        "let v = 1 in choose i in Few with i >= v do x := i + v endchoose endlet",
        2,
        3,
        "isFirst or (x = 2 or x = 3) and y = 0",
    ),
    // The value is that of the first state.
    (
        "let v = x in seq x := 5 choose i in Bit do y := v + i endchoose endseq endlet",
        2,
        3,
        "isFirst or x = 5 and y <= 1",
    ),
];

static BESIDE: [Row; 9] = [
    (
        "par choose i in Few do x := i endchoose choose j in Bit do y := j endchoose endpar",
        6,
        6,
        "x <= 2 and y <= 1",
    ),
    (
        "par choose i in Bit do x := 1 endchoose choose j in Bit do x := 1 endchoose endpar",
        1,
        2,
        "x <= 1 and y = 0",
    ),
    (
        "par choose i in Bit do if i = 1 then x := 1 endif endchoose \
choose j in Bit do if j = 1 then x := 1 endif endchoose skip endpar",
        2,
        2,
        "x <= 1 and y = 0",
    ),
    (
        "par choose i in Bit do x := i endchoose y := 1 \
choose j in Bit do c(0) := j endchoose endpar",
        4,
        5,
        "isFirst and c(0) = 0 or x <= 1 and y = 1 and c(0) <= 1",
    ),
    (
        "forall i in Few do choose j in Bit do c(i) := j endchoose endforall",
        8,
        8,
        "isFirst and (forall i in Few holds c(i) <= 1)",
    ),
    (
        "forall i in Few with i != 1 do choose j in Bit do c(i) := j + 1 endchoose endforall",
        4,
        5,
        "isFirst and c(1) = 0 and c(0) <= 2 and c(2) <= 2 and (c(0) = 0) = (c(2) = 0)",
    ),
    (
        "forall i in Empty do choose j in Bit do x := j endchoose endforall",
        1,
        1,
        "isFirst",
    ),
    (
        "forall i in Few do choose j in Bit do if j = 1 then x := 1 endif endchoose endforall",
        2,
        2,
        "x <= 1 and y = 0",
    ),
    (
        "choose j in Bit do forall i in Few do c(i) := j + i endforall endchoose",
        2,
        3,
        "isFirst and ((forall i in Few holds c(i) = 0) or (forall i in Few holds c(i) = i) or \
(forall i in Few holds c(i) = i + 1))",
    ),
];

static SEQUENCES: [Row; 8] = [
    (
        "seq choose i in Few do x := i + 1 endchoose y := x * 2 endseq",
        3,
        4,
        "x <= 3 and y = 2 * x",
    ),
    (
        "seq choose i in Few do x := i endchoose \
choose j in Few with j > x do y := j endchoose endseq",
        4,
        5,
        "isFirst or x = 0 and y = 1 or x = 0 and y = 2 or x = 1 and y = 2 or x = 2 and y = 0",
    ),
    // What is written over makes no difference.
    (
        "seq choose i in Few do x := i endchoose x := 7 endseq",
        1,
        2,
        "isFirst or x = 7 and y = 0",
    ),
    (
        "seq choose i in Bit do x := i endchoose choose i in Bit do y := i endchoose \
x := x + y endseq",
        4,
        4,
        "isFirst or x = 1 and y <= 1 or x = 2 and y = 1",
    ),
    (
        "seq x := 0 iterate choose i in Few with i > x do x := i endchoose enditerate endseq",
        1,
        2,
        "(x = 0 or x = 2) and y = 0",
    ),
    // Each turn may be the last.
    (
        "iterate choose i in Bit do if i = 1 and x < 3 then x := x + 1 endif endchoose enditerate",
        4,
        4,
        "x <= 3 and y = 0",
    ),
    (
        "while x < 3 do choose i in Bit do x := x + 1 + i endchoose endwhile",
        2,
        3,
        "isFirst or (x = 3 or x = 4) and y = 0",
    ),
    (
        "forall i in Bit do iterate choose j in Bit do if j = 1 and c(i) < 2 then c(i) := c(i) + 1 \
endif endchoose enditerate endforall",
        9,
        9,
        "isFirst and c(0) <= 2 and c(1) <= 2 and c(2) = 0",
    ),
];

static CALLS: [Row; 4] = [
    ("x <- Pick(1)", 3, 4, "x <= 3 and y = 0"),
    (
        "c(x + 1) <- Pick(1)",
        3,
        4,
        "isFirst and c(0) = 0 and c(1) <= 3 and c(2) = 0",
    ),
    (
        "seq x <- Pick(0) y <- Pick(x) endseq",
        9,
        9,
        "x <= 2 and x <= y and y <= x + 2",
    ),
    // The term stands by its name, so its value is that after the choice.
    ("Late(x)", 2, 3, "isFirst or x = 5 and (y = 1 or y = 2)"),
];

/// What is told of a main rule with this body.
fn told_of_body(alloc: Global, body: &str, asked: &Asked) -> Result<Told, Fail> {
    let text = joined(alloc, BEFORE, body)?;
    let told = told_of(alloc, text.as_str(), asked);
    drop(text);
    told
}

/// That of its first step, if each state satisfies a condition.
fn told_of_step(alloc: Global, body: &str, always: &'static str) -> Result<Told, Fail> {
    let asked = Asked {
        always,
        turns: 10,
        steps: 1,
        ..ANY
    };
    told_of_body(alloc, body, &asked)
}

/// Whether a body has just its outcomes.
fn has_its_outcomes(alloc: Global, row: &Row) -> Result<bool, Fail> {
    let (body, outcomes, states, condition) = row;
    let told = told_of_step(alloc, body, condition)?;
    let is_safe = matches!(told.verdict, Verdict::Closed | Verdict::SafeTo(1));
    Ok(is_safe && told.outcomes == *outcomes && told.widest == *outcomes && told.states == *states)
}

/// The first body that has others.
fn first_other(alloc: Global, rows: &'static [Row]) -> Result<Option<&'static str>, Fail> {
    for row in rows {
        if !has_its_outcomes(alloc, row)? {
            return Ok(Some(row.0));
        }
    }
    Ok(None)
}

#[test]
fn leaves_have_one_outcome(rt: HostRuntime) -> Result<(), Fail> {
    assert_eq!(rt; first_other(rt.alloc(), &LEAVES)?, None);
    Ok(())
}

#[test]
fn a_choose_has_those_of_its_candidates(rt: HostRuntime) -> Result<(), Fail> {
    assert_eq!(rt; first_other(rt.alloc(), &CHOICES)?, None);
    Ok(())
}

#[test]
fn an_if_and_a_let_have_those_of_a_part(rt: HostRuntime) -> Result<(), Fail> {
    assert_eq!(rt; first_other(rt.alloc(), &CONDITIONS_AND_VALUES)?, None);
    Ok(())
}

#[test]
fn what_stands_beside_each_other_has_pairs(rt: HostRuntime) -> Result<(), Fail> {
    assert_eq!(rt; first_other(rt.alloc(), &BESIDE)?, None);
    Ok(())
}

#[test]
fn sequences_go_on_from_each_outcome(rt: HostRuntime) -> Result<(), Fail> {
    assert_eq!(rt; first_other(rt.alloc(), &SEQUENCES)?, None);
    Ok(())
}

#[test]
fn calls_have_those_of_their_rules(rt: HostRuntime) -> Result<(), Fail> {
    assert_eq!(rt; first_other(rt.alloc(), &CALLS)?, None);
    Ok(())
}

/// A main rule's body, what is wrong with its first step, and how many outcomes it has.
type BadRow = (&'static str, Fault, usize);

static BAD: [BadRow; 8] = [
    // 0, 1, and both.
    (
        "par choose i in Bit do x := i endchoose choose j in Bit do x := j endchoose endpar",
        Fault::Inconsistent,
        3,
    ),
    (
        "choose i in Few do c(i + 1) := 1 endchoose",
        Fault::Inconsistent,
        3,
    ),
    // A sequence ends with two updates that clash.
    (
        "seq par x := 1 x := 2 endpar choose i in Few do y := i endchoose endseq",
        Fault::Inconsistent,
        1,
    ),
    (
        "seq choose i in Few do par x := 1 x := i endpar endchoose \
choose j in Bit do y := j endchoose endseq",
        Fault::Inconsistent,
        4,
    ),
    (
        "choose i in Few do if i = 2 then iterate x := x + 1 enditerate endif endchoose",
        Fault::Exhausted,
        2,
    ),
    (
        "iterate choose i in Bit do if x = 0 or i = 1 then x := 1 - x endif endchoose enditerate",
        Fault::Exhausted,
        2,
    ),
    (
        "par par x := 1 x := 2 endpar \
choose i in Few do iterate y := i enditerate endchoose endpar",
        Fault::Exhausted,
        1,
    ),
    // At two paths.
    (
        "choose i in Bit do if i = 0 then iterate x := 1 enditerate else iterate x := 2 enditerate \
endif endchoose",
        Fault::Exhausted,
        2,
    ),
];

/// The first body of whose first step something else is told.
fn first_other_fault(alloc: Global, rows: &'static [BadRow]) -> Result<Option<&'static str>, Fail> {
    for (body, fault, outcomes) in rows {
        let told = told_of_step(alloc, body, "true")?;
        if told.verdict != Verdict::Bad(1, *fault) || told.outcomes != *outcomes {
            return Ok(Some(*body));
        }
    }
    Ok(None)
}

#[test]
fn outcomes_with_faults_are_found(rt: HostRuntime) -> Result<(), Fail> {
    assert_eq!(rt; first_other_fault(rt.alloc(), &BAD)?, None);
    Ok(())
}

/// A main rule's body, its states, the outcomes of their steps, and how many of them are quiet.
type WholeRow = (&'static str, usize, usize, usize);

static WHOLE: [WholeRow; 5] = [
    ("skip", 1, 1, 1),
    ("if x < 2 then x := x + 1 endif", 3, 3, 1),
    // The first outcome of the first step changes nothing, and the other one does.
    ("choose i in Bit do x := i endchoose", 2, 4, 0),
    (
        "if x = 0 then choose i in Bit do x := i + 1 endchoose endif",
        3,
        4,
        2,
    ),
    ("choose i in Few do x := (x + i) mod 5 endchoose", 5, 15, 0),
];

/// Whether all states of a main rule and their outcomes are listed.
fn are_listed(alloc: Global, row: &WholeRow) -> Result<bool, Fail> {
    let (body, states, outcomes, quiet) = row;
    let told = told_of_body(alloc, body, &ANY)?;
    Ok(
        told.verdict == Verdict::Closed
            && told.states == *states
            && told.outcomes == *outcomes
            && told.quiet == *quiet,
    )
}

/// The first body that has others.
fn first_other_whole(
    alloc: Global,
    rows: &'static [WholeRow],
) -> Result<Option<&'static str>, Fail> {
    for row in rows {
        if !are_listed(alloc, row)? {
            return Ok(Some(row.0));
        }
    }
    Ok(None)
}

#[test]
fn states_are_listed_once(rt: HostRuntime) -> Result<(), Fail> {
    assert_eq!(rt; first_other_whole(rt.alloc(), &WHOLE)?, None);
    Ok(())
}
