//! Main rules of every kind, whose steps are fired.
use super::outcome_at;
use crate::beginning::Beginning;
use crate::checked_text::checked_of_both;
use asm_check::Checked;
use asm_eval::{Choices, Outcome};
use asm_reader::{Picks, Script, read_script};
use asm_state::signature::Signature;
use asm_updates::summary::Summary;
use std::alloc::{AllocError, Global};
use std::test::Fail;

/// What is before the main rule's body.
const BEFORE: &str = "CoreASM T init M \
enum Color = { red, green, blue } enum Two = { one, two } \
universe Idx = 0 .. 2 universe Near = -1 .. 1 universe Empty = 1 .. 0 \
function controlled x initially 0 function controlled y \
function controlled c : Idx function controlled d : Near * Color initially 0 \
function controlled w : Color * Two * Idx function controlled v : Two * Two * Two * Two \
function static next : Color initially { (red) -> green, (green) -> blue } \
derived inc(p) = p + 1 \
derived least(p, q) = c(p) < c(q) or p < q and not (c(q) < c(p)) \
rule Rest = skip rule Put(p) = seq x := p x := p endseq \
rule Add(p, q) = par x := p y := q endpar rule All(p, q, r) = Add(p + q, r) \
rule Nest(p) = seq Put(p + x) All(p, x, inc(p)) endseq \
rule Hide(x) = let c = x in forall y in Idx do d(0, red) := c + x endforall endlet \
rule Square(n) = result := n * n \
rule Sum(n, m) = seq result := n result := result + m endseq \
rule Half(n) = seq y <- Sum(n, 1) result := y div 2 endseq \
rule Shrink = seq y <- Half(result) result := result - y endseq \
rule Move(n) = seq x := x + 1 result := n endseq \
rule Pick(n) = choose i in Idx do x := i + n endchoose \
rule Ask(n) = choose i in Idx with i >= n do result := i ifnone result := undef endchoose \
rule Forever = iterate x := 1 enditerate \
rule Never(p) = seq Put(p) while true do x := x + 1 endwhile endseq \
rule Clash(p) = par x := p x := p + 1 endpar rule Stray(p) = c(p + 10) := p \
rule M = ";

/// What the rule of a step gives.
enum Given {
    /// A set that can be fired.
    Set(Summary),
    Faulty,
    Exhausted,
}

fn read_off(signature: &Signature, outcome: Outcome) -> Given {
    match outcome {
        Outcome::Exhausted(_) => Given::Exhausted,
        Outcome::Set { set, instances: _ } => {
            if set.count() != signature.count() || set.first_fault(signature).is_some() {
                Given::Faulty
            } else {
                Given::Set(set)
            }
        }
    }
}

/// How a number of steps ended.
#[derive(Clone, Copy, Debug, PartialEq, Eq)]
enum End {
    /// All steps were fired.
    Going,
    /// The step after those that were fired has a faulty set.
    Faulty,
    /// The step after those that were fired is exhausted.
    Exhausted,
}

/// What is formed in the step with this number.
fn step<P: Picks>(
    alloc: Global,
    beginning: &Beginning<'_>,
    script: &P,
    step: u64,
    turns: u32,
) -> Result<Given, AllocError> {
    let checked = beginning.checked;
    let view = beginning.view();
    let choices = Choices { script, step };
    let outcome = outcome_at(alloc, checked, &view, &choices, &[], turns)?;
    Ok(read_off(checked.signature(), outcome))
}

/// How many of four steps from the initial state are fired, and how they end.
fn steps<P: Picks>(
    alloc: Global,
    checked: &Checked,
    script: &P,
    turns: u32,
) -> Result<(u64, End), AllocError> {
    let mut beginning = Beginning::of(alloc, checked)?;
    for fired in 0..4 {
        match step(alloc, &beginning, script, fired + 1, turns)? {
            Given::Set(set) => beginning.fire(&set),
            Given::Faulty => return Ok((fired, End::Faulty)),
            Given::Exhausted => return Ok((fired, End::Exhausted)),
        }
    }
    Ok((4, End::Going))
}

fn script_of(alloc: Global, lines: &str) -> Result<Script, Fail> {
    match read_script(alloc, lines.as_bytes()) {
        Ok(script) => Ok(script),
        Err(_) => Err(Fail::new("a script of the tests is refused")),
    }
}

/// A body, a script, a limit of turns, how many of four steps are fired, and how they end.
type Ending = (&'static str, &'static str, u32, u64, End);

static ENDINGS: [Ending; 34] = [
    ("skip", "", 1, 4, End::Going),
    ("x := x + 1", "", 0, 4, End::Going),
    ("par x := 1 x := 2 endpar", "", 1, 0, End::Faulty),
    ("c(x) := 1", "", 1, 4, End::Going),
    ("par c(x) := 1 x := x + 2 endpar", "", 1, 2, End::Faulty),
    (
        "while x < 4 do x := x + 1 endwhile",
        "",
        4,
        0,
        End::Exhausted,
    ),
    ("while x < 4 do x := x + 1 endwhile", "", 5, 4, End::Going),
    ("Forever", "", 40, 0, End::Exhausted),
    (
        "choose i in Idx do c(i * 2) := 1 endchoose",
        "3 - 2",
        1,
        2,
        End::Faulty,
    ),
    (
        "choose i in Idx do c(i * 2) := 1 endchoose",
        "* - 4",
        1,
        4,
        End::Going,
    ),
    ("seq Clash(1) Forever endseq", "", 1, 0, End::Faulty),
    ("par Clash(1) Forever endpar", "", 1, 0, End::Exhausted),
    ("c(7) := 1", "", 1, 0, End::Faulty),
    ("c(red) := 1", "", 1, 0, End::Faulty),
    ("d(blue, -1) := 1", "", 1, 0, End::Faulty),
    ("v(one, two, 2, one) := red", "", 1, 0, End::Faulty),
    ("Stray(x)", "", 1, 0, End::Faulty),
    ("c(8) <- Square(3)", "", 1, 0, End::Faulty),
    (
        "seq seq x := x + 1 Stray(x) endseq x := 7 endseq",
        "",
        1,
        0,
        End::Faulty,
    ),
    ("seq x := 1 c(9) := 1 x := 4 endseq", "", 1, 0, End::Faulty),
    ("forall i in Idx do x := i endforall", "", 1, 0, End::Faulty),
    (
        "while x < 4 do par x := x + 1 x := x + 2 endpar endwhile",
        "",
        40,
        0,
        End::Faulty,
    ),
    ("Never(1)", "", 40, 0, End::Exhausted),
    ("iterate skip enditerate", "", 1, 4, End::Going),
    (
        "iterate if x < 4 then x := x + 1 endif enditerate",
        "",
        4,
        0,
        End::Exhausted,
    ),
    (
        "iterate if x < 4 then x := x + 1 endif enditerate",
        "",
        5,
        4,
        End::Going,
    ),
    ("x <- Square(x + 2)", "", 1, 4, End::Going),
    ("seq x <- Half(9) x <- Shrink endseq", "", 1, 4, End::Going),
    ("par Hide(inc(x)) x := x + 1 endpar", "", 1, 4, End::Going),
    ("seq Nest(x + 1) x <- Move(y) endseq", "", 1, 4, End::Going),
    (
        "choose i in Color with next(i) = undef do y := i ifnone c(9) := 1 endchoose",
        "",
        1,
        4,
        End::Going,
    ),
    (
        "choose i in Empty do skip ifnone c(9) := 1 endchoose",
        "",
        1,
        0,
        End::Faulty,
    ),
    (
        "forall i in Near do forall k in Color with next(k) != undef do d(i, next(k)) := d(i, k) \
+ i endforall endforall",
        "",
        1,
        4,
        End::Going,
    ),
    (
        "seq c(1) <- Ask(x) if c(1) = 2 then Forever endif endseq",
        "3 0.0 2",
        5,
        2,
        End::Exhausted,
    ),
];

/// How the steps of a specification end under a script with these lines.
fn ending_under(
    alloc: Global,
    checked: &Checked,
    lines: &str,
    turns: u32,
) -> Result<(u64, End), Fail> {
    let script = script_of(alloc, lines)?;
    let ended = steps(alloc, checked, &script, turns);
    drop(script);
    Ok(ended?)
}

/// How the steps of a body end.
fn ending(alloc: Global, row: &Ending) -> Result<(u64, End), Fail> {
    let (body, lines, turns, _, _) = row;
    let checked = checked_of_both(alloc, BEFORE, body)?;
    let ended = ending_under(alloc, &checked, lines, *turns);
    drop(checked);
    ended
}

/// The first body whose steps end otherwise.
fn first_other(alloc: Global, rows: &'static [Ending]) -> Result<Option<&'static str>, Fail> {
    for row in rows {
        let (body, _, _, fired, end) = row;
        if ending(alloc, row)? != (*fired, *end) {
            return Ok(Some(*body));
        }
    }
    Ok(None)
}

#[test]
fn steps_end_as_worked_out(rt: HostRuntime) -> Result<(), Fail> {
    assert_eq!(rt; first_other(rt.alloc(), &ENDINGS)?, None);
    Ok(())
}
