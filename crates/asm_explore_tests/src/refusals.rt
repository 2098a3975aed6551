//! Explorations that may be refused memory. The tests say more if they are: `.ci/refusals`
//! refuses each of their requests in turn.
use crate::question::{ANY, Asked, question_of};
use crate::told::{Told, Verdict, told_by};
use asm_check::Checked;
use asm_explore::explore_all::explore_all;
use asm_explore::{ExplorationResult, Fault, Finding, Unwatched};
use asm_tests::checked_text::{Unchecked, checked_of};
use std::alloc::{AllocError, Global};
use std::test::Fail;

/// Adds 0 or 1 in each step.
const ADDING: &str = "CoreASM T init M universe Bit = 0 .. 1 function controlled x initially 0 \
rule M = choose i in Bit do x := x + i endchoose";

/// The sum of two steps may be wrong.
const SMALL: Asked = Asked {
    always: "x < 2",
    ..ANY
};

/// The only script of two steps under which the sum is 2.
const BOTH_ONE: &str = "1 - 1\n2 - 1\n";

const WRONG: Told = Told {
    verdict: Verdict::Bad(2, Fault::Wrong),
    states: 2,
    depth: 1,
    outcomes: 4,
    widest: 2,
    quiet: 0,
};

/// A choice, a sequence and turns; a step leads from 0 to 0 or 2.
const CLOSED_TEXT: &str =
    "CoreASM T init M universe Bit = 0 .. 1 function controlled x initially 0 \
rule M = seq choose i in Bit do x := i endchoose \
iterate if x = 1 then choose j in Bit do x := 2 * j endchoose endif enditerate endseq";

const WITHIN: Asked = Asked {
    within: "x < 2",
    turns: 5,
    ..ANY
};

const CLOSED: Told = Told {
    verdict: Verdict::Closed,
    states: 2,
    depth: 1,
    outcomes: 2,
    widest: 2,
    quiet: 0,
};

/// Eight outcomes.
const CROWDED_TEXT: &str = "CoreASM T init M universe Bit = 0 .. 1 universe Few = 0 .. 2 \
function controlled f : Few \
rule M = forall i in Few do choose j in Bit do f(i) := j endchoose endforall";

const FOUR: Asked = Asked { outcomes: 4, ..ANY };

const CROWDED: Told = Told {
    verdict: Verdict::TooManyOutcomes(Some(0), 2, 4),
    states: 1,
    depth: 0,
    outcomes: 0,
    widest: 0,
    quiet: 0,
};

/// The specification with this text, unless memory runs out.
fn specification(alloc: Global, text: &str) -> Result<Checked, AllocError> {
    match checked_of(alloc, text.as_bytes()) {
        Ok(checked) => Ok(checked),
        Err(Unchecked) => Err(AllocError),
    }
}

/// That of a specification.
fn answer_of(
    alloc: Global,
    checked: &Checked,
    asked: &Asked,
) -> Result<Option<ExplorationResult>, AllocError> {
    let Ok(question) = question_of(alloc, asked) else {
        return Err(AllocError);
    };
    let answered = explore_all(alloc, checked, &question, &mut Unwatched);
    drop(question);
    Ok(answered.ok())
}

/// The result, or none if memory runs out before there is one.
fn answer(
    alloc: Global,
    text: &str,
    asked: &Asked,
) -> Result<Option<ExplorationResult>, AllocError> {
    let checked = specification(alloc, text)?;
    let answered = answer_of(alloc, &checked, asked);
    drop(checked);
    answered
}

/// Whether memory ran out, and no more is said than what was looked at.
fn is_front(told: Told, whole: Told, least: u32) -> bool {
    match told.verdict {
        Verdict::NoMemory(safe) => {
            safe.unwrap_or(0) <= least
                && 1 <= told.states
                && told.states <= whole.states
                && told.outcomes <= whole.outcomes
        }
        _ => false,
    }
}

/// Whether the same step has too many outcomes, but it isn't known that no state is a deadlock that
/// as many steps lead to: memory ran out before.
fn is_less_safe(told: Told, whole: Told) -> bool {
    match (told.verdict, whole.verdict) {
        (
            Verdict::TooManyOutcomes(None, first, others),
            Verdict::TooManyOutcomes(Some(_), first_of_whole, others_of_whole),
        ) => {
            let with_verdict = Told {
                verdict: whole.verdict,
                ..told
            };
            first == first_of_whole && others == others_of_whole && with_verdict == whole
        }
        _ => false,
    }
}

/// Whether what is told of a text is this, or memory runs out, before all that is within `least`
/// steps is looked at.
fn is_told(
    alloc: Global,
    text: &str,
    asked: &Asked,
    whole: Told,
    least: u32,
) -> Result<bool, AllocError> {
    let Some(answered) = answer(alloc, text, asked)? else {
        return Ok(true);
    };
    let told = told_by(&answered);
    drop(answered);
    Ok(told == whole || is_less_safe(told, whole) || is_front(told, whole, least))
}

#[test]
fn a_refused_exploration_is_not_closed(rt: HostRuntime) -> Result<(), Fail> {
    assert!(rt; is_told(rt.alloc(), CLOSED_TEXT, &WITHIN, CLOSED, 1)?);
    Ok(())
}

#[test]
fn a_refused_exploration_is_not_crowded(rt: HostRuntime) -> Result<(), Fail> {
    assert!(rt; is_told(rt.alloc(), CROWDED_TEXT, &FOUR, CROWDED, 0)?);
    Ok(())
}

/// Whether a result has the script, or is a front.
fn is_script_or_front(answered: &ExplorationResult) -> bool {
    let told = told_by(answered);
    match &answered.finding {
        Finding::BadStep(bad) => told == WRONG && bad.script.as_str() == BOTH_ONE,
        _ => is_front(told, WRONG, 1),
    }
}

/// Whether a run is found that goes wrong, with its script, or memory runs out.
fn finds_its_script(alloc: Global) -> Result<bool, AllocError> {
    let Some(answered) = answer(alloc, ADDING, &SMALL)? else {
        return Ok(true);
    };
    let is_so = is_script_or_front(&answered);
    drop(answered);
    Ok(is_so)
}

#[test]
fn a_refused_exploration_finds_no_other_script(rt: HostRuntime) -> Result<(), Fail> {
    assert!(rt; finds_its_script(rt.alloc())?);
    Ok(())
}
