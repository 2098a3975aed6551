//! Steps of runs: one leads to a state, or ends the run.
ghost use Rattle.asm_step.specs.code.Steps.{HasMainRule};

use crate::checked_text::{Unchecked, checked_of_both};
use asm_check::Checked;
use asm_eval::Choices;
use asm_reader::Script;
use asm_resolve::main_rule::resolve_main;
use asm_step::{ResolvedSpecification, Step, make_step, state_after};
use asm_updates::fault::Fault;
use std::alloc::{AllocError, Global};
use std::test::Fail;

/// What is before the rule of the third step.
const BEFORE: &str = "CoreASM T init M function controlled x initially 0 \
rule M = if x < 2 then x := x + 1 else ";

/// What comes of the third step.
#[derive(Clone, Copy, Debug, PartialEq, Eq)]
enum Third {
    /// A state.
    Next,
    /// The end of the run, by the clash of the first location.
    Clash,
    /// The end of the run, by the rule at the path 1.
    Exhausted,
    /// Something else.
    Other,
}

/// The rest of the main rule, and what comes of its third step.
type Row = (&'static str, Third);

static ROWS: [Row; 3] = [
    ("x := 3 endif", Third::Next),
    ("par x := 7 x := 8 endpar endif", Third::Clash),
    ("iterate x := x + 1 enditerate endif", Third::Exhausted),
];

/// The end of the run by this fault.
fn of_fault(fault: &Fault) -> Third {
    match fault {
        Fault::Clash { location: 0, .. } => Third::Clash,
        Fault::Clash { .. } | Fault::Outside { .. } => Third::Other,
    }
}

/// The end of the run by the rule at this path.
fn of_path(path: &[u64]) -> Third {
    match path {
        [1] => Third::Exhausted,
        _ => Third::Other,
    }
}

/// What comes of this step.
fn third_of_step(step: &Step) -> Third {
    match step {
        Step::Next(_) => Third::Next,
        Step::Faulty(fault) => of_fault(fault),
        Step::Exhausted(path) => of_path(path.as_slice()),
    }
}

/// What comes of the third step of the run with the first candidates.
fn third_step(alloc: Global, resolved: &ResolvedSpecification<'_>) -> Result<Third, AllocError>
    requires { HasMainRule resolved.now }
{
    let script = Script::new(alloc);
    let Some(state) = state_after(alloc, resolved, &script, 2)? else {
        return Ok(Third::Other);
    };
    let choices = Choices {
        script: &script,
        step: 3,
    };
    let made = make_step(alloc, resolved, &choices, &state)?;
    Ok(third_of_step(&made))
}

/// Whether the run comes to a state after three steps.
fn makes_three(alloc: Global, resolved: &ResolvedSpecification<'_>) -> Result<bool, AllocError>
    requires { HasMainRule resolved.now }
{
    let script = Script::new(alloc);
    let state = state_after(alloc, resolved, &script, 3)?;
    Ok(state.is_some())
}

/// The third step of a specification, and whether the run comes to a state after it.
fn third_of(alloc: Global, checked: &Checked) -> Result<(Third, bool), AllocError> {
    let code = resolve_main(alloc, checked)?;
    let resolved = ResolvedSpecification {
        checked,
        code: &code,
        turns: 10,
    };
    let third = third_step(alloc, &resolved);
    let three = makes_three(alloc, &resolved);
    drop(code);
    Ok((third?, three?))
}

/// Whether the third step of a row is as it says, and the run goes on just then.
fn is_as_said(alloc: Global, row: &Row) -> Result<bool, Unchecked> {
    let checked = checked_of_both(alloc, BEFORE, row.0)?;
    let third = third_of(alloc, &checked);
    drop(checked);
    match third {
        Ok((third, three)) => Ok(third == row.1 && three == (row.1 == Third::Next)),
        Err(AllocError) => Err(Unchecked),
    }
}

/// The first row whose third step is another one.
fn first_other(alloc: Global) -> Result<Option<usize>, Unchecked> {
    for i in 0..ROWS.len() {
        if !is_as_said(alloc, &ROWS[i])? {
            return Ok(Some(i));
        }
    }
    Ok(None)
}

#[test]
fn steps_lead_to_states_or_end(rt: HostRuntime) -> Result<(), Fail> {
    assert_eq!(rt; first_other(rt.alloc())?, None);
    Ok(())
}
