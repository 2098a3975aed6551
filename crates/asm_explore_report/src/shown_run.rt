//! The run that a report shows.
ghost use Rattle.std.specs.Prelude.{◌≡◌, cond, None};
ghost use Rattle.asm_explore.specs.Search.{steps_to};
ghost use Rattle.asm_explore_report.specs.ShownRuns.{first_state as first_shown, script_of as script_in, shown, shown_bad, shown_of};

use asm_explore::{BadRun, Fault};

/// A run that is shown: under the script with this text, of this many steps.
#[derive(Clone, Copy, Debug)]
pub struct ShownRun<'r> {
    pub script: &'r [u8],
    pub steps: u64,
}

/// How many steps of the run under the script show the fault.
fn steps_shown(fault: Fault, step: u64) -> u64
    ensures { result ≡ steps_to fault step }
{
    match fault {
        Fault::Exhausted | Fault::Inconsistent | Fault::Wrong => step,
        Fault::Deadlock => step.saturating_sub(1),
    }
}

/// The run that goes wrong, up to the step or the state that shows it.
pub fn run_of(bad: &BadRun) -> ShownRun<'_>
    ensures { shown result ≡ shown_bad bad.now }
{
    ShownRun {
        script: bad.script.as_bytes(),
        steps: steps_shown(bad.fault, bad.step),
    }
}

/// The run of no steps, which shows the first state.
pub fn first_state() -> ShownRun<'static>
    ensures { shown result ≡ first_shown }
{
    ShownRun {
        script: &[],
        steps: 0,
    }
}

/// The script of the run that is shown, if there is one.
pub fn script_of<'r>(shown: Option<ShownRun<'r>>) -> &'r [u8]
    ensures { result.now ≡ script_in (shown_of shown.entry) }
{
    match shown {
        Some(run) => run.script,
        None => &[],
    }
}

/// The run that is shown, if something of it is asked for.
pub fn if_asked(asks: bool, shown: Option<ShownRun<'_>>) -> Option<ShownRun<'_>>
    ensures { shown_of result ≡ cond asks (shown_of shown.entry) None }
{
    if asks { shown } else { None }
}
