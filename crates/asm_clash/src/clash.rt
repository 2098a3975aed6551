//! A run up to its end, with the assignments at the location of its fault.
ghost use Rattle.std.specs.Prelude.{IfOk};
ghost use Rattle.asm_syntax.specs.code.Views.{spec_of};
ghost use Rattle.asm_meaning.specs.Declarations.{specification_of};
ghost use Rattle.asm_meaning.specs.Run.{run};
ghost use Rattle.asm_step.specs.code.Steps.{HasMainRule, specification_in};
ghost use Rattle.asm_clash.specs.ClashOfRun.{EndsSo};

use crate::assignment::Assignment;
use crate::fault_assignments::{assignments_at, fault_number};
use crate::found::Found;
use asm_check::Checked;
use asm_eval::regions::OnThisThread;
use asm_eval::{Choices, Forming, Path, Stopped};
use asm_meaning::laws::run_laws;
use asm_reader::Script;
use asm_resolve::laws::resolving_laws;
use asm_resolve::main_rule::resolve_main;
use asm_state::state::State;
use asm_step::{ResolvedSpecification, form_step};
use asm_updates::fault::Fault;
use std::alloc::{AllocError, Global};

/// How a run ends.
#[derive(Drop)]
pub enum ClashOfRun {
    /// At its limit of steps.
    Limit,
    /// In this step, in which the `iterate` at this path has made its last turn.
    Exhausted {
        step: u64,
        path: Path,
    },
    /// In this step, whose set has this first fault: with the first assignments whose updates stand
    /// in that set at the fault's location, in the order of evaluation, and how many there are. The
    /// number is cut off if it doesn't fit.
    Faulty {
        step: u64,
        fault: Fault,
        assignments: Vec<Assignment>,
        count: u64,
    },
}

/// Makes the run under the script, of at most `steps` steps, and says how it ends, with at most
/// `most` assignments.
pub fn clash_of_run(
    alloc: Global,
    checked: &Checked,
    turns: u32,
    script: &Script,
    steps: u32,
    most: usize,
) -> Result<ClashOfRun, AllocError>
    ensures { let s = spec_of checked.now.spec in
        IfOk result (EndsSo s turns script.now most (run (specification_of s) turns script.now steps)) }
{
    let code = resolve_main(alloc, checked)?;
    let resolved = ResolvedSpecification {
        checked,
        code: &code,
        turns,
    };
    let clash = clash_by_code(alloc, &resolved, script, steps, most);
    drop(code);
    clash
}

/// The same of a resolved specification. A set is formed in each step, in the place of the one
/// before, and is fired into the state.
fn clash_by_code(
    alloc: Global,
    resolved: &ResolvedSpecification<'_>,
    script: &Script,
    steps: u32,
    most: usize,
) -> Result<ClashOfRun, AllocError>
    requires { HasMainRule resolved.now }
    ensures { let m = resolved.now in
        IfOk result (EndsSo (spec_of m.checked.now.spec) m.turns script.now most (run (specification_in m) m.turns script.now steps)) }
{
    resolving_laws();
    run_laws();
    let signature = resolved.checked.signature();
    let mut state = State::initial(alloc, signature)?;
    let mut forming = Forming::new(alloc, signature);
    for done in 0..steps {
        let step = u64::from(done) + 1;
        let choices = Choices { script, step };
        match form_step(
            alloc,
            &mut OnThisThread,
            resolved,
            &choices,
            &state,
            &mut forming,
        ) {
            Ok(()) => {}
            Err(Stopped::Exhausted) => {
                let path = Path::new(forming.path);
                return Ok(ClashOfRun::Exhausted { step, path });
            }
            Err(Stopped::Memory) => return Err(AllocError),
        }
        if let Some(fault) = forming.set.first_fault(signature) {
            let location = fault_number(signature, &forming.set, &fault);
            let found = assignments_at(alloc, resolved, &choices, &state, location, most)?;
            let Found { first, count } = found;
            return Ok(ClashOfRun::Faulty {
                step,
                fault,
                assignments: first,
                count,
            });
        }
        forming.set.fire_into(&mut state);
    }
    Ok(ClashOfRun::Limit)
}
