//! The run of a specification, from the bytes of its text to the bytes of its trace.
ghost use Rattle.std.specs.Prelude.{◌≡◌, false};
ghost use Rattle.asm_run.specs.Headline.{Runs};

use crate::end::End;
use crate::error::RunError;
use crate::pooled::Pooled;
use crate::sink::Sink;
use crate::steps::run_steps;
use asm_check::check;
use asm_limits::run_limits::Limits;
use asm_pool::{Gate, NoGate};
use asm_reader::{read, read_script};
use asm_resolve::laws::resolving_laws;
use asm_resolve::main_rule::resolve_main;
use asm_step::ResolvedSpecification;
use std::alloc::Global;
use std::thread::Threads;

/// Runs the specification with this text, and writes its trace: the text of each step when it is
/// whole, and then the last lines.
///
/// A text that is no specification is refused, and so are a specification with a fault, a text that
/// is no script, and limits out of their ranges; then nothing is written. With one worker no thread
/// is started, and with more each `par` and `forall` that isn't within another is worked by them; a
/// thread that was started has ended when the call returns.
pub fn run<R: Threads + Sync, S: Sink>(
    rt: &R,
    alloc: Global,
    spec: &[u8],
    script: &[u8],
    limits: &Limits,
    out: &mut S,
) -> Result<End, RunError>
    requires { S.has_failed out.old ≡ false }
    ensures { Runs spec.now script.now limits.now (S.bytes out.old) (S.bytes out.new) (S.has_failed out.new) result }
{
    run_gated(rt, alloc, &NoGate, spec, script, limits, out)
}

/// Runs the specification as `run` does, and the workers call the gate before and after each of
/// their tasks.
pub fn run_gated<R: Threads + Sync, G: Gate + Sync, S: Sink>(
    rt: &R,
    alloc: Global,
    gate: &G,
    spec: &[u8],
    script: &[u8],
    limits: &Limits,
    out: &mut S,
) -> Result<End, RunError>
    requires { S.has_failed out.old ≡ false }
    ensures { Runs spec.now script.now limits.now (S.bytes out.old) (S.bytes out.new) (S.has_failed out.new) result }
{
    let tree = read(alloc, spec)?;
    let checked = check(alloc, tree)?;
    let script = read_script(alloc, script)?;
    if !limits.are_in_range() {
        return Err(RunError::Limits);
    }
    let code = resolve_main(alloc, &checked)?;
    let resolved = ResolvedSpecification {
        checked: &checked,
        code: &code,
        turns: limits.turns,
    };
    resolving_laws();
    let pooled = Pooled::new(rt, limits, gate).for_rule(checked.signature(), &code);
    let ended = run_steps(alloc, &pooled, &resolved, &script, limits.steps, out);
    drop(code);
    ended
}
