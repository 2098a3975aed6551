//! How the run under a script ends.
ghost use Rattle.std.specs.Prelude.{IfOk};
ghost use Rattle.asm_syntax.specs.code.Views.{spec_of};
ghost use Rattle.asm_meaning.specs.Run as runs;
ghost use Rattle.asm_run.specs.Headline.{IsReturned};
ghost use Rattle.asm_run.specs.Written.{names_in};
ghost use Rattle.asm_explore_report.specs.EndWords.{IsEndWords, IsRunLine};
ghost use Rattle.asm_explore_report.specs.RunEnds.{IsEndOf, IsTraceOf};

use asm_check::Checked;
use asm_limits::run_limits::{DEFAULTS, Limits};
use asm_run::end::End;
use asm_run::end_words::push_end_words;
use asm_run::error::RunError;
use asm_run::locations::{push_function, push_location};
use asm_run::run::run;
use asm_run::through::Through;
use std::alloc::{AllocError, Global};
use std::thread::Threads;

/// How a run ends, and its trace.
#[derive(Drop)]
pub struct EndedRun {
    pub end: End,
    pub trace: Vec<u8>,
}

/// Makes the run of the specification with this text under the script with that one, of at most
/// `steps` steps.
pub fn ended_run<R: Threads + Sync>(
    rt: &R,
    alloc: Global,
    text: &[u8],
    script: &[u8],
    turns: u32,
    steps: u32,
) -> Result<EndedRun, RunError>
    ensures end { IfOk result (λ ended. IsEndOf text.now script.now turns steps ended.end) }
    ensures trace { IfOk result (λ ended. IsTraceOf text.now script.now turns steps ended.trace.items) }
{
    let limits = Limits {
        steps,
        turns,
        ..DEFAULTS
    };
    let mut sink = Through::new(Vec::new(alloc));
    let end = run(rt, alloc, text, script, &limits, &mut sink)?;
    let trace = sink.into_inner();
    Ok(EndedRun { end, trace })
}

impl EndedRun {
    /// The end in words, over the specification of the run.
    pub fn words(&self, alloc: Global, checked: &Checked) -> Result<Vec<u8>, AllocError>
        ensures { let names = names_in (spec_of checked.now.spec) in
            (e : runs.End) → IsReturned e self.now.end → IfOk result (λ words. IsEndWords names e words.items) }
    {
        let mut words = Vec::new(alloc);
        push_end_words(&mut words, checked, &self.end)?;
        Ok(words)
    }

    /// How the run ends, in a line. Without a fault it made `steps` steps.
    pub fn line(&self, alloc: Global, checked: &Checked, steps: u32) -> Result<Vec<u8>, AllocError>
        ensures { let names = names_in (spec_of checked.now.spec) in
            (e : runs.End) → IsReturned e self.now.end → IfOk result (λ line. IsRunLine names steps e line.items) }
    {
        match self.end.step() {
            None => Ok(format!(in alloc; "limit after step {steps}")?.into_bytes()),
            Some(step) => {
                let mut line = format!(in alloc; "fault in step {step}: ")?.into_bytes();
                push_end_words(&mut line, checked, &self.end)?;
                Ok(line)
            }
        }
    }

    /// The location of the fault that the run ends by, as its words show it.
    pub fn location(&self, alloc: Global, checked: &Checked) -> Result<Vec<u8>, AllocError> {
        let mut text = Vec::new(alloc);
        match &self.end {
            End::Clash {
                function,
                arguments,
                ..
            } => push_location(&mut text, checked, *function, arguments.as_slice())?,
            End::Outside { function, .. } => push_function(&mut text, checked, *function)?,
            End::Limit | End::Exhausted { .. } => {}
        }
        Ok(text)
    }
}
