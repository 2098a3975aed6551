//! The steps of a run, one after the other.
ghost use Rattle.std.specs.Prelude.{◌≡◌, false};
ghost use Rattle.asm_syntax.specs.code.Views.{spec_of};
ghost use Rattle.asm_run.specs.Headline.{book_run};
ghost use Rattle.asm_step.specs.code.Steps.{HasMainRule};
ghost use Rattle.asm_run.specs.code.RunSoFar.{RunsSteps};
ghost use Rattle.asm_run.specs.Written.{names_in, locations_in};

use crate::end::End;
use crate::error::RunError;
use crate::finish::finish;
use crate::location_texts::LocationTexts;
use crate::pooled::Pooled;
use crate::sink::Sink;
use crate::step::make_step;
use crate::write_all::write_all;
use asm_eval::{Choices, Forming};
use asm_pool::Gate;
use asm_reader::Picks;
use asm_state::state::State;
use asm_step::ResolvedSpecification;
use std::alloc::Global;
use std::thread::Threads;

/// Makes `steps` steps under the script, and writes each one's text when it is whole.
pub fn run_steps<R: Threads + Sync, G: Gate + Sync, S: Sink, P: Picks + Sync>(
    alloc: Global,
    pooled: &Pooled<'_, R, G>,
    resolved: &ResolvedSpecification<'_>,
    script: &P,
    steps: u32,
    out: &mut S,
) -> Result<End, RunError>
    requires open { S.has_failed out.old ≡ false }
    requires main { HasMainRule resolved.now }
    ensures { let s = spec_of resolved.now.checked.now.spec in
        RunsSteps (names_in s) (locations_in s) (S.bytes out.old) (S.bytes out.new) (S.has_failed out.new) (book_run s resolved.now.turns (P.script script.now) steps) result }
{
    let checked = resolved.checked;
    let signature = checked.signature();
    let mut state = State::initial(alloc, signature)?;
    let mut forming = Forming::new(alloc, signature);
    let mut text = Vec::new(alloc);
    let mut texts = LocationTexts::new(alloc);
    for done in 0..steps {
        let choices = Choices {
            script,
            step: u64::from(done) + 1,
        };
        let end = make_step(
            alloc,
            pooled,
            resolved,
            &choices,
            &mut state,
            &mut forming,
            &mut text,
            &mut texts,
        )?;
        if let Some(end) = end {
            return finish(alloc, &mut text, checked, end, &state, out);
        }
        write_all(out, text.as_slice())?;
    }
    finish(alloc, &mut text, checked, End::Limit, &state, out)
}
