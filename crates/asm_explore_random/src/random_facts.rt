//! The lines behind the first of a report of random runs.
ghost use Rattle.std.specs.Prelude.{◌≡◌, ◌∷◌, ◌++◌, [], IfOk, OnOk};
ghost use Rattle.std.specs.String.{string_bytes};
ghost use Rattle.asm_explore_texts.specs.Conditions.{text_of};
ghost use Rattle.asm_explore_texts.specs.Comments.{lines_of};
ghost use Rattle.asm_explore_report.specs.ShownRuns.{shown_of};
ghost use Rattle.asm_explore_random.specs.RandomFacts.{longer_lines, looked_for_words, quiet_lines, random_counts, random_facts as facts_of, run_line, run_lines, shown_in};

use asm_explore_report::command::command;
use asm_explore_report::facts::{add, add_always, add_condition, add_text, looked_for};
use asm_explore_report::shown_run::{ShownRun, first_state, run_of};
use asm_explore_texts::conditions::{Condition, Conditions};
use asm_explore_words::settings::RandomSettings;
use asm_random::{RandomFinding, RandomResult};
use std::alloc::{AllocError, Global};

/// The run that shows what is found, if a run does.
pub(crate) fn shown_run(finding: &RandomFinding) -> Option<ShownRun<'_>>
    ensures { shown_of result ≡ shown_in finding.now }
{
    match finding {
        RandomFinding::Bad { bad, .. } => Some(run_of(bad)),
        RandomFinding::WrongFirst => Some(first_state()),
        RandomFinding::Nothing | RandomFinding::Unwritten(_) => None,
    }
}

/// Adds the condition that is to be true in each quiet state, if there is one.
fn add_quiet(
    alloc: Global,
    lines: &mut Vec<Vec<u8>>,
    condition: &Option<Condition<'_>>,
) -> Result<(), AllocError>
    ensures { OnOk result (lines_of lines.new.items ≡ lines_of lines.old.items ++ quiet_lines (text_of condition.now)) }
{
    match condition {
        Some(condition) => {
            add_condition(
                lines,
                String::from_str(alloc, "deadlock unless")?,
                condition,
            )
        }
        None => Ok(()),
    }
}

/// Which faults are looked for.
fn looked_for_line(alloc: Global, conditions: &Conditions<'_>) -> Result<String, AllocError>
    ensures { IfOk result (λ line. string_bytes line ≡ looked_for_words conditions.now) }
{
    let mut line = looked_for(alloc, conditions.always.len())?;
    if conditions.when_quiet.is_some() {
        line.push_str(", deadlock")?;
    }
    Ok(line)
}

/// Adds what is drawn from, and how many runs and steps were made.
fn add_counts(
    alloc: Global,
    lines: &mut Vec<Vec<u8>>,
    seed: u64,
    answer: &RandomResult,
) -> Result<(), AllocError>
    ensures { OnOk result (lines_of lines.new.items ≡ lines_of lines.old.items ++ random_counts seed answer.now) }
{
    let RandomResult { runs, steps, .. } = answer;
    add_text(lines, format!(in alloc; "seed {seed}")?)?;
    add_text(lines, format!(in alloc; "runs {runs}")?)?;
    add_text(lines, format!(in alloc; "steps {steps}")?)
}

/// Adds the number of the run that is shown.
fn add_number(alloc: Global, lines: &mut Vec<Vec<u8>>, run: u32) -> Result<(), AllocError>
    ensures { OnOk result (lines_of lines.new.items ≡ lines_of lines.old.items ++ run_line run ∷ []) }
{
    add_text(lines, format!(in alloc; "run {run}")?)
}

/// Adds that the run may be longer than it need be, if that is so.
fn add_longer(alloc: Global, lines: &mut Vec<Vec<u8>>, shortest: bool) -> Result<(), AllocError>
    ensures { OnOk result (lines_of lines.new.items ≡ lines_of lines.old.items ++ longer_lines shortest) }
{
    if shortest {
        return Ok(());
    }
    add_text(
        lines,
        String::from_str(alloc, "it may be longer than it need be")?,
    )
}

/// Adds which run is shown, and how it is made by `asm`.
fn add_run(
    alloc: Global,
    lines: &mut Vec<Vec<u8>>,
    settings: &RandomSettings<'_>,
    answer: &RandomResult,
) -> Result<(), AllocError>
    ensures { OnOk result (lines_of lines.new.items ≡ lines_of lines.old.items ++ run_lines settings.now.turns settings.now.spec.now answer.now.shortest answer.now.finding) }
{
    let (turns, spec) = (settings.turns, settings.spec);
    match &answer.finding {
        RandomFinding::Bad { run, bad } => {
            add_number(alloc, lines, *run)?;
            add_longer(alloc, lines, answer.shortest)?;
            add(lines, command(alloc, run_of(bad).steps, turns, spec)?)
        }
        RandomFinding::WrongFirst => {
            add_number(alloc, lines, 0)?;
            add(lines, command(alloc, 0, turns, spec)?)
        }
        RandomFinding::Nothing | RandomFinding::Unwritten(_) => Ok(()),
    }
}

/// What is said after the first line.
pub(crate) fn random_facts(
    alloc: Global,
    conditions: &Conditions<'_>,
    settings: &RandomSettings<'_>,
    answer: &RandomResult,
) -> Result<Vec<Vec<u8>>, AllocError>
    ensures { IfOk result (λ lines. lines_of lines.items ≡ facts_of conditions.now settings.now answer.now) }
{
    let mut lines = Vec::new(alloc);
    add_always(alloc, &mut lines, conditions.always.as_slice())?;
    add_quiet(alloc, &mut lines, &conditions.when_quiet)?;
    add_text(&mut lines, looked_for_line(alloc, conditions)?)?;
    add_counts(alloc, &mut lines, settings.seed, answer)?;
    add_run(alloc, &mut lines, settings, answer)?;
    Ok(lines)
}
