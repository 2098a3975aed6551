//! The lines behind the first of a report of all runs.
ghost use Rattle.std.specs.Prelude.{◌≡◌, ◌∷◌, ◌++◌, [], option_map, IfOk, OnOk};
ghost use Rattle.std.specs.String.{string_bytes};
ghost use Rattle.asm_explore_texts.specs.Conditions.{text_of};
ghost use Rattle.asm_explore_texts.specs.Positions.{MayBePosition};
ghost use Rattle.asm_explore_texts.specs.Comments.{lines_of};
ghost use Rattle.asm_explore_report.specs.Facts.{condition_line};
ghost use Rattle.asm_explore_report.specs.ShownRuns.{shown_of};
ghost use Rattle.asm_explore_all.specs.AllFacts.{AreFacts, IsCrowd, IsCrowdLine, all_looked_for, command_lines, condition_lines, count_line, count_lines, optional_line, script_words, shown_in};
ghost use Rattle.asm_explore_all.specs.AllFacts as all;
ghost use Rattle.asm_explore_all.specs.code.GraphFiles.{graph_lines};

use crate::checked_question::CheckedQuestion;
use crate::graph_file::GraphFile;
use asm_check::Checked;
use asm_explore::{ExplorationResult, Finding, QuietRun, RuleOverLimit};
use asm_explore_report::command::{command, push_file_word};
use asm_explore_report::facts::{add, add_always, add_condition, add_text, looked_for};
use asm_explore_report::shown_run::{ShownRun, first_state, run_of};
use asm_explore_texts::conditions::{Condition, Conditions};
use asm_explore_texts::position_text::{is_name_at, push_position};
use asm_explore_texts::rule_in_text::rule_in_text;
use asm_explore_words::settings::Settings;
use asm_run::locations::push_path;
use std::alloc::{AllocError, Global};

/// Adds a condition that may be left out, behind this name.
fn add_optional(
    alloc: Global,
    lines: &mut Vec<Vec<u8>>,
    name: &str,
    condition: &Option<Condition<'_>>,
) -> Result<(), AllocError>
    ensures { OnOk result (lines_of lines.new.items ≡ lines_of lines.old.items ++ optional_line name.now (text_of condition.now)) }
{
    match condition {
        Some(condition) => add_condition(lines, String::from_str(alloc, name)?, condition),
        None => Ok(()),
    }
}

/// Adds the conditions.
fn add_conditions(
    alloc: Global,
    lines: &mut Vec<Vec<u8>>,
    conditions: &Conditions<'_>,
) -> Result<(), AllocError>
    ensures { OnOk result (lines_of lines.new.items ≡ lines_of lines.old.items ++ condition_lines conditions.now) }
{
    add_always(alloc, lines, conditions.always.as_slice())?;
    add_optional(alloc, lines, "deadlock unless", &conditions.when_quiet)?;
    add_optional(alloc, lines, "within", &conditions.within)
}

/// Which faults are looked for.
fn all_looked_for_line(alloc: Global, conditions: &Conditions<'_>) -> Result<String, AllocError>
    ensures { IfOk result (λ line. string_bytes line ≡ all_looked_for conditions.now) }
{
    let mut line = looked_for(alloc, conditions.always.len())?;
    if conditions.when_quiet.is_some() {
        line.push_str(", deadlock")?;
    }
    Ok(line)
}

/// Adds a number behind its name.
fn add_count(
    alloc: Global,
    lines: &mut Vec<Vec<u8>>,
    name: &str,
    count: usize,
) -> Result<(), AllocError>
    ensures { OnOk result (lines_of lines.new.items ≡ lines_of lines.old.items ++ count_line name.now count ∷ []) }
{
    add_text(lines, format!(in alloc; "{name} {count}")?)
}

/// Adds in which file there is a script to the first quiet state, if there is one.
fn push_script_file(
    alloc: Global,
    line: &mut Vec<u8>,
    file: Option<&str>,
    run: &Option<QuietRun>,
) -> Result<(), AllocError>
    ensures { OnOk result (line.new.items ≡ line.old.items ++ script_words (option_map (λ name. name.now) file.entry) run.now) }
{
    let Some(name) = file else {
        return Ok(());
    };
    if run.is_none() {
        return Ok(());
    }
    line.extend_from_slice(b", a script to the first: --quiet ")?;
    push_file_word(alloc, line, name.as_bytes())
}

/// How many states are quiet, and in which file there is a script to the first of them.
fn quiet_line(
    alloc: Global,
    file: Option<&str>,
    answered: &ExplorationResult,
) -> Result<Vec<u8>, AllocError>
    ensures { IfOk result (λ line. line.items ≡ all.quiet_line (option_map (λ name. name.now) file.entry) answered.now) }
{
    let quiet = answered.quiet;
    let mut line = format!(in alloc; "quiet {quiet}")?.into_bytes();
    push_script_file(alloc, &mut line, file, &answered.first_quiet)?;
    Ok(line)
}

/// Adds the counts. The script to the first quiet state is in this file, if there is one.
fn add_counts(
    alloc: Global,
    lines: &mut Vec<Vec<u8>>,
    file: Option<&str>,
    answered: &ExplorationResult,
) -> Result<(), AllocError>
    ensures { OnOk result (lines_of lines.new.items ≡ lines_of lines.old.items ++ count_lines (option_map (λ name. name.now) file.entry) answered.now) }
{
    add_count(alloc, lines, "states", answered.states)?;
    add_count(alloc, lines, "steps", answered.outcomes)?;
    add_count(alloc, lines, "depth", answered.depth as usize)?;
    add_count(alloc, lines, "widest", answered.widest)?;
    let quiet = quiet_line(alloc, file, answered)?;
    add(lines, quiet)?;
    Ok(())
}

/// Where in the text a rule is whose step has too many outcomes, if the text has a name there.
fn position_of(
    alloc: Global,
    text: &[u8],
    checked: &Checked,
    path: &[u64],
) -> Result<Vec<u8>, AllocError>
    ensures { IfOk result (λ position. MayBePosition text.now position.items) }
{
    let mut position = Vec::new(alloc);
    match rule_in_text(alloc, checked, path)? {
        Some(rule) if is_name_at(text, rule.name.at) => {
            push_position(alloc, &mut position, text, rule.name.at)?;
            position.extend_from_slice(b", ")?;
            Ok(position)
        }
        _ => Ok(position),
    }
}

/// The line that says of which rule a step has too many outcomes, and how many.
fn crowd_line(
    alloc: Global,
    text: &[u8],
    checked: &Checked,
    crowd: &RuleOverLimit,
) -> Result<Vec<u8>, AllocError>
    ensures { IfOk result (λ line. IsCrowdLine text.now crowd.now line.items) }
{
    let path = crowd.path.as_slice();
    let position = position_of(alloc, text, checked, path)?;
    let (first, others) = (crowd.first, crowd.others);
    let mut line = Vec::from_slice(alloc, b"too many outcomes at ")?;
    line.extend_from_slice(position.as_slice())?;
    line.extend_from_slice(b"place ")?;
    push_path(&mut line, path)?;
    line.extend_from_slice(format!(in alloc; ": {first} beside {others}")?.as_bytes())?;
    Ok(line)
}

/// The line of a step with too many outcomes, if there is one.
fn crowd_lines(
    alloc: Global,
    text: &[u8],
    checked: &Checked,
    finding: &Finding,
) -> Result<Vec<Vec<u8>>, AllocError>
    ensures { IfOk result (λ lines. IsCrowd text.now finding.now (lines_of lines.items)) }
{
    let mut lines = Vec::new(alloc);
    match finding {
        Finding::TooManyOutcomes { crowd, .. } => {
            lines.push(crowd_line(alloc, text, checked, crowd)?)?;
            Ok(lines)
        }
        _ => Ok(lines),
    }
}

/// The run that shows what is found, if a run does.
pub(crate) fn shown_run(finding: &Finding) -> Option<ShownRun<'_>>
    ensures { shown_of result ≡ shown_in finding.now }
{
    match finding {
        Finding::BadStep(bad) => Some(run_of(bad)),
        Finding::WrongFirst => Some(first_state()),
        _ => None,
    }
}

/// Adds the line that shows how the run is made by `asm`, if one is shown.
fn add_command(
    alloc: Global,
    lines: &mut Vec<Vec<u8>>,
    settings: &Settings<'_>,
    shown: Option<ShownRun<'_>>,
) -> Result<(), AllocError>
    ensures { OnOk result (lines_of lines.new.items ≡ lines_of lines.old.items ++ command_lines settings.now.turns settings.now.spec.now (shown_of shown.entry)) }
{
    match shown {
        Some(run) => {
            let line = command(alloc, run.steps, settings.turns, settings.spec)?;
            add(lines, line)
        }
        None => Ok(()),
    }
}

/// Adds a line if not all of the graph of states is written.
fn add_graph_note(
    alloc: Global,
    lines: &mut Vec<Vec<u8>>,
    drawing: GraphFile,
) -> Result<(), AllocError>
    ensures { OnOk result (lines_of lines.new.items ≡ lines_of lines.old.items ++ graph_lines drawing) }
{
    match drawing {
        GraphFile::NotAsked | GraphFile::Written => Ok(()),
        GraphFile::RunAlone => add_text(
            lines,
            String::from_str(alloc, "only this run is drawn: more than 2000 states")?,
        ),
        GraphFile::TooMany => add_text(
            lines,
            String::from_str(alloc, "no graph is written: more than 2000 states")?,
        ),
    }
}

/// What is said after the first line.
pub(crate) fn facts(
    alloc: Global,
    text: &[u8],
    asked: &CheckedQuestion,
    conditions: &Conditions<'_>,
    settings: &Settings<'_>,
    answered: &ExplorationResult,
    drawing: GraphFile,
) -> Result<Vec<Vec<u8>>, AllocError>
    ensures { IfOk result (λ lines. AreFacts text.now conditions.now settings.now answered.now (graph_lines drawing) (lines_of lines.items)) }
{
    let finding = &answered.finding;
    let mut lines = crowd_lines(alloc, text, &asked.checked, finding)?;
    add_conditions(alloc, &mut lines, conditions)?;
    add_text(&mut lines, all_looked_for_line(alloc, conditions)?)?;
    add_counts(alloc, &mut lines, settings.quiet, answered)?;
    add_graph_note(alloc, &mut lines, drawing)?;
    add_command(alloc, &mut lines, settings, shown_run(finding))?;
    Ok(lines)
}
