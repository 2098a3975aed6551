//! The words that the program is called with.
ghost use Rattle.std.specs.Prelude.{◌≡◌, ◌∷◌, [], Some, map, option_map, codes, true, is_some, IsTrue, IfOk, IfErr};
ghost use Rattle.clap.specs.Kinds.{HasKind};
ghost use Rattle.clap.specs.Values.{kind_of};
ghost use Rattle.clap.specs.Walk.{texts};
ghost use Rattle.clap.specs.Words.{App, app_of, first_value, found_of, rows_of, with_subcommand};
ghost use Rattle.clap.specs.declared.error.kind.ErrorKind.TheVariants.{ArgumentConflict, OutOfMemory};
ghost use Rattle.asm_arguments.specs.Numbers.{HaveNumbers};
ghost use Rattle.asm_explore_words.specs.CommandLine as line;
ghost use Rattle.asm_explore_words.specs.CommandLine.{command_refusals, named, random_refusals, refusals, run_refusals};
ghost use Rattle.asm_explore_words.specs.WordsSaid.{AreParsed, AreRead, AreRunParsed, AreRunSaid, AreSaidBehind, IsQuestionRead, IsRefusal, IsSeedOf, MayHaveUnsigned, all_refusals, all_rows, are_in_range, are_run_in_range, is_task_in_range, number_options, one_run_refusals, run_number_options, run_rows, task_refusals};

use crate::arguments::{is_said, is_set, texts_of, unsigned_if};
use crate::commands::{Argument, described, with_arguments};
use crate::help;
use crate::number_options::{OUTCOMES, RUN_STEPS, RUN_TURNS, STATES, STEPS, TURNS, WORKERS};
use crate::random_words::{random, random_settings};
use crate::settings::{RunQuestion, RunSettings, Settings, Task, WordFault, at_odds, run_at_odds};
use crate::show_words::{show, show_settings};
use crate::text_options::{
    ALWAYS, ALWAYS_FILE, DEADLOCK_UNLESS, DOT, DOT_ONLY, PROGRESS, QUIET, SCRIPT, TABLE, TRACE,
    WITHIN,
};
use asm_arguments::numbers::number_of;
use clap::error::ErrorKind;
use clap::{ArgMatches, Command, Error};
use std::alloc::{AllocError, Global};
use std::convert::AsStr;

/// The command that looks at every run.
const ALL: &str = "all";

/// The command that looks at random runs.
const RANDOM: &str = "random";

/// The command that shows the choices of one run.
const CHOICES: &str = "choices";

/// The command that shows the assignments by which one run ends.
const CLASH: &str = "clash";

/// The command that shows one run as a table.
const SHOW: &str = "show";

/// The arguments of `all`.
static ALL_ARGUMENTS: [Argument; 16] = [
    Argument::Specification,
    Argument::Number(STEPS),
    Argument::Number(TURNS),
    ALWAYS,
    ALWAYS_FILE,
    DEADLOCK_UNLESS,
    WITHIN,
    Argument::Number(STATES),
    Argument::Number(OUTCOMES),
    Argument::Number(WORKERS),
    DOT,
    DOT_ONLY,
    QUIET,
    TRACE,
    TABLE,
    PROGRESS,
];

/// A command that tells something of one run.
#[derive(Clone, Copy)]
struct RunCommand {
    /// The command as its help shows it.
    called: &'static str,
    /// What its help says of it.
    about: &'static str,
    /// Whether the choices of the run may be drawn.
    draws: bool,
}

/// The command `choices`.
const CHOICES_COMMAND: RunCommand = RunCommand {
    called: "asm-explore choices",
    about: help::CHOICES,
    draws: true,
};

/// The command `clash`.
const CLASH_COMMAND: RunCommand = RunCommand {
    called: "asm-explore clash",
    about: help::CLASH,
    draws: false,
};

/// The arguments of `choices`.
static CHOICES_ARGUMENTS: [Argument; 7] = [
    Argument::Specification,
    Argument::Number(RUN_STEPS),
    Argument::Number(RUN_TURNS),
    SCRIPT,
    Argument::Draw,
    ALWAYS,
    ALWAYS_FILE,
];

/// The arguments of `clash`.
static CLASH_ARGUMENTS: [Argument; 6] = [
    Argument::Specification,
    Argument::Number(RUN_STEPS),
    Argument::Number(RUN_TURNS),
    SCRIPT,
    ALWAYS,
    ALWAYS_FILE,
];

/// The command and the settings that the words give, the program's name not among them. The first
/// word names the command.
pub fn settings<'w, S: AsStr>(alloc: Global, words: &'w [S]) -> Result<Task<'w>, WordFault>
    ensures in_range { IfOk result (λ task. IsTrue (is_task_in_range task)) }
    ensures said { IfOk result (AreSaidBehind (map S.text words.entry.now)) }
    ensures taken { IfOk result (λ _. task_refusals (map S.text words.entry.now) ≡ []) }
    ensures refused { IfErr result (IsRefusal (task_refusals (map S.text words.entry.now))) }
{
    match words.split_first() {
        Some((command, words)) if command.as_str() == ALL => all_task(alloc, words),
        Some((command, words)) if command.as_str() == RANDOM => random_task(alloc, words),
        Some((command, words)) if command.as_str() == CHOICES => {
            Ok(Task::Choices(run_settings(alloc, CHOICES_COMMAND, words)?))
        }
        Some((command, words)) if command.as_str() == CLASH => {
            Ok(Task::Clash(run_settings(alloc, CLASH_COMMAND, words)?))
        }
        Some((command, words)) if command.as_str() == SHOW => {
            Ok(Task::Show(show_settings(alloc, words)?))
        }
        _ => Err(without_command(alloc, words)),
    }
}

/// What the words after `all` ask for.
fn all_task<'w, S: AsStr>(alloc: Global, words: &'w [S]) -> Result<Task<'w>, WordFault>
    ensures in_range { IfOk result (λ task. IsTrue (is_task_in_range task)) }
    ensures said { IfOk result (AreSaidBehind (codes "all" ∷ map S.text words.entry.now)) }
    ensures refused { IfErr result (IsRefusal (all_refusals (map S.text words.entry.now))) }
{
    let settings = all_settings(alloc, words)?;
    if let Some(said) = at_odds(&settings) {
        drop(settings);
        return Err(odds_fault(alloc, said));
    }
    Ok(Task::All(settings))
}

/// The fault of words that are at odds, of which this is said.
fn odds_fault(alloc: Global, said: &'static str) -> WordFault
    ensures { IsRefusal (ArgumentConflict ∷ []) result }
{
    match odds_error(alloc, said) {
        Ok(error) => error.into(),
        Err(error) => error.into(),
    }
}

/// This as what is wrong with the words after `all`.
fn odds_error(alloc: Global, said: &str) -> Result<Error, Error>
    ensures conflict { IfOk result (λ error. kind_of error ≡ ArgumentConflict) }
    ensures memory { IfErr result (λ error. kind_of error ≡ OutOfMemory) }
{
    let mut command = all(alloc)?;
    let error = command.error(ErrorKind::ArgumentConflict, said);
    drop(command);
    Ok(error?)
}

/// What the words after `random` ask for.
fn random_task<'w, S: AsStr>(alloc: Global, words: &'w [S]) -> Result<Task<'w>, WordFault>
    ensures in_range { IfOk result (λ task. IsTrue (is_task_in_range task)) }
    ensures said { IfOk result (AreSaidBehind (codes "random" ∷ map S.text words.entry.now)) }
    ensures refused { IfErr result (IsRefusal (random_refusals (map S.text words.entry.now))) }
{
    let settings = random_settings(alloc, words)?;
    Ok(Task::Random(settings))
}

/// The same settings, whether or not they are at odds.
fn all_settings<'w, S: AsStr>(alloc: Global, words: &'w [S]) -> Result<Settings<'w>, Error>
    ensures in_range { IfOk result (λ s. IsTrue (are_in_range s)) }
    ensures taken { IfOk result (λ _. refusals (map S.text words.entry.now) ≡ []) }
    ensures read { IfOk result (AreRead (all_rows (map S.text words.entry.now))) }
    ensures refused { IfErr result (HasKind (refusals (map S.text words.entry.now))) }
{
    let given = given(alloc, words)?;
    let settings = all_read(alloc, &given);
    drop(given);
    Ok(settings?)
}

/// The settings that are among what the words after `all` give.
fn all_read<'w>(alloc: Global, given: &ArgMatches<'w>) -> Result<Settings<'w>, AllocError>
    requires spec { is_some (first_value (found_of given.now) (codes "spec")) ≡ true }
    requires numbers { HaveNumbers (found_of given.now) number_options }
    ensures in_range { IfOk result (λ s. IsTrue (are_in_range s)) }
    ensures read { IfOk result (AreRead (rows_of (found_of given.now))) }
{
    Ok(Settings {
        spec: given.get_str("spec").unwrap(),
        steps: number_of(given, STEPS),
        turns: number_of(given, TURNS),
        states: number_of(given, STATES),
        outcomes: number_of(given, OUTCOMES),
        always: texts_of(alloc, given, "always")?,
        always_files: texts_of(alloc, given, "always-file")?,
        when_quiet: given.get_str("deadlock-unless"),
        within: given.get_str("within"),
        workers: number_of(given, WORKERS),
        dot: given.get_str("dot"),
        dot_only: texts_of(alloc, given, "dot-only")?,
        quiet: given.get_str("quiet"),
        trace: is_set(given, "trace"),
        table: is_set(given, "table"),
        progress: is_set(given, "progress"),
    })
}

/// What the words after `all` give.
fn given<'w, S: AsStr>(alloc: Global, words: &'w [S]) -> Result<ArgMatches<'w>, Error>
    ensures taken { IfOk result (λ _. refusals (map S.text words.entry.now) ≡ []) }
    ensures parsed { IfOk result (AreParsed (map S.text words.entry.now)) }
    ensures refused { IfErr result (HasKind (refusals (map S.text words.entry.now))) }
{
    let command = all(alloc)?;
    let given = command.try_get_matches_from(words)?;
    Ok(given)
}

/// What may come after `all`.
fn all<'w>(alloc: Global) -> Result<Command<'w>, AllocError>
    ensures { IfOk result (λ c. app_of c ≡ line.command) }
{
    let command = Command::new(alloc, "asm-explore all").display_name(help::NAME)?;
    let command = described(command, help::ALL, help::AFTER_ALL);
    with_arguments(alloc, command, &ALL_ARGUMENTS)
}

/// The run and the conditions that the words after such a command give.
fn run_settings<'w, S: AsStr>(
    alloc: Global,
    asked: RunCommand,
    words: &'w [S],
) -> Result<RunQuestion<'w>, WordFault>
    ensures in_range { IfOk result (λ question. IsTrue (are_run_in_range question.run)) }
    ensures said { IfOk result (AreRunSaid asked.draws (map S.text words.entry.now)) }
    ensures refused { IfErr result (IsRefusal (one_run_refusals asked.draws (map S.text words.entry.now))) }
{
    let question = run_given(alloc, asked, words)?;
    if let Some(said) = run_at_odds(question.run) {
        drop(question);
        return Err(run_odds_error(alloc, asked, said)?.into());
    }
    Ok(question)
}

/// This as what is wrong with the words after such a command.
fn run_odds_error(alloc: Global, asked: RunCommand, said: &str) -> Result<Error, Error>
    ensures conflict { IfOk result (λ error. kind_of error ≡ ArgumentConflict) }
    ensures memory { IfErr result (λ error. kind_of error ≡ OutOfMemory) }
{
    let mut command = run_command(alloc, asked)?;
    let error = command.error(ErrorKind::ArgumentConflict, said);
    drop(command);
    Ok(error?)
}

/// The same, whether or not the settings are at odds.
fn run_given<'w, S: AsStr>(
    alloc: Global,
    asked: RunCommand,
    words: &'w [S],
) -> Result<RunQuestion<'w>, Error>
    ensures in_range { IfOk result (λ question. IsTrue (are_run_in_range question.run)) }
    ensures taken { IfOk result (λ _. run_refusals asked.draws (map S.text words.entry.now) ≡ []) }
    ensures read { IfOk result (IsQuestionRead asked.draws (run_rows asked.draws (map S.text words.entry.now))) }
    ensures refused { IfErr result (HasKind (run_refusals asked.draws (map S.text words.entry.now))) }
{
    let given = run_parsed(alloc, asked, words)?;
    let question = run_read(alloc, asked.draws, &given);
    drop(given);
    Ok(question?)
}

/// The run and the conditions that are among what the words after such a command give.
fn run_read<'w>(
    alloc: Global,
    draws: bool,
    given: &ArgMatches<'w>,
) -> Result<RunQuestion<'w>, AllocError>
    requires spec { is_some (first_value (found_of given.now) (codes "spec")) ≡ true }
    requires numbers { HaveNumbers (found_of given.now) run_number_options }
    requires draw { draws ≡ true → MayHaveUnsigned (found_of given.now) (codes "draw") }
    ensures in_range { IfOk result (λ question. IsTrue (are_run_in_range question.run)) }
    ensures read { IfOk result (IsQuestionRead draws (rows_of (found_of given.now))) }
{
    Ok(RunQuestion {
        run: RunSettings {
            spec: given.get_str("spec").unwrap(),
            steps: number_of(given, RUN_STEPS),
            turns: number_of(given, RUN_TURNS),
            script: given.get_str("script"),
            draw: seed_of(given, draws),
            steps_said: is_said(given, "steps"),
            turns_said: is_said(given, "turns"),
        },
        always: texts_of(alloc, given, "always")?,
        always_files: texts_of(alloc, given, "always-file")?,
    })
}

/// The seed by which choices are drawn, if they may be drawn.
fn seed_of(given: &ArgMatches<'_>, draws: bool) -> Option<u64>
    requires { draws ≡ true → MayHaveUnsigned (found_of given.now) (codes "draw") }
    ensures { IsSeedOf draws (rows_of (found_of given.now)) result }
{
    if draws {
        unsigned_if(given, "draw")
    } else {
        None
    }
}

/// What the words after such a command give.
fn run_parsed<'w, S: AsStr>(
    alloc: Global,
    asked: RunCommand,
    words: &'w [S],
) -> Result<ArgMatches<'w>, Error>
    ensures taken { IfOk result (λ _. run_refusals asked.draws (map S.text words.entry.now) ≡ []) }
    ensures parsed { IfOk result (AreRunParsed asked.draws (map S.text words.entry.now)) }
    ensures refused { IfErr result (HasKind (run_refusals asked.draws (map S.text words.entry.now))) }
{
    let command = run_command(alloc, asked)?;
    let given = command.try_get_matches_from(words)?;
    Ok(given)
}

/// What may come after such a command.
fn run_command<'w>(alloc: Global, asked: RunCommand) -> Result<Command<'w>, AllocError>
    ensures { IfOk result (λ c. app_of c ≡ line.run_command asked.draws) }
{
    let command = Command::new(alloc, help::NAME).bin_name(asked.called)?;
    let command = described(command, asked.about, help::AFTER_RUN);
    if asked.draws {
        return with_arguments(alloc, command, &CHOICES_ARGUMENTS);
    }
    with_arguments(alloc, command, &CLASH_ARGUMENTS)
}

/// The fault of words that don't begin with a command.
fn without_command<S: AsStr>(alloc: Global, words: &[S]) -> WordFault
    ensures { IsRefusal (command_refusals (map S.text words.entry.now)) result }
{
    match commands(alloc) {
        Ok(mut commands) => {
            let error = refused(&mut commands, words);
            drop(commands);
            error.into()
        }
        Err(error) => error.into(),
    }
}

/// What is to be said of these words, which don't begin with one of the commands.
fn refused<'w, S: AsStr>(commands: &mut Command<'w>, words: &'w [S]) -> Error
    requires { app_of commands.old ≡ line.commands }
    ensures { HasKind (command_refusals (map S.text words.entry.now)) result }
{
    match commands.try_get_matches_from_mut(words) {
        Ok(matches) => {
            drop(matches);
            match commands.error(ErrorKind::MissingSubcommand, help::COMMAND_FIRST) {
                Ok(error) => error,
                Err(error) => error.into(),
            }
        }
        Err(error) => error,
    }
}

/// The commands.
fn commands<'w>(alloc: Global) -> Result<Command<'w>, AllocError>
    ensures { IfOk result (λ c. app_of c ≡ line.commands) }
{
    let commands = Command::new(alloc, help::NAME)
        .bin_name(help::NAME)?
        .version(help::VERSION)
        .about(help::ABOUT)
        .after_help(help::AFTER)
        .no_binary_name(true)
        .subcommand_required(true);
    let commands = with(commands, ALL, all(alloc))?;
    let commands = with(commands, RANDOM, random(alloc))?;
    let choices = run_command(alloc, CHOICES_COMMAND);
    let commands = with(commands, CHOICES, choices)?;
    let clash = run_command(alloc, CLASH_COMMAND);
    let commands = with(commands, CLASH, clash)?;
    with(commands, SHOW, show(alloc))
}

/// The commands and one more, which has this name.
fn with<'w>(
    commands: Command<'w>,
    name: &'w str,
    command: Result<Command<'w>, AllocError>,
) -> Result<Command<'w>, AllocError>
    ensures { (app : App) → app.top.is_plain ≡ true → IfOk command.entry (λ c. app_of c ≡ app) → IfOk result (λ c. app_of c ≡ with_subcommand (app_of commands.entry) (named name.entry.now app)) }
{
    commands.subcommand(command?.name(name))
}
