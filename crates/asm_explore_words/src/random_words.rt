//! The words after `random`.
ghost use Rattle.std.specs.Prelude.{◌≡◌, [], map, codes, true, is_some, IsTrue, IfOk, IfErr};
ghost use Rattle.clap.specs.Kinds.{HasKind};
ghost use Rattle.clap.specs.Words.{app_of, first_value, found_of, rows_of};
ghost use Rattle.asm_arguments.specs.Numbers.{HaveNumbers};
ghost use Rattle.asm_explore_words.specs.CommandLine as line;
ghost use Rattle.asm_explore_words.specs.CommandLine.{random_refusals};
ghost use Rattle.asm_explore_words.specs.WordsSaid.{AreRandomParsed, AreRandomRead, AreRandomSaid, HasUnsigned, are_random_in_range, random_number_options};

use crate::arguments::{is_set, texts_of, unsigned_of};
use crate::commands::{Argument, described, with_arguments};
use crate::help;
use crate::number_options::{RANDOM_OUTCOMES, RANDOM_STEPS, RUNS, TURNS};
use crate::settings::RandomSettings;
use crate::text_options::{ALWAYS, ALWAYS_FILE, DEADLOCK_UNLESS, PROGRESS, TABLE, TRACE};
use asm_arguments::numbers::number_of;
use clap::{ArgMatches, Command, Error};
use std::alloc::{AllocError, Global};
use std::convert::AsStr;

/// The arguments of `random`.
static RANDOM_ARGUMENTS: [Argument; 12] = [
    Argument::Specification,
    Argument::Number(RANDOM_STEPS),
    Argument::Number(TURNS),
    ALWAYS,
    ALWAYS_FILE,
    DEADLOCK_UNLESS,
    Argument::Number(RANDOM_OUTCOMES),
    Argument::Number(RUNS),
    Argument::Seed,
    TRACE,
    TABLE,
    PROGRESS,
];

/// The settings that the words after `random` give.
pub(crate) fn random_settings<'w, S: AsStr>(
    alloc: Global,
    words: &'w [S],
) -> Result<RandomSettings<'w>, Error>
    ensures in_range { IfOk result (λ s. IsTrue (are_random_in_range s)) }
    ensures taken { IfOk result (λ _. random_refusals (map S.text words.entry.now) ≡ []) }
    ensures said { IfOk result (AreRandomSaid (map S.text words.entry.now)) }
    ensures refused { IfErr result (HasKind (random_refusals (map S.text words.entry.now))) }
{
    let given = random_given(alloc, words)?;
    let settings = random_read(alloc, &given);
    drop(given);
    Ok(settings?)
}

/// The settings that are among what the words after `random` give.
fn random_read<'w>(alloc: Global, given: &ArgMatches<'w>) -> Result<RandomSettings<'w>, AllocError>
    requires spec { is_some (first_value (found_of given.now) (codes "spec")) ≡ true }
    requires numbers { HaveNumbers (found_of given.now) random_number_options }
    requires seed { HasUnsigned (found_of given.now) (codes "seed") }
    ensures in_range { IfOk result (λ s. IsTrue (are_random_in_range s)) }
    ensures read { IfOk result (AreRandomRead (rows_of (found_of given.now))) }
{
    Ok(RandomSettings {
        spec: given.get_str("spec").unwrap(),
        steps: number_of(given, RANDOM_STEPS),
        turns: number_of(given, TURNS),
        always: texts_of(alloc, given, "always")?,
        always_files: texts_of(alloc, given, "always-file")?,
        when_quiet: given.get_str("deadlock-unless"),
        outcomes: number_of(given, RANDOM_OUTCOMES),
        runs: number_of(given, RUNS),
        seed: unsigned_of(given, "seed"),
        trace: is_set(given, "trace"),
        table: is_set(given, "table"),
        progress: is_set(given, "progress"),
    })
}

/// What the words after `random` give.
fn random_given<'w, S: AsStr>(alloc: Global, words: &'w [S]) -> Result<ArgMatches<'w>, Error>
    ensures taken { IfOk result (λ _. random_refusals (map S.text words.entry.now) ≡ []) }
    ensures parsed { IfOk result (AreRandomParsed (map S.text words.entry.now)) }
    ensures refused { IfErr result (HasKind (random_refusals (map S.text words.entry.now))) }
{
    let command = random(alloc)?;
    let given = command.try_get_matches_from(words)?;
    Ok(given)
}

/// What may come after `random`.
pub(crate) fn random<'w>(alloc: Global) -> Result<Command<'w>, AllocError>
    ensures { IfOk result (λ c. app_of c ≡ line.random_command) }
{
    let command = Command::new(alloc, "asm-explore random").display_name(help::NAME)?;
    let command = described(command, help::RANDOM, help::AFTER_RANDOM);
    with_arguments(alloc, command, &RANDOM_ARGUMENTS)
}
