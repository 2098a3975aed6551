//! The words after `show`.
ghost use Rattle.std.specs.Prelude.{◌≡◌, ◌&&◌, ◌||◌, [], map, codes, true, false, is_some, IsTrue, IfOk, IfErr};
ghost use Rattle.clap.specs.Kinds.{HasKind};
ghost use Rattle.clap.specs.Values.{kind_of};
ghost use Rattle.clap.specs.Words.{app_of, first_value, found_of, rows_of};
ghost use Rattle.clap.specs.declared.error.kind.ErrorKind.TheVariants.{ArgumentConflict, OutOfMemory};
ghost use Rattle.asm_arguments.specs.Numbers.{HaveNumbers};
ghost use Rattle.asm_explore_words.specs.CommandLine as line;
ghost use Rattle.asm_explore_words.specs.CommandLine.{show_refusals};
ghost use Rattle.asm_explore_words.specs.WordsSaid.{AreShowParsed, AreShowRead, AreShowSaid, IsRefusal, MayHaveUnsigned, all_show_refusals, are_show_at_odds, are_show_in_range, are_two_forms, chooses_twice, form_asked, reads_input_twice, show_number_options, show_odds};

use crate::arguments::{is_said, is_set, texts_of, unsigned_if};
use crate::commands::{Argument, described, with_arguments};
use crate::help;
use crate::number_options::{RUN_STEPS, RUN_TURNS, WIDTH};
use crate::settings::{RunSettings, ShowForm, ShowSettings, WordFault, run_at_odds};
use crate::text_options::{ALWAYS, ALWAYS_FILE, HTML, JSON, ONLY, SCRIPT};
use asm_arguments::numbers::number_of;
use clap::error::ErrorKind;
use clap::{ArgMatches, Command, Error};
use std::alloc::{AllocError, Global};
use std::convert::AsStr;

/// The arguments of `show`.
static SHOW_ARGUMENTS: [Argument; 11] = [
    Argument::Specification,
    Argument::Number(RUN_STEPS),
    Argument::Number(RUN_TURNS),
    SCRIPT,
    Argument::Draw,
    ALWAYS,
    ALWAYS_FILE,
    ONLY,
    Argument::Number(WIDTH),
    HTML,
    JSON,
];

/// The settings that the words after `show` give.
pub(crate) fn show_settings<'w, S: AsStr>(
    alloc: Global,
    words: &'w [S],
) -> Result<ShowSettings<'w>, WordFault>
    ensures in_range { IfOk result (λ s. IsTrue (are_show_in_range s)) }
    ensures said { IfOk result (AreShowSaid (map S.text words.entry.now)) }
    ensures refused { IfErr result (IsRefusal (all_show_refusals (map S.text words.entry.now))) }
{
    let given = show_parsed(alloc, words)?;
    let settings = show_given(alloc, &given);
    drop(given);
    settings
}

/// The settings that are among what the words after `show` give, if they aren't at odds.
fn show_given<'w>(alloc: Global, given: &ArgMatches<'w>) -> Result<ShowSettings<'w>, WordFault>
    requires spec { is_some (first_value (found_of given.now) (codes "spec")) ≡ true }
    requires numbers { HaveNumbers (found_of given.now) show_number_options }
    requires draw { MayHaveUnsigned (found_of given.now) (codes "draw") }
    ensures in_range { IfOk result (λ s. IsTrue (are_show_in_range s)) }
    ensures agreed { IfOk result (λ _. are_show_at_odds (rows_of (found_of given.now)) ≡ false) }
    ensures read { IfOk result (AreShowRead (rows_of (found_of given.now))) }
    ensures refused { IfErr result (IsRefusal (show_odds (rows_of (found_of given.now)))) }
{
    let settings = show_read(alloc, given)?;
    if let Some(said) = show_at_odds(settings.run, given) {
        drop(settings);
        return Err(odds_error(alloc, said)?.into());
    }
    Ok(settings)
}

/// What is to be said if this run, or what else the words after `show` give, is at odds.
fn show_at_odds(run: RunSettings<'_>, given: &ArgMatches<'_>) -> Option<&'static str>
    ensures { is_some result ≡ ((reads_input_twice run.entry || chooses_twice run.entry) || are_two_forms (rows_of (found_of given.now))) }
{
    match run_at_odds(run) {
        Some(said) => Some(said),
        None => forms_at_odds(given),
    }
}

/// What is to be said if a page and lines of JSON are both asked for, or one of them and a width.
fn forms_at_odds(given: &ArgMatches<'_>) -> Option<&'static str>
    ensures { is_some result ≡ are_two_forms (rows_of (found_of given.now)) }
{
    let page = is_set(given, "html");
    let json = is_set(given, "json");
    form_odds(page, json, is_said(given, "width"))
}

/// What is to be said if a page, or lines of JSON, or both are asked for, and maybe a width.
fn form_odds(page: bool, json: bool, width: bool) -> Option<&'static str>
    ensures { is_some result ≡ ((page && json) || ((page || json) && width)) }
{
    if page && json {
        return Some(help::PAGE_AND_JSON);
    }
    if (page || json) && width {
        return Some(help::WIDTH_WITHOUT_TABLE);
    }
    None
}

/// This as what is wrong with the words after `show`.
fn odds_error(alloc: Global, said: &str) -> Result<Error, Error>
    ensures conflict { IfOk result (λ error. kind_of error ≡ ArgumentConflict) }
    ensures memory { IfErr result (λ error. kind_of error ≡ OutOfMemory) }
{
    let mut command = show(alloc)?;
    let error = command.error(ErrorKind::ArgumentConflict, said);
    drop(command);
    Ok(error?)
}

/// The same settings, whether or not they are at odds.
fn show_read<'w>(alloc: Global, given: &ArgMatches<'w>) -> Result<ShowSettings<'w>, AllocError>
    requires spec { is_some (first_value (found_of given.now) (codes "spec")) ≡ true }
    requires numbers { HaveNumbers (found_of given.now) show_number_options }
    requires draw { MayHaveUnsigned (found_of given.now) (codes "draw") }
    ensures in_range { IfOk result (λ s. IsTrue (are_show_in_range s)) }
    ensures read { IfOk result (AreShowRead (rows_of (found_of given.now))) }
{
    Ok(ShowSettings {
        run: RunSettings {
            spec: given.get_str("spec").unwrap(),
            steps: number_of(given, RUN_STEPS),
            turns: number_of(given, RUN_TURNS),
            script: given.get_str("script"),
            draw: unsigned_if(given, "draw"),
            steps_said: is_said(given, "steps"),
            turns_said: is_said(given, "turns"),
        },
        always: texts_of(alloc, given, "always")?,
        always_files: texts_of(alloc, given, "always-file")?,
        names: texts_of(alloc, given, "only")?,
        width: number_of(given, WIDTH),
        form: form_of(given),
    })
}

/// How the run is to be shown.
fn form_of(given: &ArgMatches<'_>) -> ShowForm
    ensures { result ≡ form_asked (rows_of (found_of given.now)) }
{
    if is_set(given, "html") {
        ShowForm::Page
    } else if is_set(given, "json") {
        ShowForm::Json
    } else {
        ShowForm::Table
    }
}

/// What the words after `show` give.
fn show_parsed<'w, S: AsStr>(alloc: Global, words: &'w [S]) -> Result<ArgMatches<'w>, Error>
    ensures taken { IfOk result (λ _. show_refusals (map S.text words.entry.now) ≡ []) }
    ensures parsed { IfOk result (AreShowParsed (map S.text words.entry.now)) }
    ensures refused { IfErr result (HasKind (show_refusals (map S.text words.entry.now))) }
{
    let command = show(alloc)?;
    let given = command.try_get_matches_from(words)?;
    Ok(given)
}

/// What may come after `show`.
pub(crate) fn show<'w>(alloc: Global) -> Result<Command<'w>, AllocError>
    ensures { IfOk result (λ c. app_of c ≡ line.show_command) }
{
    let command = Command::new(alloc, "asm-explore show").display_name(help::NAME)?;
    let command = described(command, help::SHOW, help::AFTER_SHOW);
    with_arguments(alloc, command, &SHOW_ARGUMENTS)
}
