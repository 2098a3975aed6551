//! The words that the program is called with.
ghost use Rattle.std.specs.Prelude.{◌≡◌, [], map, IsTrue, IfOk, IfErr};
ghost use Rattle.clap.specs.Words.{app_of, rule_of};
ghost use Rattle.asm_limits.specs.Limits.{are_in_range};
ghost use Rattle.asm_tool.specs.CommandLine as line;
ghost use Rattle.asm_tool.specs.CommandLine.{refusals};
ghost use Rattle.asm_arguments.specs.Arguments as arguments;
ghost use Rattle.asm_tool.specs.WordsSaid.{AreParsed, AreSaid, Explains};

use crate::help;
use crate::settings::{Settings, WordFault};
use asm_arguments::numbers::{number, number_of, with_numbers};
use asm_limits::run_limits::{CUT, Limits, ROUNDS, STEPS, TURNS, WORKERS, options_with_defaults};
use clap::{Arg, ArgAction, ArgMatches, Command};
use std::alloc::{AllocError, Global};
use std::convert::AsStr;

/// The settings that the words give, the program's name not among them.
pub fn settings<'w, S: AsStr>(alloc: Global, words: &'w [S]) -> Result<Settings<'w>, WordFault>
    ensures in_range { IfOk result (λ s. IsTrue (are_in_range s.limits)) }
    ensures taken { IfOk result (λ _. refusals (map S.text words.entry.now) ≡ []) }
    ensures said { IfOk result (AreSaid (map S.text words.entry.now)) }
    ensures refused { IfErr result (Explains (map S.text words.entry.now)) }
{
    let given = given(alloc, words)?;
    let limits = Limits {
        steps: number_of(&given, STEPS),
        turns: number_of(&given, TURNS),
        workers: number_of(&given, WORKERS),
        cut: number_of(&given, CUT),
        rounds: number_of(&given, ROUNDS),
    };
    let spec = given.get_str("spec");
    let script = given.get_str("script");
    Ok(Settings {
        spec,
        script,
        limits,
    })
}

/// What the words give.
fn given<'w, S: AsStr>(alloc: Global, words: &'w [S]) -> Result<ArgMatches<'w>, WordFault>
    ensures taken { IfOk result (λ _. refusals (map S.text words.entry.now) ≡ []) }
    ensures parsed { IfOk result (AreParsed (map S.text words.entry.now)) }
    ensures refused { IfErr result (Explains (map S.text words.entry.now)) }
{
    Ok(command(alloc)?.try_get_matches_from(words)?)
}

/// What the program may be called with.
fn command<'w>(alloc: Global) -> Result<Command<'w>, AllocError>
    ensures { IfOk result (λ c. app_of c ≡ line.command) }
{
    let command = Command::new(alloc, "asm")
        .version(help::VERSION)
        .about(help::ABOUT)
        .after_help(help::AFTER)
        .no_binary_name(true)
        .arg(file(alloc, "spec", "SPEC", help::SPEC))?
        .arg(number(alloc, STEPS))?
        .arg(file(alloc, "script", "FILE", help::SCRIPT).long("script"))?;
    with_numbers(alloc, command, &options_with_defaults())
}

/// A file's name, as a word of its own.
fn file<'w>(alloc: Global, name: &'w str, shown: &'w str, help: &'w str) -> Arg<'w>
    ensures { rule_of result ≡ arguments.positional name.entry.now }
{
    Arg::new(alloc, name)
        .value_name(shown)
        .help(help)
        .action(ArgAction::Set)
}
