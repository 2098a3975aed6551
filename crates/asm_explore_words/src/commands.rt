//! Commands, by what their arguments are.
ghost use Rattle.std.specs.Prelude.{◌≡◌, true, map, IfOk};
ghost use Rattle.clap.specs.Simple.{on_top};
ghost use Rattle.clap.specs.Words.{app_of, rule_of};
ghost use Rattle.asm_arguments.specs.Arguments.{with_rules};
ghost use Rattle.asm_explore_words.specs.code.ArgumentRules.{rule_for};

use crate::arguments::{flag, text, texts, unsigned, word};
use crate::help;
use asm_arguments::numbers::number;
use asm_limits::run_limits::NumberOption;
use clap::{Arg, Command};
use std::alloc::{AllocError, Global};

/// What an argument of a command is.
#[derive(Clone, Copy)]
pub(crate) enum Argument {
    /// The specification's file, a word of its own that can't be left out.
    Specification,
    /// The word `--name`, with a text.
    Text {
        name: &'static str,
        shown: &'static str,
        help: &'static str,
    },
    /// The same, which may be repeated.
    Texts {
        name: &'static str,
        shown: &'static str,
        help: &'static str,
    },
    /// The word `--name`, with a number within bounds.
    Number(NumberOption),
    /// The word `--seed`, with a number of 64 bits, for which 0 stands.
    Seed,
    /// The word `--draw`, with a number of 64 bits.
    Draw,
    /// The word `--name`, without a value.
    Flag {
        name: &'static str,
        help: &'static str,
    },
}

/// The argument, as the library that reads the words takes it.
fn stated<'w>(alloc: Global, argument: Argument) -> Arg<'w>
    ensures { rule_of result ≡ rule_for argument }
{
    match argument {
        Argument::Specification => word(alloc, "spec", "SPEC", help::SPEC).required(true),
        Argument::Text { name, shown, help } => text(alloc, name, shown, help),
        Argument::Texts { name, shown, help } => texts(alloc, name, shown, help),
        Argument::Number(option) => number(alloc, option),
        Argument::Seed => unsigned(alloc, "seed", help::SEED).default_value("0"),
        Argument::Draw => unsigned(alloc, "draw", help::DRAW),
        Argument::Flag { name, help } => flag(alloc, name, help),
    }
}

/// A command with these arguments behind its other ones.
pub(crate) fn with_arguments<'w>(
    alloc: Global,
    command: Command<'w>,
    arguments: &[Argument],
) -> Result<Command<'w>, AllocError>
    ensures { IfOk result (λ c. app_of c ≡ with_rules (app_of command.entry) (map rule_for arguments.now)) }
{
    match arguments.split_first() {
        Some((argument, rest)) => {
            let command = command.arg(stated(alloc, *argument))?;
            with_arguments(alloc, command, rest)
        }
        None => Ok(command),
    }
}

/// A command with the program's version, whose help says this of it, before and after what it shows
/// of the arguments. Its words come without the program's name.
pub(crate) fn described<'w>(command: Command<'w>, about: &'w str, after: &'w str) -> Command<'w>
    ensures { app_of result ≡ on_top (λ s. record s { has_version = true; no_binary_name = true }) (app_of command.entry) }
{
    command
        .version(help::VERSION)
        .about(about)
        .after_help(after)
        .no_binary_name(true)
}
