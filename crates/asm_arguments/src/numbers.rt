//! Options whose values are numbers.
ghost use Rattle.std.specs.Prelude.{◌≡◌, map, IfOk, IsTrue};
ghost use Rattle.clap.specs.Words.{app_of, found_of, rows_of, rule_of};
ghost use Rattle.asm_limits.specs.Limits.{is_within};
ghost use Rattle.asm_limits.specs.code.NumberOptions.{as_option};
ghost use Rattle.asm_arguments.specs.Arguments as arguments;
ghost use Rattle.asm_arguments.specs.Arguments.{with_rules};
ghost use Rattle.asm_arguments.specs.Numbers.{HasNumber, IsNumber};

use asm_limits::run_limits::NumberOption;
use clap::{Arg, ArgAction, ArgMatches, Command};
use std::alloc::{AllocError, Global};

/// The word `--name`, with a number.
pub fn number<'w>(alloc: Global, option: NumberOption) -> Arg<'w>
    ensures { rule_of result ≡ arguments.number (as_option option) }
{
    let argument = Arg::new(alloc, option.name)
        .long(option.name)
        .value_name("N")
        .help(option.help)
        .action(ArgAction::Set)
        .value_parser(clap::value_parser!(u32).range(
            i64::from(option.bounds.least)..=i64::from(option.bounds.most),
        ));
    match option.default {
        Some(text) => argument.default_value(text),
        None => argument.required(true),
    }
}

/// A command with these options behind its other arguments.
pub fn with_numbers<'w>(
    alloc: Global,
    command: Command<'w>,
    options: &[NumberOption],
) -> Result<Command<'w>, AllocError>
    ensures { IfOk result (λ c. app_of c ≡ with_rules (app_of command.entry) (map arguments.number (map as_option options.now))) }
{
    match options.split_first() {
        Some((option, rest)) => {
            let command = command.arg(number(alloc, *option))?;
            with_numbers(alloc, command, rest)
        }
        None => Ok(command),
    }
}

/// The number of an option that has one.
pub fn number_of(given: &ArgMatches<'_>, option: NumberOption) -> u32
    requires { HasNumber (found_of given.now) (as_option option) }
    ensures in_range { IsTrue (is_within option.bounds result) }
    ensures said { IsNumber (rows_of (found_of given.now)) option.name.now result }
{
    given.get_one::<u32>(option.name).unwrap()
}
