//! The words after a command, as arguments, and what they give.
ghost use Rattle.std.specs.Prelude.{◌≡◌, Some, IfOk};
ghost use Rattle.std.specs.Str.Parse.{digits_value, without_leading_plus};
ghost use Rattle.clap.specs.Walk.{texts};
ghost use Rattle.clap.specs.Words.{first_value, found_of, rule_of, rows_of};
ghost use Rattle.asm_arguments.specs.Arguments as arguments;
ghost use Rattle.asm_explore_words.specs.CommandLine as line;
ghost use Rattle.asm_explore_words.specs.WordsSaid.{HasUnsigned, MayBeUnsigned, MayHaveUnsigned, all_of, is_said, is_yes};

use clap::parser::ValueSource;
use clap::{Arg, ArgAction, ArgMatches};
use std::alloc::{AllocError, Global};

/// A word of its own.
pub(crate) fn word<'w>(alloc: Global, name: &'w str, shown: &'w str, help: &'w str) -> Arg<'w>
    ensures { rule_of result ≡ arguments.positional name.entry.now }
{
    Arg::new(alloc, name)
        .value_name(shown)
        .help(help)
        .action(ArgAction::Set)
}

/// The word `--name`, with a text.
pub(crate) fn text<'w>(alloc: Global, name: &'w str, shown: &'w str, help: &'w str) -> Arg<'w>
    ensures { rule_of result ≡ arguments.option name.entry.now }
{
    word(alloc, name, shown, help).long(name)
}

/// The same, which may be repeated.
pub(crate) fn texts<'w>(alloc: Global, name: &'w str, shown: &'w str, help: &'w str) -> Arg<'w>
    ensures { rule_of result ≡ line.repeated (arguments.option name.entry.now) }
{
    text(alloc, name, shown, help).action(ArgAction::Append)
}

/// The word `--name`, with a number of 64 bits.
pub(crate) fn unsigned<'w>(alloc: Global, name: &'w str, help: &'w str) -> Arg<'w>
    ensures { rule_of result ≡ line.unsigned name.entry.now }
{
    text(alloc, name, "N", help).value_parser(clap::value_parser!(u64))
}

/// The word `--name`, without a value.
pub(crate) fn flag<'w>(alloc: Global, name: &'w str, help: &'w str) -> Arg<'w>
    ensures { rule_of result ≡ line.flag name.entry.now }
{
    Arg::new(alloc, name)
        .long(name)
        .help(help)
        .action(ArgAction::SetTrue)
}

/// The number of 64 bits of an option that has one.
pub(crate) fn unsigned_of(given: &ArgMatches<'_>, name: &str) -> u64
    requires { HasUnsigned (found_of given.now) name.now }
    ensures { (text : _) → first_value (found_of given.now) name.now ≡ Some text → digits_value 10 (without_leading_plus text) ≡ result }
{
    given.get_one::<u64>(name).unwrap()
}

/// The number of 64 bits of an option that may have one.
pub(crate) fn unsigned_if(given: &ArgMatches<'_>, name: &str) -> Option<u64>
    requires { MayHaveUnsigned (found_of given.now) name.now }
    ensures { MayBeUnsigned (rows_of (found_of given.now)) name.now result }
{
    given.get_one::<u64>(name)
}

/// Whether a flag is among the words.
pub(crate) fn is_set(given: &ArgMatches<'_>, name: &str) -> bool
    ensures { result ≡ is_yes (first_value (found_of given.now) name.now) }
{
    match given.get_str(name) {
        Some(text) => text == "true",
        None => false,
    }
}

/// Whether an option is among the words, rather than its default alone.
pub(crate) fn is_said(given: &ArgMatches<'_>, name: &str) -> bool
    ensures { result ≡ is_said name.now (rows_of (found_of given.now)) }
{
    match given.value_source(name) {
        Some(ValueSource::CommandLine) => true,
        Some(ValueSource::DefaultValue) => false,
        None => false,
    }
}

/// The texts of an option, in the order of the words.
pub(crate) fn texts_of<'w>(
    alloc: Global,
    given: &ArgMatches<'w>,
    name: &str,
) -> Result<Vec<&'w str>, AllocError>
    ensures { IfOk result (λ found. texts found.items ≡ all_of name.now (rows_of (found_of given.now))) }
{
    match given.get_strs(name) {
        Some(texts) => texts.to_vec(alloc),
        None => Ok(Vec::new(alloc)),
    }
}
