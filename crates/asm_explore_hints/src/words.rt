//! What is said of words that can't be understood, with tips that are right.
use crate::sentence::push_list;
use std::alloc::{AllocError, Global};
use std::convert::AsStr;

/// The commands, in quotes.
static COMMANDS: [&str; 5] = ["'all'", "'random'", "'choices'", "'clash'", "'show'"];

/// The options whose value is a condition.
static CONDITIONS: [&str; 3] = ["--always", "--deadlock-unless", "--within"];

/// The options whose value is a number.
static NUMBERS: [&str; 8] = [
    "--steps",
    "--turns",
    "--states",
    "--outcomes",
    "--workers",
    "--runs",
    "--seed",
    "--width",
];

/// The commands that look whether a condition is always true.
static CONDITIONED: [&str; 3] = ["all", "random", "show"];

/// A tip begins so that doesn't help, if the value of an option begins with a minus.
const WRONG_TIP: &str = "  tip: to pass '";

/// So does one on an option that the command doesn't have.
const OPTION_TIP: &str = "  tip: to pass '--";

/// That a word is one too many is said so, before it and behind it.
const NEEDLESS: (&str, &str) = ("error: unexpected argument '", "' found");

/// What is said before the tips ends here.
const USAGE: &str = "Usage: ";

/// The text that says what is wrong with these words, with a tip on the command in front of its usage
/// and without a tip that is wrong.
pub fn with_tips<S: AsStr>(alloc: Global, words: &[S], text: &str) -> Result<String, AllocError> {
    let mut out = String::new(alloc);
    for line in text.lines() {
        if line.starts_with(USAGE) {
            push_command_tip(alloc, &mut out, words)?;
            push_condition_tip(&mut out, words, text)?;
        }
        if line.starts_with(WRONG_TIP) {
            push_tip(&mut out, words, line)?;
        } else {
            out.push_str(line)?;
        }
        out.push('\n')?;
    }
    Ok(out)
}

/// Says which commands there are, if the first word is none.
fn push_command_tip<S: AsStr>(
    alloc: Global,
    out: &mut String,
    words: &[S],
) -> Result<(), AllocError> {
    let Some(first) = words.first() else {
        return Ok(());
    };
    let first = first.as_str();
    if is_command(first) {
        return Ok(());
    }
    out.push_str("  tip: ")?;
    if is_file(first) {
        write!(
            out,
            "the command comes before the specification, as in 'asm-explore all {first}'; "
        )?;
    }
    out.push_str("the commands are ")?;
    push_list(out, &COMMANDS, "and")?;
    out.push_str("\n\n")
}

/// Whether this word is one of the commands.
fn is_command(word: &str) -> bool {
    COMMANDS
        .iter()
        .any(|command| command.trim_matches('\'') == word)
}

/// Whether this word seems to name a file.
fn is_file(word: &str) -> bool {
    !word.starts_with('-') && (word.contains('.') || word.contains('/'))
}

/// Says how a condition is given, if a word is one too many that may be one.
fn push_condition_tip<S: AsStr>(
    out: &mut String,
    words: &[S],
    text: &str,
) -> Result<(), AllocError> {
    let is_conditioned = match words.first() {
        Some(first) => CONDITIONED.iter().any(|other| *other == first.as_str()),
        None => false,
    };
    match needless_word(text) {
        Some(word) if is_conditioned => write!(
            out,
            "  tip: a condition stands behind an option, as in --always '{word}'\n\n"
        ),
        _ => Ok(()),
    }
}

/// The word that is one too many by this text, if it is no option and seems to name no file.
fn needless_word(text: &str) -> Option<&str> {
    let (begins, ends) = NEEDLESS;
    let (_, behind) = text.split_once(begins)?;
    let (word, _) = behind.split_once(ends)?;
    if word.starts_with('-') || is_file(word) {
        return None;
    }
    Some(word)
}

/// Says what cures what the library takes for a value that begins with a minus, or else this.
fn push_tip<S: AsStr>(out: &mut String, words: &[S], line: &str) -> Result<(), AllocError> {
    if let Some(option) = minus_option(words) {
        return push_minus_tip(out, option);
    }
    if line.starts_with(OPTION_TIP) {
        return push_option_tip(out, words, line);
    }
    if let Some(option) = number_option(words) {
        return write!(out, "  tip: {option} takes a number without a minus");
    }
    match words
        .iter()
        .find_map(|word| behind_one_minus(word.as_str()))
    {
        Some(name) => write!(
            out,
            "  tip: an option begins with two minus signs: --{name}"
        ),
        None => out.push_str(line),
    }
}

/// Says where the options of the command are told, or else this.
fn push_option_tip<S: AsStr>(out: &mut String, words: &[S], line: &str) -> Result<(), AllocError> {
    match words.first() {
        Some(first) if is_command(first.as_str()) => {
            let first = first.as_str();
            write!(
                out,
                "  tip: 'asm-explore {first} --help' shows the options of '{first}'"
            )
        }
        _ => out.push_str(line),
    }
}

/// The option behind which a negative number stands.
fn number_option<S: AsStr>(words: &[S]) -> Option<&'static str> {
    let mut option = None;
    for word in words {
        let word = word.as_str();
        if option.is_some() && word.starts_with('-') {
            return option;
        }
        option = NUMBERS.iter().copied().find(|other| *other == word);
    }
    None
}

/// What stands behind the single minus of a word that seems to be an option.
fn behind_one_minus(word: &str) -> Option<&str> {
    let name = word.strip_prefix('-')?;
    let letters = name.as_bytes();
    let is_name = letters
        .iter()
        .all(|byte| byte.is_ascii_lowercase() || *byte == b'-');
    if letters.len() < 2 || name.starts_with('-') || !is_name {
        return None;
    }
    Some(name)
}

/// The option behind which a word stands that begins with a minus, and was to be a condition.
fn minus_option<S: AsStr>(words: &[S]) -> Option<&'static str> {
    let mut option = None;
    for word in words {
        let word = word.as_str();
        if option.is_some() && word.starts_with('-') {
            return option;
        }
        option = CONDITIONS.iter().copied().find(|other| *other == word);
    }
    None
}

/// Says how a condition is given that begins with a minus.
fn push_minus_tip(out: &mut String, option: &str) -> Result<(), AllocError> {
    write!(
        out,
        "  tip: a condition that begins with a minus stands behind an equals sign, as in {option}='-x < 3'"
    )
}
