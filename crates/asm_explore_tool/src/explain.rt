//! The message on standard error.
use crate::buffered_writer::BufferedWriter;
use crate::no_answer::NoAnswer;
use asm_explore_hints::hint::hint;
use asm_explore_hints::words::with_tips;
use asm_explore_texts::excerpt::excerpt;
use asm_explore_texts::position::{Line, Position};
use asm_explore_words::fault::{RefusedText, Source};
use asm_run::sink::Sink;
use clap::Error;
use std::alloc::{AllocError, Global};
use std::convert::AsStr;
use std::fmt;
use std::fmt::Write;

/// Says why the program ends without a report. If even this can't be written, the status alone
/// tells.
pub(crate) fn explain<E: Sink>(fault: &NoAnswer<'_>, err: &mut E) {
    let mut out = BufferedWriter::new(err);
    let _ = message(fault, &mut out).and_then(|()| out.hand_on());
}

/// Says why these words have no report, and what would cure that. If there is no memory for what
/// would, it isn't said.
pub(crate) fn explain_to<S: AsStr, E: Sink>(
    alloc: Global,
    words: &[S],
    fault: &NoAnswer<'_>,
    err: &mut E,
) {
    let mut out = BufferedWriter::new(err);
    let _ = message_to(alloc, words, fault, &mut out).and_then(|()| out.hand_on());
}

fn message_to<S: AsStr, W: Write>(
    alloc: Global,
    words: &[S],
    fault: &NoAnswer<'_>,
    out: &mut W,
) -> fmt::Result {
    match fault {
        NoAnswer::Words(error) => match told(alloc, words, error) {
            Ok(text) => out.write_str(text.as_str()),
            Err(_) => write!(out, "{error}"),
        },
        NoAnswer::Text(refused, specification) => {
            refusal(refused, out)?;
            match hint(alloc, specification.as_deref(), refused) {
                Ok(hint) if !hint.is_empty() => writeln!(out, "hint: {hint}"),
                _ => Ok(()),
            }
        }
        NoAnswer::Name(name) => unknown(name_option(words), name, out),
        _ => message(fault, out),
    }
}

/// The option of these words that gives names of what is shown.
fn name_option<S: AsStr>(words: &[S]) -> &'static str {
    match words.first() {
        Some(command) if command.as_str() == "all" => "--dot-only",
        _ => "--only",
    }
}

/// What is wrong with these words.
fn told<S: AsStr>(alloc: Global, words: &[S], error: &Error) -> Result<String, AllocError> {
    let text = format!(in alloc; "{error}")?;
    with_tips(alloc, words, text.as_str())
}

fn message<W: Write>(fault: &NoAnswer<'_>, out: &mut W) -> fmt::Result {
    match fault {
        NoAnswer::Words(error) => write!(out, "{error}"),
        NoAnswer::NotText => out.write_str("asm-explore: a word isn't UTF-8\n"),
        NoAnswer::Text(refused, _) => refusal(refused, out),
        NoAnswer::Memory => out.write_str("asm-explore: out of memory\n"),
        NoAnswer::File(source) => unreadable(*source, out),
        NoAnswer::Write => out.write_str("asm-explore: the answer can't be written\n"),
        NoAnswer::Graph(name) => writeln!(out, "asm-explore: {name}: the graph can't be written"),
        NoAnswer::QuietScript(name) => {
            writeln!(out, "asm-explore: {name}: the script can't be written")
        }
        NoAnswer::Name(name) => unknown("--only", name, out),
        NoAnswer::Draw(seed) => {
            writeln!(
                out,
                "asm-explore: --draw {seed}: the script of the run can't be written"
            )
        }
        NoAnswer::Unconfirmed => {
            out.write_str("asm-explore: an error of this program: the script leads to no fault\n")
        }
    }
}

/// Writes that no location has this name, which the option gives, nor the function of one.
fn unknown<W: Write>(option: &str, name: &str, out: &mut W) -> fmt::Result {
    writeln!(
        out,
        "asm-explore: {option} {name}: no location is named so, nor its function"
    )
}

fn unreadable<W: Write>(source: Source<'_>, out: &mut W) -> fmt::Result {
    match source {
        Source::Specification("-") | Source::Script("-") => {
            out.write_str("asm-explore: standard input can't be read\n")
        }
        _ => writeln!(out, "asm-explore: {source}: the file can't be read"),
    }
}

/// Writes what is wrong with a text, and the line where it is.
fn refusal<W: Write>(refused: &RefusedText<'_>, out: &mut W) -> fmt::Result {
    let source = refused.source;
    let error = refused.error;
    let Some(at) = refused.at else {
        return writeln!(out, "{source}: {error}");
    };
    let text = refused.text.as_slice();
    let Position { line, column } = Position::of(text, at);
    writeln!(out, "{source}:{line}:{column}: {error}")?;
    excerpt(&Line::with(text, at), out)
}
