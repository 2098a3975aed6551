//! The end of a run in words.
ghost use Rattle.std.specs.Prelude.{◌≡◌, ◌++◌, OnOk};
ghost use Rattle.asm_state.specs.Location.{Proper};
ghost use Rattle.asm_syntax.specs.code.Views.{spec_of};
ghost use Rattle.asm_run.specs.Ends.{end_words, end_words_with};
ghost use Rattle.asm_run.specs.Trace.{at_step, clash_text, end_line};
ghost use Rattle.asm_run.specs.Written.{names_in};
ghost use Rattle.asm_run.specs.code.PartTexts.{at_step_of};

use crate::buffer::push_text;
use crate::end::End;
use crate::line::Line;
use crate::locations::{push_function, push_location, push_path, push_value};
use asm_check::Checked;
use asm_state::word::Word;
use std::alloc::AllocError;

/// Adds an end in words: its kind, and what the line of it in a trace has after the step.
pub fn push_end_words(out: &mut Vec<u8>, checked: &Checked, end: &End) -> Result<(), AllocError>
    ensures { let names = names_in (spec_of checked.now.spec) in
        OnOk result (out.new.items ≡ out.old.items ++ end_words names end.now) }
{
    push_words(out, checked, b" ", end)
}

/// Adds the line of an end in a trace.
pub(crate) fn push_end_line(
    out: &mut Vec<u8>,
    checked: &Checked,
    end: &End,
) -> Result<(), AllocError>
    ensures { let names = names_in (spec_of checked.now.spec) in
        OnOk result (out.new.items ≡ out.old.items ++ end_line (end_words_with names at_step end.now)) }
{
    let between = step_words(end);
    push_text(out, b"end ")?;
    push_words(out, checked, between.as_slice(), end)?;
    push_text(out, b"\n")
}

/// What a trace has between the kind of an end and what it is.
fn step_words(end: &End) -> Line
    ensures { result ≡ at_step_of end.now }
{
    let mut words = Line::new();
    if let Some(step) = end.step() {
        words.text(b" ");
        words.count(step);
        words.text(b" step ");
    }
    words
}

/// Adds an end in words, with these between its kind and what it is.
fn push_words(
    out: &mut Vec<u8>,
    checked: &Checked,
    between: &[u8],
    end: &End,
) -> Result<(), AllocError>
    ensures { let names = names_in (spec_of checked.now.spec) in
        OnOk result (out.new.items ≡ out.old.items ++ end_words_with names (λ step. between.now) end.now) }
{
    match end {
        End::Limit => push_text(out, b"limit"),
        End::Clash {
            function,
            arguments,
            least,
            greatest,
            ..
        } => {
            push_text(out, b"clash")?;
            push_text(out, between)?;
            push_clash(
                out,
                checked,
                *function,
                arguments.as_slice(),
                *least,
                *greatest,
            )
        }
        End::Outside { function, .. } => {
            push_text(out, b"outside")?;
            push_text(out, between)?;
            push_function(out, checked, *function)
        }
        End::Exhausted { path, .. } => {
            push_text(out, b"exhausted")?;
            push_text(out, between)?;
            push_text(out, b"place ")?;
            push_path(out, path.as_slice())
        }
    }
}

/// Adds a location, with the least and the greatest of its values.
fn push_clash(
    out: &mut Vec<u8>,
    checked: &Checked,
    function: usize,
    arguments: &[Word],
    least: Word,
    greatest: Word,
) -> Result<(), AllocError>
    ensures { let names = names_in (spec_of checked.now.spec) in
        OnOk result (out.new.items ≡ out.old.items ++ clash_text names (Proper function arguments.now) (record { least = least; greatest = greatest })) }
{
    push_location(out, checked, function, arguments)?;
    push_text(out, b" least ")?;
    push_value(out, checked, least)?;
    push_text(out, b" greatest ")?;
    push_value(out, checked, greatest)
}
