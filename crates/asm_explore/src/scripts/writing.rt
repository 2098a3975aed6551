//! The text of a script, from its lines.
ghost use Rattle.std.specs.Prelude.{◌≡◌, ◌≤◌, ◌++◌, ◌∷◌, [], length, decimal, IfErr, IfOk, OnOk};
ghost use Rattle.std.specs.String.{string_bytes};
ghost use Rattle.asm_reader.specs.ExactLines.{exactly};
ghost use Rattle.asm_reader.specs.ScriptText.{max_script, IsScript};
ghost use Rattle.asm_meaning.specs.Scripts.{IsUnrepeated};
ghost use Rattle.asm_explore.specs.WrittenScripts.{AreShort, AreSteps, IsTextOf, IsTextRefusal, dotted, line_said, line_text, lines_said, lines_text, numbers_in, numbers_of_line, path_text, written};

use crate::scripts::script_line::{ScriptLine, Zeros};
use crate::scripts::writing_error::WritingError;
use asm_reader::MAX_SCRIPT;
use asm_syntax::InputError;
use std::alloc::Global;

/// The least number with ten digits.
const MIN_LONG_NUMBER: u64 = 1_000_000_000;

/// Adds to a text, unless it would grow too long.
fn add_outcome(text: &mut String, more: &str) -> Result<(), InputError<WritingError>>
    ensures bytes { OnOk result (string_bytes text.new ≡ string_bytes text.old ++ more.now) }
    ensures fits { OnOk result (length (string_bytes text.new) ≤ max_script) }
    ensures refused { IfErr result (IsTextRefusal [] (string_bytes text.old ++ more.now)) }
{
    let len = text.len();
    if len > MAX_SCRIPT || more.len() > MAX_SCRIPT - len {
        return Err(InputError::Named(WritingError::TooLong));
    }
    text.push_str(more)?;
    Ok(())
}

/// Adds a number of nine digits at most.
fn add_number(alloc: Global, text: &mut String, number: u64) -> Result<(), InputError<WritingError>>
    ensures bytes { OnOk result (string_bytes text.new ≡ string_bytes text.old ++ decimal number) }
    ensures fits { OnOk result (length (string_bytes text.new) ≤ max_script) }
    ensures short { OnOk result (AreShort (number ∷ [])) }
    ensures refused { IfErr result (IsTextRefusal (number ∷ []) (string_bytes text.old ++ decimal number)) }
{
    if number >= MIN_LONG_NUMBER {
        return Err(InputError::Named(WritingError::LongNumber));
    }
    let digits = format!(in alloc; "{number}")?;
    add_outcome(text, digits.as_str())
}

/// Adds numbers, each after a dot.
fn add_dotted(
    alloc: Global,
    text: &mut String,
    numbers: &[u64],
) -> Result<(), InputError<WritingError>>
    requires { length (string_bytes text.old) ≤ max_script }
    ensures bytes { OnOk result (string_bytes text.new ≡ string_bytes text.old ++ dotted numbers.now) }
    ensures fits { OnOk result (length (string_bytes text.new) ≤ max_script) }
    ensures short { OnOk result (AreShort numbers.now) }
    ensures refused { IfErr result (IsTextRefusal numbers.now (string_bytes text.old ++ dotted numbers.now)) }
{
    for i in 0..numbers.len() {
        add_outcome(text, ".")?;
        add_number(alloc, text, numbers[i])?;
    }
    Ok(())
}

/// Adds a path.
fn add_path(alloc: Global, text: &mut String, path: &[u64]) -> Result<(), InputError<WritingError>>
    ensures bytes { OnOk result (string_bytes text.new ≡ string_bytes text.old ++ path_text path.now) }
    ensures fits { OnOk result (length (string_bytes text.new) ≤ max_script) }
    ensures short { OnOk result (AreShort path.now) }
    ensures refused { IfErr result (IsTextRefusal path.now (string_bytes text.old ++ path_text path.now)) }
{
    match path {
        [] => add_outcome(text, "-"),
        [first, rest @ ..] => {
            add_number(alloc, text, *first)?;
            add_dotted(alloc, text, rest)
        }
    }
}

/// Adds a line.
fn add_line(
    alloc: Global,
    text: &mut String,
    line: &ScriptLine<'_>,
) -> Result<(), InputError<WritingError>>
    ensures bytes { OnOk result (string_bytes text.new ≡ string_bytes text.old ++ line_text (line_said line.now)) }
    ensures fits { OnOk result (length (string_bytes text.new) ≤ max_script) }
    ensures short { OnOk result (AreShort (numbers_of_line (line_said line.now))) }
    ensures refused { IfErr result (IsTextRefusal (numbers_of_line (line_said line.now)) (string_bytes text.old ++ line_text (line_said line.now))) }
{
    add_number(alloc, text, line.step)?;
    add_outcome(text, " ")?;
    add_path(alloc, text, line.path)?;
    add_outcome(text, " ")?;
    add_number(alloc, text, line.number)?;
    add_outcome(text, "\n")
}

/// Adds a line, if it is written.
fn add_written(
    alloc: Global,
    text: &mut String,
    zeros: Zeros,
    line: &ScriptLine<'_>,
) -> Result<(), InputError<WritingError>>
    requires { length (string_bytes text.old) ≤ max_script }
    ensures bytes { OnOk result (string_bytes text.new ≡ string_bytes text.old ++ lines_text (written zeros (line_said line.now ∷ []))) }
    ensures fits { OnOk result (length (string_bytes text.new) ≤ max_script) }
    ensures short { OnOk result (AreShort (numbers_in (written zeros (line_said line.now ∷ [])))) }
    ensures refused { IfErr result (IsTextRefusal (numbers_in (written zeros (line_said line.now ∷ []))) (string_bytes text.old ++ lines_text (written zeros (line_said line.now ∷ [])))) }
{
    if zeros.writes(line.number) {
        return add_line(alloc, text, line);
    }
    Ok(())
}

/// The text of a script with these lines, in their order. It is refused as soon as it is too long,
/// or a number of a line that is written has more than nine digits.
pub fn script_text(
    alloc: Global,
    lines: &[ScriptLine<'_>],
    zeros: Zeros,
) -> Result<String, InputError<WritingError>>
    ensures text { IfOk result (λ text. IsTextOf (written zeros (lines_said lines.now)) (string_bytes text)) }
    ensures script { IfOk result (λ text. AreSteps (lines_said lines.now) → IsUnrepeated (exactly (lines_said lines.now)) → IsScript (string_bytes text) (exactly (written zeros (lines_said lines.now)))) }
    ensures refused { IfErr result (let lines = written zeros (lines_said lines.now) in IsTextRefusal (numbers_in lines) (lines_text lines)) }
{
    let mut text = String::new(alloc);
    for i in 0..lines.len() {
        add_written(alloc, &mut text, zeros, &lines[i])?;
    }
    Ok(text)
}
