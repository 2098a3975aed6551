//! Whole texts as scripts.
ghost use Rattle.std.specs.Prelude.{◌≡◌, ◌≤◌, ◌<◌, ◌+◌, length, map, Err, IfOk, IfErr};
ghost use Rattle.std.specs.Str.Lines.{strip_carriage_return};
ghost use Rattle.asm_syntax.specs.declared.input_error.InputError.TheVariants.{Memory, Named};
ghost use Rattle.asm_reader.specs.declared.script_error.ScriptError.TheVariants.{TooLong};
ghost use Rattle.asm_reader.specs.ScriptLines as lines;
ghost use Rattle.asm_reader.specs.code.PathNumbers.{Says};
ghost use Rattle.asm_reader.specs.ScriptText.{AreFaultless, IsScript, max_script, script_in};
ghost use Rattle.asm_reader.specs.ScriptRefusals.{ExplainsScript, ExplainsLines};
ghost use Rattle.asm_reader.specs.code.LinesSaid.{bytes_in};

use crate::path_numbers::PathNumbers;
use crate::script::Script;
use crate::script_error::ScriptError;
use crate::script_line::{is_skipped, line_said, parts, without_return};
use asm_syntax::{InputError, MAX_LENGTH};
use std::alloc::Global;

/// The most bytes that a script may have.
pub const MAX_SCRIPT: usize = MAX_LENGTH;

/// What the lines say.
fn read_lines(alloc: Global, lines: &[&[u8]]) -> Result<PathNumbers, InputError<ScriptError>>
    requires { bytes_in (map (λ l. l.now) lines.now) ≤ max_script + 1 }
    ensures faultless { IfOk result (λ s. AreFaultless (map (λ l. strip_carriage_return l.now) lines.now)) }
    ensures says { IfOk result (λ p. Says p (script_in (map (λ l. strip_carriage_return l.now) lines.now))) }
    ensures refused { IfErr result (ExplainsLines (map (λ l. strip_carriage_return l.now) lines.now)) }
{
    let mut places = PathNumbers::new(alloc);
    for i in 0..lines.len() {
        let line = without_return(lines[i]);
        if is_skipped(line) {
            continue;
        }
        let Some(choice) = line_said(alloc, line)? else {
            return Err(InputError::Named(ScriptError::BadLine { line: i + 1 }));
        };
        if !places.add(&choice)? {
            return Err(InputError::Named(ScriptError::Repeated { line: i + 1 }));
        }
    }
    Ok(places)
}

/// The script that the text spells, or why it spells none: the first line that has a fault.
pub fn read_script(alloc: Global, text: &[u8]) -> Result<Script, InputError<ScriptError>>
    ensures found { IfOk result (λ s. IsScript text.now s) }
    ensures refused { IfErr result (ExplainsScript text.now) }
    ensures too_long { max_script < length text.now → result ≡ Err (Named TooLong) }
    // A text that spells a script is refused only if memory runs out.
    ensures accepted { (s : lines.Script) → IsScript text.now s → IfErr result (λ e. e ≡ Memory) }
{
    if text.len() > MAX_SCRIPT {
        return Err(InputError::Named(ScriptError::TooLong));
    }
    // The list of the lines ends before the text is copied.
    let places = {
        let lines = parts(alloc, text, b'\n')?;
        read_lines(alloc, lines.as_slice())?
    };
    Ok(Script {
        text: text.to_vec(alloc)?,
        places,
    })
}
