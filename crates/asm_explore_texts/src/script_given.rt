//! The script that is given.
ghost use Rattle.std.specs.Prelude.{◌≡◌, IfErr, IfOk};
ghost use Rattle.asm_reader.specs.ScriptText.{IsScript, IsScriptRefusal};
ghost use Rattle.asm_explore_texts.specs.RefusedTexts.{ExplainsText, IsScriptRefused};
ghost use Rattle.asm_explore_texts.specs.Positions.{line_start};

use asm_explore_words::fault::{Fault, RefusedText, Source, TextError};
use asm_explore_words::settings::RunSettings;
use asm_reader::{Script, ScriptError, read_script};
use asm_syntax::InputError;
use std::alloc::{AllocError, Global};

/// The script with this text.
pub fn script_given<'w>(
    alloc: Global,
    text: &[u8],
    settings: &RunSettings<'w>,
) -> Result<Script, Fault<'w>>
    ensures found { IfOk result (λ script. IsScript text.now script) }
    ensures refused { IfErr result (ExplainsText (IsScriptRefused text.now settings.now)) }
{
    match read_script(alloc, text) {
        Ok(script) => Ok(script),
        Err(InputError::Memory) => Err(Fault::Memory),
        Err(InputError::Named(error)) => Err(refused(alloc, text, settings, error)?),
    }
}

/// The fault of a script's text that is refused.
fn refused<'w>(
    alloc: Global,
    text: &[u8],
    settings: &RunSettings<'w>,
    error: ScriptError,
) -> Result<Fault<'w>, AllocError>
    ensures { IsScriptRefusal text.now error → IfOk result (ExplainsText (IsScriptRefused text.now settings.now)) }
{
    let at = match error.line() {
        Some(number) => Some(start_of_line(text, number)),
        None => None,
    };
    let text = Vec::from_slice(alloc, text)?;
    Ok(Fault::Text(RefusedText {
        source: Source::Script(settings.script.unwrap_or("-")),
        text,
        error: TextError::Script(error),
        at,
    }))
}

/// Where the line with this number begins; lines count from 1.
fn start_of_line(text: &[u8], number: usize) -> usize
    ensures { result ≡ line_start text.now number }
{
    let mut before = number.saturating_sub(1);
    for at in 0..text.len() {
        if before == 0 {
            return at;
        }
        if text[at] == b'\n' {
            before -= 1;
        }
    }
    text.len()
}
