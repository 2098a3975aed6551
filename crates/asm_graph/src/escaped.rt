//! Texts within the quotes of Graphviz.
ghost use Rattle.std.specs.Prelude.{◌≡◌, ◌++◌, OnOk};
ghost use Rattle.std.specs.String.{string_bytes};
ghost use Rattle.asm_graph.specs.Dot.{escaped_character, quoted};

use std::alloc::AllocError;

/// Adds a character, as it is written within quotes.
fn push_character(text: &mut String, character: char) -> Result<(), AllocError>
    ensures { OnOk result (string_bytes text.new ≡ string_bytes text.old ++ escaped_character character) }
{
    match character {
        '"' => text.push_str("\\\""),
        '\\' => text.push_str("\\\\"),
        '\n' => text.push_str("\\n"),
        _ => text.push(character),
    }
}

/// Adds bytes within quotes. They have one byte for each character, as names have.
pub(crate) fn push_quoted(text: &mut String, bytes: &[u8]) -> Result<(), AllocError>
    ensures { OnOk result (string_bytes text.new ≡ string_bytes text.old ++ quoted bytes.now) }
{
    text.push_str("\"")?;
    for byte in bytes {
        push_character(text, char::from(*byte))?;
    }
    text.push_str("\"")
}
