//! A line with a mark under a place in it.
use crate::characters::Characters;
use crate::position::Line;
use std::fmt;
use std::fmt::Write;

/// No more characters of a line are shown.
const MAX_WIDTH: usize = 100;

/// Writes a line, and a mark under the character after `line.before`. Of a long line only the part
/// around the mark is shown.
pub fn excerpt<W: Write>(line: &Line<'_>, out: &mut W) -> fmt::Result {
    let rest = line.rest.strip_suffix(b"\r").unwrap_or(line.rest);
    let mark = Characters::count_of(line.before);
    let length = mark + Characters::count_of(rest);
    let skipped = mark
        .saturating_sub(MAX_WIDTH / 2)
        .min(length.saturating_sub(MAX_WIDTH));
    out.write_str(if skipped > 0 { " ..." } else { "    " })?;
    let characters = Characters::of(line.before).chain(Characters::of(rest));
    for character in characters.skip(skipped).take(MAX_WIDTH) {
        out.write_char(shown(character))?;
    }
    out.write_str(if skipped + MAX_WIDTH < length {
        "...\n"
    } else {
        "\n"
    })?;
    out.write_str("    ")?;
    for _ in skipped..mark {
        out.write_char(' ')?;
    }
    out.write_str("^\n")
}

/// The character, or a space instead of one that would move the mark.
fn shown(character: char) -> char {
    if character.is_control() || is_unseen(character) {
        ' '
    } else {
        character
    }
}

/// Whether a character takes no place of its own, or turns the line around.
fn is_unseen(character: char) -> bool {
    matches!(
        character,
        '\u{200b}'..='\u{200f}' | '\u{2028}'..='\u{202e}' | '\u{2060}'..='\u{206f}' | '\u{feff}'
    )
}
