//! What is to be written in place of bytes with which no token begins.
use crate::candidates::Candidates;
use crate::comments::{COMMENT, ends_in_dashes};
use crate::place::Place;
use crate::symbol_habits::{ALWAYS, cure_of_set};
use asm_syntax::{InputError, Keyword, tokens};
use std::alloc::{AllocError, Global};

const STRINGS: &str =
    "there are no strings: declare names as elements, as in `enum Colour = { red, green }`";

/// Says what cures the byte at an offset, with which no token begins.
pub(crate) fn push_bad_byte(
    alloc: Global,
    out: &mut String,
    text: &[u8],
    at: usize,
    is_condition: bool,
) -> Result<(), AllocError> {
    let (before, rest) = text.split_at(at.min(text.len()));
    if ends_in_dashes(before) {
        return out.push_str(COMMENT);
    }
    if is_of_its_place(rest) {
        match tokens(alloc, before) {
            Ok(tokens) => {
                let place = Place::of(before, tokens.as_slice(), before.len(), is_condition);
                if let Some(cure) = cure_at(alloc, &place, rest)? {
                    return out.push_str(cure);
                }
            }
            Err(InputError::Memory) => return Err(AllocError),
            Err(InputError::Named(_)) => {}
        }
    }
    out.push_str(cure_of_byte(before, rest))
}

/// Whether it depends on what is before a byte what would cure it.
fn is_of_its_place(rest: &[u8]) -> bool {
    match rest {
        [b'|', b'|', ..] => false,
        [byte, ..] => matches!(*byte, b'|' | b'[' | b';'),
        [] => false,
    }
}

/// What cures such a byte at the end of a text, if what is before it says so.
fn cure_at(
    alloc: Global,
    place: &Place<'_>,
    rest: &[u8],
) -> Result<Option<&'static str>, AllocError> {
    let next = Candidates::at(alloc, place)?;
    Ok(match rest {
        [b'|', ..] => cure_of_bar(&next),
        [b'[', ..] => cure_of_bracket(place, &next),
        _ => cure_of_semicolon(&next),
    })
}

/// What cures a `|` where this could stand.
fn cure_of_bar(next: &Candidates) -> Option<&'static str> {
    if next.term {
        return Some(
            "there are no sizes and no absolute values: write the number, and compare twice, as in `-3 < x and x < 3`",
        );
    }
    if next.has("`with`") {
        return Some("write `with`");
    }
    if next.has("`holds`") {
        return Some("write `holds`");
    }
    None
}

/// What cures a `[` at a place where this could stand.
fn cure_of_bracket(place: &Place<'_>, next: &Candidates) -> Option<&'static str> {
    if place.is_condition && place.before.is_empty() {
        return Some(ALWAYS);
    }
    if next.number && place.has_word_in_item(Keyword::Universe) {
        return Some("the ends of a universe have no brackets, as in `universe Floor = 0 .. 3`");
    }
    cure_of_set(place, next)
}

/// What cures a `;` where this could stand.
fn cure_of_semicolon(next: &Candidates) -> Option<&'static str> {
    if next.has("`,`") {
        return Some("elements and arguments are separated by `,`");
    }
    None
}

/// What cures the byte that a text goes on with at a place, before which it ends so.
fn cure_of_byte(before: &[u8], rest: &[u8]) -> &'static str {
    match rest {
        [b'.', ..] => cure_of_point(before),
        [b'/', ..] | [b'\\', ..] => cure_of_slash(rest),
        [byte, ..] if *byte >= 128 => cure_of_foreign(rest),
        [b'&', ..] => "write `and`",
        [b'|', b'|', ..] => "write `or`",
        [b'|', ..] => "elements and arguments are separated by `,`, and conditions by `or`",
        [b'!', ..] | [b'~', ..] => cure_of_denial(rest),
        [byte, ..] => cure_of_sign(*byte),
        [] => "",
    }
}

/// What cures a single sign.
fn cure_of_sign(byte: u8) -> &'static str {
    match byte {
        b';' => {
            "leave it out: nothing stands between rules; those between `par` and `endpar` act at once, those between `seq` and `endseq` one after another"
        }
        b'[' | b']' => "arguments stand in parentheses: `f(x)`",
        b'"' | b'`' => STRINGS,
        b'\'' => "the next value is assigned, as in `x := x + 1`, and names have no quotes",
        b'%' => "write `mod`",
        b'^' => "there are no powers: multiply; conditions are joined by `and`",
        b'#' => "a comment begins with `//`, and unequal is `!=`",
        b'?' => "a term has no `?`: let a rule choose by `if c then P else Q endif`",
        b'@' | b'$' => "a name has letters, digits and `_` alone",
        _ => "outside of comments there are letters, digits and the signs of the language alone",
    }
}

/// What cures a point, which no second one follows.
fn cure_of_point(before: &[u8]) -> &'static str {
    match before {
        [.., b'.', b'.'] => "write two dots, as in `0 .. 3`",
        [.., last] if last.is_ascii_digit() => {
            "there are no fractions: count in a smaller unit, as 35 tenths in place of 3.5"
        }
        _ => "there are no fields: a function with an argument has them, `f(x)` in place of `x.f`",
    }
}

/// What cures `/` and `\`.
fn cure_of_slash(rest: &[u8]) -> &'static str {
    match rest {
        [b'/', b'\\', ..] => "write `and`",
        [b'\\', b'/', ..] => "write `or`",
        [b'/', b'=', ..] => "write `!=`",
        [b'/', ..] => "write `div`, which divides integers",
        [b'\\', b'i', b'n', ..] => "write `in`",
        [b'\\', b'E', ..] => "write `(exists x in U with c)`",
        [b'\\', b'A', ..] => "write `(forall x in U holds c)`",
        [b'\\', b'*', ..] => "a comment begins with `//`",
        _ => "no token has a `\\`",
    }
}

/// What cures `!` and `~`.
fn cure_of_denial(rest: &[u8]) -> &'static str {
    match rest {
        [b'~', b'=', ..] => "write `!=`",
        _ => "write `not`",
    }
}

/// What cures a character beyond ASCII.
fn cure_of_foreign(rest: &[u8]) -> &'static str {
    match rest {
        [0xef, 0xbb, 0xbf, ..] =>
            "this is a byte order mark, which isn't seen: save the text without it",
        [0xe2, 0x89, 0xa0, ..] => "write `!=`",
        [0xe2, 0x89, 0xa4, ..] => "write `<=`",
        [0xe2, 0x89, 0xa5, ..] => "write `>=`",
        [0xe2, 0x88, 0xa7, ..] => "write `and`",
        [0xe2, 0x88, 0xa8, ..] => "write `or`",
        [0xc2, 0xac, ..] => "write `not`",
        [0xe2, 0x88, 0x88, ..] => "write `in`",
        [0xe2, 0x88, 0x83, ..] => "write `(exists x in U with c)`",
        [0xe2, 0x88, 0x80, ..] => "write `(forall x in U holds c)`",
        [0xe2, 0x86, 0x92, ..] => "write `->`",
        [0xe2, 0x80, 0x93, ..] | [0xe2, 0x88, 0x92, ..] => "write `-`",
        [0xe2, 0x80, 0x98 | 0x99 | 0x9a | 0x9c | 0x9d | 0x9e, ..] => STRINGS,
        [0xc2, 0xab | 0xbb, ..] => STRINGS,
        [0xc2, 0xa0, ..] => "this is a space that doesn't break a line: write a plain one",
        _ =>
            "a name has the letters `A` to `Z` and `a` to `z`, digits and `_` alone; other letters stand in comments",
    }
}

/// What cures the digits that a text goes on with, which are no number.
pub(crate) fn cure_of_number(rest: &[u8]) -> &'static str {
    let behind = rest.iter().find(|byte| !byte.is_ascii_digit());
    match behind {
        Some(byte) if byte.is_ascii_alphabetic() || *byte == b'_' => {
            "a name begins with a letter or `_`: put the digits behind; between a number and a word stands a space"
        }
        _ => "numbers go up to 100000000000000000: count in a larger unit",
    }
}
