//! Names with a `-`, and arguments without parentheses.
use crate::place::Place;
use crate::sentence::shown;
use asm_syntax::{Kind, Symbol};
use std::alloc::AllocError;

/// Says how a name is written that is declared with a `-`. Returns whether one is at the place.
pub(crate) fn push_name_with_minus(
    out: &mut String,
    place: &Place<'_>,
) -> Result<bool, AllocError> {
    let is_minus = place.has_symbol(Symbol::Minus) && place.is_joined();
    if !is_minus || !place.is_behind_declared() {
        return Ok(false);
    }
    match place.ahead(1) {
        Some(token) if token.kind == Kind::Name => {
            let (front, back) = (shown(place.bytes_back(1)), shown(place.bytes(token)));
            write!(out, "a name has no `-`: write `{front}_{back}`")?;
            Ok(true)
        }
        _ => Ok(false),
    }
}

/// Says how an argument is written, if one is refused without parentheses. Returns whether one is.
pub(crate) fn push_bare_argument(out: &mut String, place: &Place<'_>) -> Result<bool, AllocError> {
    let (function, argument) = (place.bytes_back(1), place.refused());
    if !is_alone(place) || function == argument || !place.takes_arguments(function) {
        return Ok(false);
    }
    let (function, argument) = (shown(function), shown(argument));
    write!(
        out,
        "arguments stand in parentheses: `{function}({argument})`"
    )?;
    Ok(true)
}

/// Whether a name or a number is refused that has no arguments, in the line of what is before it, and
/// where terms stand.
fn is_alone(place: &Place<'_>) -> bool {
    let is_argument = match place.ahead(0) {
        Some(token) => matches!(token.kind, Kind::Name | Kind::Number(_)),
        None => false,
    };
    let has_arguments = match place.ahead(1) {
        Some(token) => token.kind == Kind::Symbol(Symbol::Open),
        None => false,
    };
    is_argument && !has_arguments && place.is_in_line() && place.is_in_body_item()
}
