//! Reserved words that are written as names.
use crate::candidates::Candidates;
use crate::open_blocks::is_end_word;
use crate::place::Place;
use crate::sentence::shown;
use crate::token_habits::is_rule_word;
use asm_syntax::{Keyword, Kind, Symbol};
use std::alloc::AllocError;

/// Says that a reserved word is no name, if one is used as one at the place. Returns whether it is.
pub(crate) fn push_reserved(
    out: &mut String,
    place: &Place<'_>,
    next: &Candidates,
) -> Result<bool, AllocError> {
    let Some(word) = reserved(place, next) else {
        return Ok(false);
    };
    let word = shown(word);
    write!(
        out,
        "`{word}` is a reserved word, which can't be a name: write another, as `{word}_`"
    )?;
    Ok(true)
}

/// The reserved word that is used as a name at the place, if one is.
fn reserved<'t>(place: &Place<'t>, next: &Candidates) -> Option<&'t [u8]> {
    match place.ahead(0)?.kind {
        Kind::Keyword(word) if is_for_name(word, place, next) => Some(place.refused()),
        Kind::Symbol(Symbol::Assign) if is_behind_rule_word(place) && place.is_in_line() => {
            Some(place.bytes_back(1))
        }
        _ => None,
    }
}

/// Whether a reserved word that is refused stands for a name.
fn is_for_name(word: Keyword, place: &Place<'_>, next: &Candidates) -> bool {
    if is_end_word(word) {
        return false;
    }
    if next.name {
        return true;
    }
    if !next.rule && !next.term {
        return false;
    }
    is_lone(word, place) || (!is_connective(word) && is_before_operator(place))
}

/// Whether the token before the place is a word with which a rule begins.
fn is_behind_rule_word(place: &Place<'_>) -> bool {
    match place.back(1) {
        Some(token) => match token.kind {
            Kind::Keyword(word) => is_rule_word(word),
            _ => false,
        },
        None => false,
    }
}

/// Whether conditions are joined by this word, before which one is missing rather than that it is a
/// name.
fn is_connective(word: Keyword) -> bool {
    matches!(word, Keyword::And | Keyword::Or | Keyword::Not)
}

/// Whether what stands behind the token that is refused goes on with a name.
fn is_before_operator(place: &Place<'_>) -> bool {
    match place.ahead(1) {
        Some(token) => goes_on(token.kind),
        None => false,
    }
}

/// Whether a term or an assignment goes on with this behind a name.
fn goes_on(kind: Kind) -> bool {
    match kind {
        Kind::Symbol(symbol) => matches!(
            symbol,
            Symbol::Assign
                | Symbol::LeftArrow
                | Symbol::Equal
                | Symbol::NotEqual
                | Symbol::Less
                | Symbol::AtMost
                | Symbol::Greater
                | Symbol::AtLeast
                | Symbol::Plus
                | Symbol::Times
        ),
        Kind::Keyword(word) => {
            matches!(
                word,
                Keyword::And | Keyword::Or | Keyword::Div | Keyword::Mod
            )
        }
        Kind::Name | Kind::Number(_) => false,
    }
}

/// Whether this word begins a declaration, and nothing is declared by it where it is refused.
fn is_lone(word: Keyword, place: &Place<'_>) -> bool {
    let declares = matches!(
        word,
        Keyword::Use
            | Keyword::Init
            | Keyword::Enum
            | Keyword::Universe
            | Keyword::Function
            | Keyword::Derived
            | Keyword::Rule
            | Keyword::Controlled
            | Keyword::Static
            | Keyword::Initially
    );
    declares && !is_before_declared(place)
}

/// Whether what a declaration goes on with stands behind the token that is refused, in its line.
fn is_before_declared(place: &Place<'_>) -> bool {
    match place.ahead(1) {
        Some(token) if place.is_next_in_line() => {
            matches!(
                token.kind,
                Kind::Name | Kind::Keyword(Keyword::Controlled | Keyword::Static)
            )
        }
        _ => false,
    }
}
