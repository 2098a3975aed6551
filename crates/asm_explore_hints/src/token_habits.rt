//! What habit writes with names and numbers, and what to write instead.
use crate::candidates::Candidates;
use crate::open_blocks::is_end_word;
use crate::place::Place;
use crate::symbol_habits::{CONSTANT, CONTROLLED, ENDS, cure_of_set};
use asm_syntax::{Keyword, Kind, Symbol};

const HEAD: &str = "a text begins with `CoreASM` and a name, as in `CoreASM Lift`";

const KIND: &str =
    "`controlled` stands behind `function` if rules assign to it, and `static` if it never changes, as in `function controlled x`";

const ENTRY: &str =
    "the arguments of an entry stand in parentheses, also a single one: `{ (0) -> false, (1) -> true }`";

const STATIC: &str =
    "write `function static n initially 3`; the ends of a universe stay numbers, as in `0 .. 3`";

/// The words by which other languages declare a constant.
static CONSTANTS: [&str; 3] = ["const", "constant", "define"];

/// Those by which they declare what changes.
static VARIABLES: [&str; 5] = ["var", "variable", "dynamic", "shared", "monitored"];

/// What cures the end of a text before which it isn't whole.
pub(crate) fn cure_of_end(next: &Candidates) -> Option<&'static str> {
    if next.has("`CoreASM`") {
        Some(HEAD)
    } else {
        None
    }
}

/// What cures any token that is refused at a place, where this could stand.
pub(crate) fn cure_of_any(place: &Place<'_>, next: &Candidates) -> Option<&'static str> {
    if next.has("`CoreASM`") {
        return Some(HEAD);
    }
    if place.has_word_back(1, Keyword::CoreAsm) {
        return Some("behind `CoreASM` stands the name of the text, as in `CoreASM Lift`");
    }
    if next.has("`controlled`") {
        return Some(KIND);
    }
    if next.number && place.has_word_in_item(Keyword::Universe) {
        return Some(ENDS);
    }
    if next.number {
        return Some(CONSTANT);
    }
    None
}

/// What cures a name that is refused at a place, where this could stand.
pub(crate) fn cure_of_name(place: &Place<'_>, next: &Candidates) -> Option<&'static str> {
    if is_entry(place, next) {
        return Some(ENTRY);
    }
    if let Some(cure) = cure_of_any(place, next) {
        return Some(cure);
    }
    if let Some(cure) = cure_behind_word(place, next) {
        return Some(cure);
    }
    if next.declaration
        && let Some(cure) = cure_of_declaring_word(place.refused())
    {
        return Some(cure);
    }
    cure_of_foreign_word(place.refused())
}

/// What cures a name behind a word of another language, which is read as a call.
fn cure_behind_word(place: &Place<'_>, next: &Candidates) -> Option<&'static str> {
    let word = place.bytes_back(1);
    if !place.is_in_rule() || next.operator || place.declares(word) {
        return None;
    }
    match word {
        b"call" => {
            Some("leave `call` out: a rule is called by its name alone, as in `Serve(x)`")
        }
        b"case" | b"switch" => Some("there is no `case`: write `if c then P else Q endif`"),
        _ => None,
    }
}

/// What cures a word by which another language declares something.
fn cure_of_declaring_word(word: &[u8]) -> Option<&'static str> {
    if is_among(word, &CONSTANTS) {
        return Some(STATIC);
    }
    if is_among(word, &VARIABLES) {
        return Some(CONTROLLED);
    }
    None
}

/// Whether a word is one of these.
fn is_among(word: &[u8], words: &[&str]) -> bool {
    words.iter().any(|other| other.as_bytes() == word)
}

/// Whether a condition begins with a word that says when it is to hold.
pub(crate) fn is_behind_temporal_word(place: &Place<'_>) -> bool {
    if !place.is_condition {
        return false;
    }
    match place.before {
        [word] => is_temporal(place.bytes(*word)),
        [word, open] => {
            let word = place.bytes(*word);
            open.kind == Kind::Symbol(Symbol::Open) && word.len() > 1 && is_temporal(word)
        }
        _ => false,
    }
}

/// Whether a condition is said to hold always by this word.
pub(crate) fn is_temporal(word: &[u8]) -> bool {
    matches!(word, b"G" | b"AG" | b"always" | b"globally" | b"invariant")
}

/// What cures a number that is refused at a place, where this could stand.
pub(crate) fn cure_of_number(place: &Place<'_>, next: &Candidates) -> Option<&'static str> {
    if is_entry(place, next) {
        return Some(ENTRY);
    }
    match cure_of_any(place, next) {
        Some(cure) => Some(cure),
        None => cure_of_set(place, next),
    }
}

/// Whether an entry of a table begins at the place.
fn is_entry(place: &Place<'_>, next: &Candidates) -> bool {
    next.open && place.has_word_in_item(Keyword::Initially)
}

/// What cures a word of another language.
fn cure_of_foreign_word(word: &[u8]) -> Option<&'static str> {
    match word {
        b"elseif" | b"elsif" | b"elif" | b"ELSIF" => {
            Some("write `else if c then P endif`: each `if` has an `endif` of its own")
        }
        b"implies" | b"IMPLIES" => Some("there is no implication: write `not a or b`"),
        b"iff" | b"is" => Some("two values are equal by `=`"),
        b"xor" => Some("two conditions differ by `!=`"),
        b"memberof" | b"isin" | b"notmemberof" => {
            Some("write `(exists y in U with y = x)` for `x` in the universe `U`")
        }
        b"begin" => Some("rules are grouped by `par` and `endpar`, or by `seq` and `endseq`"),
        _ => None,
    }
}

/// Whether another rule begins at the place, behind a whole one.
pub(crate) fn is_second_rule(place: &Place<'_>, next: &Candidates) -> bool {
    place.is_in_rule() && !next.rule && !next.term && is_behind_rule(next) && begins_rule(place)
}

/// Whether a rule is whole where this could stand.
pub(crate) fn is_behind_rule(next: &Candidates) -> bool {
    next.declaration
        || next.has("`else`")
        || next.has("`endif`")
        || next.has("`endlet`")
        || next.has("`endforall`")
        || next.has("`endchoose`")
        || next.has("`enditerate`")
        || next.has("`endwhile`")
}

/// Whether a rule begins with the token that is refused.
fn begins_rule(place: &Place<'_>) -> bool {
    match place.ahead(0) {
        Some(token) => match token.kind {
            Kind::Name => true,
            Kind::Keyword(word) => is_rule_word(word),
            Kind::Number(_) | Kind::Symbol(_) => false,
        },
        None => false,
    }
}

/// Whether a rule begins with this word.
pub(crate) fn is_rule_word(word: Keyword) -> bool {
    matches!(
        word,
        Keyword::Skip
            | Keyword::Par
            | Keyword::Seq
            | Keyword::If
            | Keyword::Let
            | Keyword::Forall
            | Keyword::Choose
            | Keyword::Iterate
            | Keyword::While
            | Keyword::Result
    )
}

/// Whether no rule stands at the place, where one has to.
pub(crate) fn is_empty_rule(place: &Place<'_>, next: &Candidates) -> bool {
    next.rule && is_before_end(place) && is_behind_opening(place)
}

/// Whether the token that is refused ends a rule or a part of one.
fn is_before_end(place: &Place<'_>) -> bool {
    match place.ahead(0) {
        Some(token) => match token.kind {
            Kind::Keyword(word) => {
                is_end_word(word) || matches!(word, Keyword::Else | Keyword::IfNone)
            }
            _ => false,
        },
        None => false,
    }
}

/// Whether a rule begins behind the token before the place.
fn is_behind_opening(place: &Place<'_>) -> bool {
    match place.back(1) {
        Some(token) => matches!(
            token.kind,
            Kind::Keyword(
                Keyword::Par
                    | Keyword::Seq
                    | Keyword::Then
                    | Keyword::Else
                    | Keyword::In
                    | Keyword::Do
                    | Keyword::IfNone
                    | Keyword::Iterate
            )
        ),
        None => false,
    }
}
