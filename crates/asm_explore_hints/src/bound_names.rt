//! Where a specification binds names.
use crate::place::token_bytes;
use asm_syntax::name::Name;
use asm_syntax::spec::{Item, Spec};
use asm_syntax::{InputError, Keyword, Kind, Token, tokens};
use std::alloc::{AllocError, Global};

/// The offset where the specification with this text first binds this name, as a parameter or else
/// in a rule or a term.
pub(crate) fn bound_elsewhere(
    alloc: Global,
    spec: &Spec,
    text: &[u8],
    name: &[u8],
) -> Result<Option<usize>, AllocError> {
    if let Some(at) = parameter(spec, name) {
        return Ok(Some(at));
    }
    match tokens(alloc, text) {
        Ok(tokens) => Ok(bound_by_word(tokens.as_slice(), text, name)),
        Err(InputError::Memory) => Err(AllocError),
        Err(InputError::Named(_)) => Ok(None),
    }
}

/// The offset of the first parameter with this name.
fn parameter(spec: &Spec, name: &[u8]) -> Option<usize> {
    for item in &spec.items {
        let found = match item {
            Item::Derived { parameters, .. } => among(parameters.as_slice(), name),
            Item::Rule { parameters, .. } => among(parameters.as_slice(), name),
            _ => None,
        };
        if found.is_some() {
            return found;
        }
    }
    None
}

/// The offset of the first of these names that is this one.
fn among(names: &[Name], name: &[u8]) -> Option<usize> {
    let found = names.iter().find(|other| other.text.as_bytes() == name)?;
    Some(found.at)
}

/// The offset of the first token that is this name behind a word that binds it.
fn bound_by_word(tokens: &[Token], text: &[u8], name: &[u8]) -> Option<usize> {
    let mut is_binder = false;
    for token in tokens {
        if is_binder && token.kind == Kind::Name && token_bytes(text, *token) == name {
            return Some(token.start);
        }
        is_binder = binds(token.kind);
    }
    None
}

/// Whether a name is bound behind this.
fn binds(kind: Kind) -> bool {
    match kind {
        Kind::Keyword(word) => matches!(
            word,
            Keyword::Let | Keyword::Forall | Keyword::Choose | Keyword::Exists
        ),
        _ => false,
    }
}
