//! What is open at a place.
use asm_syntax::{Keyword, Kind, Symbol, Token};
use std::alloc::{AllocError, Global};

/// The tokens that have opened something which isn't closed, the outermost first.
pub(crate) fn open_blocks(alloc: Global, before: &[Token]) -> Result<Vec<Token>, AllocError> {
    let mut open = Vec::new(alloc);
    let mut is_in_parentheses = false;
    for token in before {
        if is_opening(token.kind, is_in_parentheses) {
            open.push(*token)?;
        }
        if is_closing(token.kind) {
            let _ = open.pop();
        }
        is_in_parentheses = token.kind == Kind::Symbol(Symbol::Open);
    }
    Ok(open)
}

/// Whether this opens something. A `forall` right behind a `(` is a quantifier, which opens no more
/// than the parenthesis did.
fn is_opening(kind: Kind, is_in_parentheses: bool) -> bool {
    match kind {
        Kind::Symbol(symbol) => matches!(symbol, Symbol::Open | Symbol::OpenBrace),
        Kind::Keyword(Keyword::Forall) => !is_in_parentheses,
        Kind::Keyword(word) => matches!(
            word,
            Keyword::Par
                | Keyword::Seq
                | Keyword::If
                | Keyword::Let
                | Keyword::Choose
                | Keyword::Iterate
                | Keyword::While
        ),
        Kind::Name | Kind::Number(_) => false,
    }
}

/// Whether this closes something.
fn is_closing(kind: Kind) -> bool {
    match kind {
        Kind::Symbol(symbol) => matches!(symbol, Symbol::Close | Symbol::CloseBrace),
        Kind::Keyword(word) => is_end_word(word),
        Kind::Name | Kind::Number(_) => false,
    }
}

/// Whether a rule ends with this word.
pub(crate) fn is_end_word(word: Keyword) -> bool {
    matches!(
        word,
        Keyword::EndPar
            | Keyword::EndSeq
            | Keyword::EndIf
            | Keyword::EndLet
            | Keyword::EndForall
            | Keyword::EndChoose
            | Keyword::EndIterate
            | Keyword::EndWhile
    )
}
