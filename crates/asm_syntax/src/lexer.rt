//! The tokens of a whole text.

ghost use Rattle.std.specs.Prelude.{◌≡◌, ◌<◌, List, length, Err, IfOk, IfErr};
ghost use Rattle.asm_syntax.specs.declared.error.LexError.TheVariants.{TooLong};
ghost use Rattle.asm_syntax.specs.declared.input_error.InputError.TheVariants.{Memory, Named};
ghost use Rattle.asm_syntax.specs.declared.token.Token.{Token};
ghost use Rattle.asm_syntax.specs.Tokens.{AreTokens, max_length};
ghost use Rattle.asm_syntax.specs.code.Lexing.{Explains, HasFirstToken};

use crate::error::LexError;
use crate::front::{Front, front_of};
use crate::input_error::InputError;
use crate::token::Token;
use std::alloc::Global;

/// How many bytes a text may have, and a script.
pub const MAX_LENGTH: usize = 1_048_576;

/// The tokens of the text, or its first fault.
pub fn tokens(alloc: Global, text: &[u8]) -> Result<Vec<Token>, InputError<LexError>>
    ensures found { IfOk result (λ tokens. AreTokens text.now tokens.items) }
    ensures refused { IfErr result (Explains text.now) }
    ensures too_long { max_length < length text.now → result ≡ Err (Named TooLong) }
    // Memory is asked for at a first token, and nowhere before.
    ensures memory { IfErr result (λ e. e ≡ Memory → HasFirstToken text.now) }
    // A text that has tokens is refused only if memory runs out.
    ensures accepted { (ts : List Token) → AreTokens text.now ts → IfErr result (λ e. e ≡ Memory) }
{
    if text.len() > MAX_LENGTH {
        return Err(InputError::Named(LexError::TooLong));
    }
    let mut tokens = Vec::new(alloc);
    let mut rest = text;
    let mut at: usize = 0;
    while !rest.is_empty() {
        let length = match front_of(rest) {
            Front::Filler(length) => length,
            Front::Token(kind, length) => {
                tokens.push(Token {
                    kind,
                    start: at,
                    end: at + length,
                })?;
                length
            }
            Front::BadNumber => return Err(InputError::Named(LexError::BadNumber { at })),
            Front::OpenComment => return Err(InputError::Named(LexError::OpenComment { at })),
            Front::BadByte => return Err(InputError::Named(LexError::BadByte { at })),
        };
        rest = &rest[length..];
        at += length;
    }
    Ok(tokens)
}
