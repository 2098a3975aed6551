//! Whole texts as specifications.

ghost use Rattle.std.specs.Prelude.{◌≡◌, ◌≢◌, ◌<◌, ℕ, List, [], length, Err, IfOk, IfErr};
ghost use Rattle.asm_syntax.specs.declared.error.LexError.TheVariants.{TooLong};
ghost use Rattle.asm_syntax.specs.declared.input_error.InputError.TheVariants.{Memory, Named};
ghost use Rattle.asm_syntax.specs.code.Lexing.{HasFirstToken};
ghost use Rattle.asm_syntax.specs.Tokens.{max_length};
ghost use Rattle.asm_syntax.specs.SourceTree as source;
ghost use Rattle.asm_syntax.specs.code.Views.{spec_of};
ghost use Rattle.asm_reader.specs.declared.error.ReadError.TheVariants.{Lex};
ghost use Rattle.asm_reader.specs.Specification.{AreSpelling, IsSpecification};
ghost use Rattle.asm_reader.specs.Refusals.{ExplainsTokens, Explains};

use crate::cursor::Cursor;
use crate::error::ReadError;
use crate::parser::Parser;
use asm_syntax::spec::Spec;
use asm_syntax::{InputError, Token, one_list_of_tokens, tokens};
use std::alloc::Global;

/// The most levels that may open.
pub(crate) const MAX_NESTING: usize = 64;

/// The specification that the tokens of the text spell.
fn read_tokens<'a>(
    alloc: Global,
    text: &'a [u8],
    tokens: &'a [Token],
) -> Result<Spec, InputError<ReadError>>
    ensures found { IfOk result (λ s. AreSpelling text.now tokens.now (spec_of s)) }
    ensures refused { IfErr result (ExplainsTokens text.now tokens.now) }
    ensures accepted { (s : source.Spec) → AreSpelling text.now tokens.now s → IfErr result (λ e. e ≡ Memory) }
    ensures memory { tokens.now ≡ [] → IfErr result (λ e. e ≢ Memory) }
{
    let mut parser = Parser {
        alloc,
        text,
        tokens: Cursor { rest: tokens },
    };
    let read = parser.specification(MAX_NESTING)?;
    match parser.tokens.rest {
        [] => Ok(read),
        [token, ..] => Err(InputError::Named(ReadError::Unexpected { at: token.start })),
    }
}

/// The specification that the text spells, or why it spells none.
pub fn read(alloc: Global, text: &[u8]) -> Result<Spec, InputError<ReadError>>
    ensures found { IfOk result (λ s. IsSpecification text.now (spec_of s)) }
    ensures refused { IfErr result (Explains text.now) }
    ensures too_long { max_length < length text.now → result ≡ Err (Named (Lex TooLong)) }
    // Memory is asked for where a first token is, and nowhere before.
    ensures memory { IfErr result (λ e. e ≡ Memory → HasFirstToken text.now) }
    // A text that spells a specification is refused only if memory runs out.
    ensures accepted { (s : source.Spec) → IsSpecification text.now s → IfErr result (λ e. e ≡ Memory) }
{
    let tokens = match tokens(alloc, text) {
        Ok(tokens) => tokens,
        Err(InputError::Named(fault)) => return Err(InputError::Named(ReadError::Lex(fault))),
        Err(InputError::Memory) => return Err(InputError::Memory),
    };
    one_list_of_tokens();
    read_tokens(alloc, text, tokens.as_slice())
}
