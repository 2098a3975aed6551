//! Whole texts as terms.

ghost use Rattle.std.specs.Prelude.{◌≡◌, ◌<◌, ℕ, List, length, Err, IfOk, IfErr};
ghost use Rattle.asm_syntax.specs.declared.error.LexError.TheVariants.{TooLong};
ghost use Rattle.asm_syntax.specs.declared.input_error.InputError.TheVariants.{Memory, Named};
ghost use Rattle.asm_syntax.specs.Tokens.{max_length};
ghost use Rattle.asm_syntax.specs.SourceTree as source;
ghost use Rattle.asm_syntax.specs.code.Views.{term_of};
ghost use Rattle.asm_reader.specs.declared.error.ReadError.TheVariants.{Lex};
ghost use Rattle.asm_reader.specs.TermText.{AreTerm, IsTermText, ExplainsTermTokens, ExplainsTerm};

use crate::cursor::Cursor;
use crate::error::ReadError;
use crate::parser::Parser;
use crate::reading::MAX_NESTING;
use asm_syntax::term::Term;
use asm_syntax::{InputError, Token, one_list_of_tokens, tokens};
use std::alloc::Global;

/// The term that the tokens of the text spell.
fn read_term_tokens<'a>(
    alloc: Global,
    text: &'a [u8],
    tokens: &'a [Token],
) -> Result<Term, InputError<ReadError>>
    ensures found { IfOk result (λ t. AreTerm text.now tokens.now (term_of t)) }
    ensures refused { IfErr result (ExplainsTermTokens text.now tokens.now) }
    ensures accepted { (t : source.Term) → AreTerm text.now tokens.now t → IfErr result (λ e. e ≡ Memory) }
{
    let mut parser = Parser {
        alloc,
        text,
        tokens: Cursor { rest: tokens },
    };
    let read = parser.term(MAX_NESTING)?;
    match parser.tokens.rest {
        [] => Ok(read),
        [token, ..] => Err(InputError::Named(ReadError::Unexpected { at: token.start })),
    }
}

/// The term that the text spells, which has nothing else in it, or why it spells none.
pub fn read_term(alloc: Global, text: &[u8]) -> Result<Term, InputError<ReadError>>
    ensures found { IfOk result (λ t. IsTermText text.now (term_of t)) }
    ensures refused { IfErr result (ExplainsTerm text.now) }
    ensures too_long { max_length < length text.now → result ≡ Err (Named (Lex TooLong)) }
    // A text that spells a term is refused only if memory runs out.
    ensures accepted { (t : source.Term) → IsTermText text.now t → IfErr result (λ e. e ≡ Memory) }
{
    let tokens = match tokens(alloc, text) {
        Ok(tokens) => tokens,
        Err(InputError::Named(fault)) => return Err(InputError::Named(ReadError::Lex(fault))),
        Err(InputError::Memory) => return Err(InputError::Memory),
    };
    one_list_of_tokens();
    read_term_tokens(alloc, text, tokens.as_slice())
}
