//! Names, from their tokens.

ghost use Rattle.std.specs.Prelude.{◌≡◌, IfOk, slice_range};
ghost use Rattle.asm_syntax.specs.code.Views.{name_of};
ghost use Rattle.asm_reader.specs.TermGrammar as grammar;
ghost use Rattle.asm_reader.specs.code.TermReading as reading;
ghost use Rattle.asm_reader.specs.code.Reading.{names_at};
ghost use Rattle.asm_reader.specs.code.ViewsOfParts.{names_of};
ghost use Rattle.asm_reader.specs.code.Parsing.{Parses};
ghost use Rattle.asm_reader.specs.code.Steps.{each_of};

use crate::cursor::Read;
use crate::parser::Parser;
use asm_syntax::name::{Name, Text};
use asm_syntax::{Keyword, Kind, Token};
use std::alloc::{AllocError, Global};

/// The bytes from `start` to `end`, as far as there are any.
fn bytes_between(text: &[u8], start: usize, end: usize) -> &[u8]
    ensures { result.now ≡ slice_range text.now start end }
{
    let end = end.min(text.len());
    if end < start {
        return &[];
    }
    &text[start..end]
}

/// The name that the token stands for.
fn named(alloc: Global, text: &[u8], token: Token) -> Result<Name, AllocError>
    ensures { IfOk result (λ x. name_of x ≡ grammar.name_at_token text.now token) }
{
    let bytes = bytes_between(text, token.start, token.end);
    let text = Text::new(alloc, bytes)?;
    Ok(Name {
        at: token.start,
        text,
    })
}

impl<'a> Parser<'a> {
    /// A name.
    #[tactic(auto, unfolding(crate::specs::code::TermReading::name_at))]
    pub(crate) fn name(&mut self) -> Read<Name>
        ensures { Parses name_of (reading.name_at self.old.text.now) self.old self.new result }
    {
        let token = self.tokens.expect(Kind::Name)?;
        Ok(named(self.alloc, self.text, token)?)
    }

    /// The word `result`, as a name.
    #[tactic(auto, unfolding(crate::specs::code::TermReading::result_at))]
    pub(crate) fn result_word(&mut self) -> Read<Name>
        ensures { Parses name_of (reading.result_at self.old.text.now) self.old self.new result }
    {
        let token = self.tokens.expect(Kind::Keyword(Keyword::Result))?;
        Ok(named(self.alloc, self.text, token)?)
    }

    /// A name, and after `in` the name of what it ranges over.
    #[tactic(auto, unfolding(crate::specs::code::TermReading::binding_at))]
    pub(crate) fn binding(&mut self) -> Read<(Name, Name)>
        ensures { Parses names_of (reading.binding_at self.old.text.now) self.old self.new result }
    {
        let bound = self.name()?;
        self.tokens.expect(Kind::Keyword(Keyword::In))?;
        let over = self.name()?;
        Ok((bound, over))
    }

    /// Names with tokens of this kind between, and one at least.
    pub(crate) fn names(&mut self, between: Kind) -> Read<Vec<Name>>
        ensures { Parses (each_of name_of) (names_at self.old.text.now between) self.old self.new result }
    {
        let mut all = Vec::with_capacity(self.alloc, 1)?;
        let first = self.name()?;
        all.push(first)?;
        while self.tokens.sees(between) {
            self.tokens.expect(between)?;
            let next = self.name()?;
            all.push(next)?;
        }
        Ok(all)
    }
}
