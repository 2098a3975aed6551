//! Constants and tables, from their tokens.

ghost use Rattle.std.specs.Prelude.{◌≡◌, ◌≢◌, IfErr};
ghost use Rattle.asm_syntax.specs.declared.input_error.InputError.TheVariants.{Memory};
ghost use Rattle.asm_syntax.specs.code.Views.{const_of, entry_of, given_of};
ghost use Rattle.asm_reader.specs.code.Reading as reading;
ghost use Rattle.asm_reader.specs.code.Parsing.{Parses};
ghost use Rattle.asm_reader.specs.code.Steps.{Reads, each_of, itself};

use crate::cursor::{Cursor, Read};
use crate::parser::Parser;
use crate::terms::constants;
use asm_state::number::Number;
use asm_syntax::spec::{Const, Entry, Given};
use asm_syntax::term::Literal;
use asm_syntax::{Kind, Symbol};

/// A whole number. It takes no memory.
#[tactic(auto, unfolding(crate::specs::code::Reading::int_at))]
pub fn whole_number(tokens: &mut Cursor<'_>) -> Read<Number>
    ensures read { Reads itself (reading.int_at tokens.old.rest.now) result tokens.new.rest.now }
    ensures memory { IfErr result (λ e. e ≢ Memory) }
{
    if tokens.sees(Kind::Symbol(Symbol::Minus)) {
        tokens.expect(Kind::Symbol(Symbol::Minus))?;
        return tokens.number(true);
    }
    tokens.number(false)
}

impl<'a> Parser<'a> {
    #[tactic(auto, unfolding(crate::specs::code::Reading::constant_at))]
    fn constant(&mut self) -> Read<Const>
        ensures { Parses const_of (reading.constant_at self.old.text.now) self.old self.new result }
    {
        let number_starts = [Kind::Symbol(Symbol::Minus), Kind::Number(0)];
        if self.tokens.sees_any(&number_starts) {
            let number = whole_number(&mut self.tokens)?;
            return Ok(Const::Plain(Literal::Number(number)));
        }
        if self.tokens.sees_in(&constants()) {
            let literal = self.tokens.choice(&constants())?;
            return Ok(Const::Plain(literal));
        }
        let name = self.name()?;
        Ok(Const::Element(name))
    }

    /// Constants with commas between, and one at least.
    fn several_constants(&mut self) -> Read<Vec<Const>>
        ensures { Parses (each_of const_of) (reading.constants_at self.old.text.now) self.old self.new result }
    {
        let mut all = Vec::new(self.alloc);
        let first = self.constant()?;
        all.push(first)?;
        while self.tokens.sees(Kind::Symbol(Symbol::Comma)) {
            self.tokens.expect(Kind::Symbol(Symbol::Comma))?;
            let next = self.constant()?;
            all.push(next)?;
        }
        Ok(all)
    }

    /// An entry of a table.
    #[tactic(auto, unfolding(crate::specs::code::Reading::entry_at))]
    fn entry(&mut self, levels: usize) -> Read<Entry>
        ensures { Parses entry_of (reading.entry_at self.old.text.now levels) self.old self.new result }
    {
        let open = self.tokens.enter(Kind::Symbol(Symbol::Open), levels)?;
        let arguments = self.several_constants()?;
        self.tokens.expect(Kind::Symbol(Symbol::Close))?;
        self.tokens.expect(Kind::Symbol(Symbol::Arrow))?;
        let value = self.constant()?;
        Ok(Entry {
            at: open.start,
            arguments,
            value,
        })
    }

    /// Entries with commas between, and one at least.
    fn entries(&mut self, levels: usize) -> Read<Vec<Entry>>
        ensures { Parses (each_of entry_of) (reading.entries_at self.old.text.now levels) self.old self.new result }
    {
        let mut all = Vec::new(self.alloc);
        let first = self.entry(levels)?;
        all.push(first)?;
        while self.tokens.sees(Kind::Symbol(Symbol::Comma)) {
            self.tokens.expect(Kind::Symbol(Symbol::Comma))?;
            let next = self.entry(levels)?;
            all.push(next)?;
        }
        Ok(all)
    }

    /// Entries in braces.
    #[tactic(auto, unfolding(crate::specs::code::Reading::braced_entries_at))]
    fn braced_entries(&mut self, levels: usize) -> Read<Vec<Entry>>
        ensures { Parses (each_of entry_of) (reading.braced_entries_at self.old.text.now levels) self.old self.new result }
    {
        self.tokens.expect(Kind::Symbol(Symbol::OpenBrace))?;
        let all = self.entries(levels)?;
        self.tokens.expect(Kind::Symbol(Symbol::CloseBrace))?;
        Ok(all)
    }

    /// What a function is at the beginning; `levels` levels may open in it.
    #[tactic(auto, unfolding(crate::specs::code::Reading::table_at))]
    pub(crate) fn table(&mut self, levels: usize) -> Read<Given>
        ensures { Parses given_of (reading.table_at self.old.text.now levels) self.old self.new result }
    {
        if self.tokens.sees(Kind::Symbol(Symbol::OpenBrace)) {
            let entries = self.braced_entries(levels)?;
            return Ok(Given::Entries(entries));
        }
        let value = self.constant()?;
        Ok(Given::Each(value))
    }
}
