//! Declarations and whole specifications, from their tokens.

ghost use Rattle.std.specs.Prelude.{◌≡◌, ◌≢◌, [], ◌∷◌, false, option_map, IfErr};
ghost use Rattle.asm_syntax.specs.declared.input_error.InputError.TheVariants.{Memory};
ghost use Rattle.asm_syntax.specs.declared.token.Kind.TheVariants as kinds;
ghost use Rattle.asm_syntax.specs.declared.token.Keyword.TheVariants as words;
ghost use Rattle.asm_syntax.specs.code.Views.{given_of, item_of, name_of, spec_of};
ghost use Rattle.asm_reader.specs.Grammar as grammar;
ghost use Rattle.asm_reader.specs.Kinds.{begins};
ghost use Rattle.asm_reader.specs.code.Reading as reading;
ghost use Rattle.asm_reader.specs.code.ViewsOfParts.{declared_of, heading_of, type_of};
ghost use Rattle.asm_reader.specs.code.Parsing.{Parses};
ghost use Rattle.asm_reader.specs.code.Steps.{Reads, each_of, itself};

use crate::contents::whole_number;
use crate::cursor::{Cursor, Read};
use crate::parser::Parser;
use asm_state::function::FunctionKind;
use asm_state::number::Number;
use asm_syntax::name::Name;
use asm_syntax::spec::{Given, Item, Spec};
use asm_syntax::{Keyword, Kind, Symbol};

fn item_starts() -> &'static [Kind]
    ensures { result.now ≡ reading.item_starts }
{
    &[
        Kind::Keyword(Keyword::Use),
        Kind::Keyword(Keyword::Init),
        Kind::Keyword(Keyword::Enum),
        Kind::Keyword(Keyword::Universe),
        Kind::Keyword(Keyword::Function),
        Kind::Keyword(Keyword::Derived),
        Kind::Keyword(Keyword::Rule),
    ]
}

fn function_kinds() -> &'static [(Kind, FunctionKind)]
    ensures { result.now ≡ grammar.function_kinds }
{
    &[
        (Kind::Keyword(Keyword::Controlled), FunctionKind::Controlled),
        (Kind::Keyword(Keyword::Static), FunctionKind::Static),
    ]
}

/// The first and the last number of a universe. It takes no memory.
fn range(tokens: &mut Cursor<'_>) -> Read<(Number, Number)>
    ensures { Reads itself (reading.range_at tokens.old.rest.now) result tokens.new.rest.now }
{
    let first = whole_number(tokens)?;
    tokens.expect(Kind::Symbol(Symbol::Dots))?;
    let last = whole_number(tokens)?;
    Ok((first, last))
}

impl<'a> Parser<'a> {
    #[tactic(auto, unfolding(crate::specs::code::Reading::use_at))]
    fn use_item(&mut self) -> Read<Item>
        ensures { Parses item_of (reading.use_at self.old.text.now) self.old self.new result }
    {
        self.tokens.expect(Kind::Keyword(Keyword::Use))?;
        let name = self.name()?;
        Ok(Item::Uses(name))
    }

    #[tactic(auto, unfolding(crate::specs::code::Reading::init_at))]
    fn init_item(&mut self) -> Read<Item>
        ensures { Parses item_of (reading.init_at self.old.text.now) self.old self.new result }
    {
        self.tokens.expect(Kind::Keyword(Keyword::Init))?;
        let name = self.name()?;
        Ok(Item::Init(name))
    }

    /// Names in braces.
    #[tactic(auto, unfolding(crate::specs::code::Reading::elements_at))]
    fn elements(&mut self) -> Read<Vec<Name>>
        ensures { Parses (each_of name_of) (reading.elements_at self.old.text.now) self.old self.new result }
    {
        self.tokens.expect(Kind::Symbol(Symbol::OpenBrace))?;
        let all = self.names(Kind::Symbol(Symbol::Comma))?;
        self.tokens.expect(Kind::Symbol(Symbol::CloseBrace))?;
        Ok(all)
    }

    /// The name between this word and `=`.
    fn titled(&mut self, word: Keyword) -> Read<Name>
        ensures { Parses name_of (reading.titled_at self.old.text.now word) self.old self.new result }
    {
        self.tokens.expect(Kind::Keyword(word))?;
        let name = self.name()?;
        self.tokens.expect(Kind::Symbol(Symbol::Equal))?;
        Ok(name)
    }

    fn enum_item(&mut self) -> Read<Item>
        ensures { Parses item_of (reading.enum_at self.old.text.now) self.old self.new result }
    {
        let name = self.titled(Keyword::Enum)?;
        let elements = self.elements()?;
        Ok(Item::Enum { name, elements })
    }

    fn universe_item(&mut self) -> Read<Item>
        ensures { Parses item_of (reading.universe_at self.old.text.now) self.old self.new result }
    {
        let name = self.titled(Keyword::Universe)?;
        let (first, last) = range(&mut self.tokens)?;
        Ok(Item::Universe { name, first, last })
    }

    /// The name after `->`.
    fn behind_arrow(&mut self) -> Read<Name>
        ensures { Parses name_of (reading.behind_arrow_at self.old.text.now) self.old self.new result }
    {
        self.tokens.expect(Kind::Symbol(Symbol::Arrow))?;
        let name = self.name()?;
        Ok(name)
    }

    /// What comes after `->`, if it is there.
    #[tactic(auto, unfolding(crate::specs::code::Reading::codomain_at))]
    fn codomain(&mut self) -> Read<Option<Name>>
        ensures { Parses (option_map name_of) (reading.codomain_at self.old.text.now) self.old self.new result }
    {
        if self.tokens.sees(Kind::Symbol(Symbol::Arrow)) {
            let codomain = self.behind_arrow()?;
            return Ok(Some(codomain));
        }
        Ok(None)
    }

    /// The universes and the codomain of a function.
    #[tactic(auto, unfolding(crate::specs::code::Reading::type_at))]
    fn function_type(&mut self) -> Read<(Vec<Name>, Option<Name>)>
        ensures { Parses type_of (reading.type_at self.old.text.now) self.old self.new result }
    {
        if self.tokens.sees(Kind::Symbol(Symbol::Arrow)) {
            let codomain = self.behind_arrow()?;
            return Ok((Vec::new(self.alloc), Some(codomain)));
        }
        let domain = self.names(Kind::Symbol(Symbol::Times))?;
        let codomain = self.codomain()?;
        Ok((domain, codomain))
    }

    /// What comes after `:`, if it is there; else no universe and no codomain.
    #[tactic(auto, unfolding(crate::specs::code::Reading::signature_at))]
    fn signature(&mut self) -> Read<(Vec<Name>, Option<Name>)>
        ensures { Parses type_of (reading.signature_at self.old.text.now) self.old self.new result }
    {
        if self.tokens.sees(Kind::Symbol(Symbol::Colon)) {
            self.tokens.expect(Kind::Symbol(Symbol::Colon))?;
            return self.function_type();
        }
        Ok((Vec::new(self.alloc), None))
    }

    /// What comes after `initially`, if it is there.
    #[tactic(auto, unfolding(crate::specs::code::Reading::initially_at))]
    fn initially(&mut self, levels: usize) -> Read<Option<Given>>
        ensures { Parses (option_map given_of) (reading.initially_at self.old.text.now levels) self.old self.new result }
    {
        if self.tokens.sees(Kind::Keyword(Keyword::Initially)) {
            self.tokens.expect(Kind::Keyword(Keyword::Initially))?;
            let value = self.table(levels)?;
            return Ok(Some(value));
        }
        Ok(None)
    }

    /// How the values of a function come, and its name, after `function`.
    fn declared(&mut self) -> Read<(FunctionKind, Name)>
        ensures { Parses declared_of (reading.declared_at self.old.text.now) self.old self.new result }
    {
        self.tokens.expect(Kind::Keyword(Keyword::Function))?;
        let kind = self.tokens.choice(function_kinds())?;
        let name = self.name()?;
        Ok((kind, name))
    }

    fn function_item(&mut self, levels: usize) -> Read<Item>
        ensures { Parses item_of (reading.function_at self.old.text.now levels) self.old self.new result }
    {
        let header = self.declared()?;
        let signature = self.signature()?;
        let table = self.initially(levels)?;
        let (kind, name) = header;
        let (domain, codomain) = signature;
        Ok(Item::Function {
            name,
            kind,
            domain,
            codomain,
            table,
        })
    }

    /// Names in parentheses, if they are there.
    #[tactic(auto, unfolding(crate::specs::code::Reading::parameters_at))]
    fn parameters(&mut self, levels: usize) -> Read<Vec<Name>>
        ensures { Parses (each_of name_of) (reading.parameters_at self.old.text.now levels) self.old self.new result }
    {
        if !self.tokens.sees(Kind::Symbol(Symbol::Open)) {
            return Ok(Vec::new(self.alloc));
        }
        self.tokens.enter(Kind::Symbol(Symbol::Open), levels)?;
        let all = self.names(Kind::Symbol(Symbol::Comma))?;
        self.tokens.expect(Kind::Symbol(Symbol::Close))?;
        Ok(all)
    }

    /// A name and its parameters, between this word and `=`.
    fn heading(&mut self, levels: usize, word: Keyword) -> Read<(Name, Vec<Name>)>
        ensures { Parses heading_of (reading.heading_at self.old.text.now levels word) self.old self.new result }
    {
        self.tokens.expect(Kind::Keyword(word))?;
        let name = self.name()?;
        let parameters = self.parameters(levels)?;
        self.tokens.expect(Kind::Symbol(Symbol::Equal))?;
        Ok((name, parameters))
    }

    fn derived_item(&mut self, levels: usize) -> Read<Item>
        ensures { Parses item_of (reading.derived_at self.old.text.now levels) self.old self.new result }
    {
        let header = self.heading(levels, Keyword::Derived)?;
        let body = self.term(levels)?;
        let (name, parameters) = header;
        Ok(Item::Derived {
            name,
            parameters,
            body,
        })
    }

    fn rule_item(&mut self, levels: usize) -> Read<Item>
        ensures { Parses item_of (reading.rule_item_at self.old.text.now levels) self.old self.new result }
    {
        let header = self.heading(levels, Keyword::Rule)?;
        let body = self.rule(levels)?;
        let (name, parameters) = header;
        Ok(Item::Rule {
            name,
            parameters,
            body,
        })
    }

    /// An item; `levels` levels may open in it.
    #[tactic(auto, unfolding(crate::specs::code::Reading::item_at))]
    fn item(&mut self, levels: usize) -> Read<Item>
        ensures { Parses item_of (reading.item_at self.old.text.now levels) self.old self.new result }
    {
        if self.tokens.sees(Kind::Keyword(Keyword::Use)) {
            return self.use_item();
        }
        if self.tokens.sees(Kind::Keyword(Keyword::Init)) {
            return self.init_item();
        }
        if self.tokens.sees(Kind::Keyword(Keyword::Enum)) {
            return self.enum_item();
        }
        if self.tokens.sees(Kind::Keyword(Keyword::Universe)) {
            return self.universe_item();
        }
        if self.tokens.sees(Kind::Keyword(Keyword::Function)) {
            return self.function_item(levels);
        }
        if self.tokens.sees(Kind::Keyword(Keyword::Derived)) {
            return self.derived_item(levels);
        }
        self.rule_item(levels)
    }

    /// Items in any number.
    fn items(&mut self, levels: usize) -> Read<Vec<Item>>
        ensures { Parses (each_of item_of) (reading.items_at self.old.text.now levels) self.old self.new result }
    {
        let mut all = Vec::new(self.alloc);
        while self.tokens.sees_any(item_starts()) {
            let next = self.item(levels)?;
            all.push(next)?;
        }
        Ok(all)
    }

    /// A specification; `levels` levels may open in it.
    #[tactic(auto, unfolding(crate::specs::code::Reading::specification_at))]
    pub(crate) fn specification(&mut self, levels: usize) -> Read<Spec>
        ensures parsed { Parses spec_of (reading.specification_at self.old.text.now levels) self.old self.new result }
        // Memory is asked for after the first word, and nowhere before.
        ensures memory { begins (kinds.Keyword words.CoreAsm ∷ []) self.old.tokens.rest.now ≡ false → IfErr result (λ e. e ≢ Memory) }
    {
        self.tokens.expect(Kind::Keyword(Keyword::CoreAsm))?;
        let name = self.name()?;
        let items = self.items(levels)?;
        Ok(Spec {
            name,
            items,
            length: self.text.len(),
        })
    }
}
