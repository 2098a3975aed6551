//! Terms, from their tokens.
//!
//! A function pays at entry for the size of its locals, and a term in parentheses passes through
//! many. So what most terms don't need is in functions of its own that are kept out of line.

ghost use Rattle.std.specs.Prelude.{◌≡◌, map, Ok, IfOk};
ghost use Rattle.asm_syntax.specs.code.Views.{term_of, test_of};
ghost use Rattle.asm_reader.specs.Kinds.{begins, is_one_of};
ghost use Rattle.asm_reader.specs.TermGrammar as grammar;
ghost use Rattle.asm_reader.specs.code.TermReading as reading;
ghost use Rattle.asm_reader.specs.code.RuleReading.{condition_at};
ghost use Rattle.asm_reader.specs.code.ViewsOfParts.{applied_of, link_of, names_of, quantified_of};
ghost use Rattle.asm_reader.specs.code.Parsing.{Parses};
ghost use Rattle.asm_reader.specs.code.Steps.{each_of};

use crate::cursor::{Cursor, Read};
use crate::parser::Parser;
use asm_state::operation::Op;
use asm_syntax::name::Name;
use asm_syntax::term::{Literal, Term};
use asm_syntax::{Keyword, Kind, Symbol};
use std::alloc::{AllocError, Global};

/// The words that are values.
pub fn constants() -> [(Kind, Literal); 3]
    ensures { result ≡ grammar.constants }
{
    [
        (Kind::Keyword(Keyword::True), Literal::Truth(true)),
        (Kind::Keyword(Keyword::False), Literal::Truth(false)),
        (Kind::Keyword(Keyword::Undef), Literal::Undef),
    ]
}

/// The operators of comparisons, which don't chain.
fn comparisons() -> &'static [(Kind, Op)]
    ensures { result.now ≡ grammar.comparisons }
{
    &[
        (Kind::Symbol(Symbol::Equal), Op::Equal),
        (Kind::Symbol(Symbol::NotEqual), Op::Different),
        (Kind::Symbol(Symbol::Less), Op::Less),
        (Kind::Symbol(Symbol::AtMost), Op::AtMost),
        (Kind::Symbol(Symbol::Greater), Op::Greater),
        (Kind::Symbol(Symbol::AtLeast), Op::AtLeast),
    ]
}

/// The operators that are taken from the left, from the weakest on.
#[derive(Clone, Copy)]
pub enum Precedence {
    Disjunction,
    Conjunction,
    Sum,
    Product,
}

/// The operators that bind so.
fn operators(of: Precedence) -> &'static [(Kind, Op)]
    ensures { result.now ≡ reading.table_of of }
{
    match of {
        Precedence::Disjunction => &[(Kind::Keyword(Keyword::Or), Op::Or)],
        Precedence::Conjunction => &[(Kind::Keyword(Keyword::And), Op::And)],
        Precedence::Sum => &[
            (Kind::Symbol(Symbol::Plus), Op::Add),
            (Kind::Symbol(Symbol::Minus), Op::Subtract),
        ],
        Precedence::Product => &[
            (Kind::Symbol(Symbol::Times), Op::Multiply),
            (Kind::Keyword(Keyword::Div), Op::Divide),
            (Kind::Keyword(Keyword::Mod), Op::Remainder),
        ],
    }
}

/// Whether the kind is that of an operator that can come after a factor.
fn is_operator(kind: Kind) -> bool
    ensures { result ≡ is_one_of reading.operators kind }
{
    match kind {
        Kind::Symbol(symbol) => match symbol {
            Symbol::Plus | Symbol::Minus | Symbol::Times => true,
            Symbol::Equal | Symbol::NotEqual => true,
            Symbol::Less | Symbol::AtMost | Symbol::Greater | Symbol::AtLeast => true,
            _ => false,
        },
        Kind::Keyword(word) => match word {
            Keyword::Div | Keyword::Mod | Keyword::And | Keyword::Or => true,
            _ => false,
        },
        _ => false,
    }
}

/// Whether the next token is an operator.
fn sees_operator(tokens: &Cursor<'_>) -> bool
    ensures { result ≡ begins reading.operators tokens.now.rest.now }
{
    match tokens.rest {
        [] => false,
        [token, ..] => is_operator(token.kind),
    }
}

/// The chain of the first member and the others, or the first alone.
fn joined(alloc: Global, first: Term, rest: Vec<(Op, Term)>) -> Result<Term, AllocError>
    ensures { IfOk result (λ t. term_of t ≡ grammar.chain_of (term_of first, map link_of rest.items)) }
{
    if rest.is_empty() {
        return Ok(first);
    }
    Ok(Term::Chain {
        first: Box::new(alloc, first)?,
        rest,
    })
}

impl<'a> Parser<'a> {
    /// A term after a comma; `levels` levels may open in it.
    #[cycle(terms)]
    fn next_term(&mut self, levels: usize) -> Read<Term>
        ensures { Parses term_of (reading.next_term_at self.old.text.now levels) self.old self.new result }
    {
        self.tokens.expect(Kind::Symbol(Symbol::Comma))?;
        let next = self.term(levels)?;
        Ok(next)
    }

    /// Terms with commas between; `levels` levels may open in them.
    #[cycle(terms)]
    fn terms(&mut self, levels: usize) -> Read<Vec<Term>>
        ensures { Parses (each_of term_of) (reading.terms_at self.old.text.now levels) self.old self.new result }
    {
        let mut all = Vec::with_capacity(self.alloc, 1)?;
        let first = self.term(levels)?;
        all.push(first)?;
        while self.tokens.sees(Kind::Symbol(Symbol::Comma)) {
            let next = self.next_term(levels)?;
            all.push(next)?;
        }
        Ok(all)
    }

    #[cycle(terms)]
    #[tactic(auto, unfolding(crate::specs::code::TermReading::arguments_at))]
    fn arguments(&mut self, levels: usize) -> Read<Vec<Term>>
        ensures { Parses (each_of term_of) (reading.arguments_in self.old.text.now levels) self.old self.new result }
    {
        self.tokens.enter(Kind::Symbol(Symbol::Open), levels)?;
        let all = self.terms(levels - 1)?;
        self.tokens.expect(Kind::Symbol(Symbol::Close))?;
        Ok(all)
    }

    /// A name with its arguments, if it has any.
    #[cycle(terms)]
    #[tactic(auto, unfolding(crate::specs::code::TermReading::applied_at))]
    pub(crate) fn applied(&mut self, levels: usize) -> Read<(Name, Vec<Term>)>
        ensures { Parses applied_of (reading.applied_in self.old.text.now levels) self.old self.new result }
    {
        let name = self.name()?;
        if self.tokens.sees(Kind::Symbol(Symbol::Open)) {
            let arguments = self.arguments(levels)?;
            return Ok((name, arguments));
        }
        Ok((name, Vec::new(self.alloc)))
    }

    /// A bound name and what it ranges over, between the two words.
    fn quantifier(&mut self, first: Keyword, second: Keyword) -> Read<(Name, Name)>
        ensures { Parses names_of (reading.quantifier_at self.old.text.now first second) self.old self.new result }
    {
        self.tokens.expect(Kind::Keyword(first))?;
        let names = self.binding()?;
        self.tokens.expect(Kind::Keyword(second))?;
        Ok(names)
    }

    /// The same, and the term after the second word.
    #[cycle(terms)]
    #[tactic(auto, using(crate::proofs::Headers::quantified_splits))]
    fn quantified(
        &mut self,
        levels: usize,
        first: Keyword,
        second: Keyword,
    ) -> Read<(Name, Name, Box<Term>)>
        ensures { Parses quantified_of (reading.quantified_in self.old.text.now levels first second) self.old self.new result }
    {
        let names = self.quantifier(first, second)?;
        let test = self.term(levels)?;
        let test = Box::new(self.alloc, test)?;
        let (name, over) = names;
        Ok((name, over, test))
    }

    #[cycle(terms)]
    #[inline(never)]
    #[tactic(auto, unfolding(crate::specs::code::TermReading::exists_at))]
    fn exists(&mut self, levels: usize) -> Read<Term>
        ensures { Parses term_of (reading.exists_in self.old.text.now levels) self.old self.new result }
    {
        let (name, over, test) = self.quantified(levels, Keyword::Exists, Keyword::With)?;
        Ok(Term::Exists { name, over, test })
    }

    #[cycle(terms)]
    #[inline(never)]
    #[tactic(auto, unfolding(crate::specs::code::TermReading::every_at))]
    fn every(&mut self, levels: usize) -> Read<Term>
        ensures { Parses term_of (reading.every_in self.old.text.now levels) self.old self.new result }
    {
        let (name, over, test) = self.quantified(levels, Keyword::Forall, Keyword::Holds)?;
        Ok(Term::Every { name, over, test })
    }

    /// What is in parentheses.
    #[cycle(terms)]
    #[tactic(auto, unfolding(crate::specs::code::TermReading::inner_at))]
    fn inner(&mut self, levels: usize) -> Read<Term>
        ensures { Parses term_of (reading.inner_in self.old.text.now levels) self.old self.new result }
    {
        if self.tokens.sees(Kind::Keyword(Keyword::Exists)) {
            return self.exists(levels);
        }
        if self.tokens.sees(Kind::Keyword(Keyword::Forall)) {
            return self.every(levels);
        }
        self.term(levels)
    }

    #[cycle(terms)]
    #[tactic(auto, unfolding(crate::specs::code::TermReading::parenthesized_at))]
    fn parenthesized(&mut self, levels: usize) -> Read<Term>
        ensures { Parses term_of (reading.parenthesized_in self.old.text.now levels) self.old self.new result }
    {
        self.tokens.enter(Kind::Symbol(Symbol::Open), levels)?;
        let inner = self.inner(levels - 1)?;
        self.tokens.expect(Kind::Symbol(Symbol::Close))?;
        Ok(inner)
    }

    /// The word `result`.
    #[inline(never)]
    #[tactic(auto, unfolding(crate::specs::code::TermReading::result_term_at))]
    fn result_term(&mut self) -> Read<Term>
        ensures { Parses term_of (reading.result_term_at self.old.text.now) self.old self.new result }
    {
        let name = self.result_word()?;
        Ok(Term::Result(name))
    }

    #[cycle(terms)]
    #[tactic(auto, unfolding(crate::specs::code::TermReading::primary_at))]
    fn primary(&mut self, levels: usize) -> Read<Term>
        ensures { Parses term_of (reading.primary_in self.old.text.now levels) self.old self.new result }
    {
        if self.tokens.sees(Kind::Number(0)) {
            let number = self.tokens.number(false)?;
            return Ok(Term::Constant(Literal::Number(number)));
        }
        if self.tokens.sees_in(&constants()) {
            let literal = self.tokens.choice(&constants())?;
            return Ok(Term::Constant(literal));
        }
        if self.tokens.sees(Kind::Name) {
            let (name, arguments) = self.applied(levels)?;
            return Ok(Term::Named { name, arguments });
        }
        if self.tokens.sees(Kind::Keyword(Keyword::Result)) {
            return self.result_term();
        }
        self.parenthesized(levels)
    }

    #[cycle(terms)]
    #[tactic(auto, unfolding(crate::specs::code::TermReading::factor_at))]
    fn factor(&mut self, levels: usize) -> Read<Term>
        ensures { Parses term_of (reading.factor_in self.old.text.now levels) self.old self.new result }
    {
        if self.tokens.sees(Kind::Symbol(Symbol::Minus)) {
            self.tokens.expect(Kind::Symbol(Symbol::Minus))?;
            let negated = self.primary(levels)?;
            return Ok(Term::Negative(Box::new(self.alloc, negated)?));
        }
        self.primary(levels)
    }

    /// The operator of a comparison, and its other side.
    #[cycle(terms)]
    fn other_side(&mut self, levels: usize) -> Read<(Op, Term)>
        ensures { Parses link_of (reading.other_side_in self.old.text.now levels) self.old self.new result }
    {
        let operator = self.tokens.choice(comparisons())?;
        let second = self.chain(levels, Precedence::Sum)?;
        Ok((operator, second))
    }

    /// What the operator after a first side makes of it.
    #[cycle(terms)]
    #[inline(never)]
    fn longer_comparison(&mut self, levels: usize, first: Term) -> Read<Term>
        ensures { Parses term_of (reading.compared_in self.old.text.now levels (term_of first)) self.old self.new result }
    {
        let mut rest = Vec::with_capacity(self.alloc, 1)?;
        if self.tokens.sees_in(comparisons()) {
            let link = self.other_side(levels)?;
            rest.push(link)?;
        }
        Ok(joined(self.alloc, first, rest)?)
    }

    /// A comparison whose first side is read, or that side alone.
    #[cycle(terms)]
    fn compared(&mut self, levels: usize, first: Term) -> Read<Term>
        ensures { Parses term_of (reading.compared_in self.old.text.now levels (term_of first)) self.old self.new result }
    {
        if !self.tokens.sees_in(comparisons()) {
            return Ok(first);
        }
        self.longer_comparison(levels, first)
    }

    #[cycle(terms)]
    fn comparison(&mut self, levels: usize) -> Read<Term>
        ensures { Parses term_of (reading.comparison_in self.old.text.now levels) self.old self.new result }
    {
        let first = self.chain(levels, Precedence::Sum)?;
        self.compared(levels, first)
    }

    #[cycle(terms)]
    #[tactic(auto, unfolding(crate::specs::code::TermReading::negation_at))]
    fn negation(&mut self, levels: usize) -> Read<Term>
        ensures { Parses term_of (reading.negation_in self.old.text.now levels) self.old self.new result }
    {
        if self.tokens.sees(Kind::Keyword(Keyword::Not)) {
            self.tokens.expect(Kind::Keyword(Keyword::Not))?;
            let denied = self.comparison(levels)?;
            return Ok(Term::Not(Box::new(self.alloc, denied)?));
        }
        self.comparison(levels)
    }

    #[cycle(terms)]
    fn operand(&mut self, levels: usize, of: Precedence) -> Read<Term>
        ensures { Parses term_of (reading.operand_in self.old.text.now levels of) self.old self.new result }
    {
        match of {
            Precedence::Disjunction => self.chain(levels, Precedence::Conjunction),
            Precedence::Conjunction => self.negation(levels),
            Precedence::Sum => self.chain(levels, Precedence::Product),
            Precedence::Product => self.factor(levels),
        }
    }

    /// The operators after a first member, each with the member after it.
    #[cycle(terms)]
    fn links(&mut self, levels: usize, of: Precedence) -> Read<Vec<(Op, Term)>>
        ensures { Parses (each_of link_of) (reading.links_in self.old.text.now levels of) self.old self.new result }
    {
        let mut rest = Vec::with_capacity(self.alloc, 1)?;
        while self.tokens.sees_in(operators(of)) {
            let operator = self.tokens.choice(operators(of))?;
            let next = self.operand(levels, of)?;
            rest.push((operator, next))?;
        }
        Ok(rest)
    }

    /// What the operators after a first member make of it.
    #[cycle(terms)]
    #[inline(never)]
    fn longer_chain(&mut self, levels: usize, of: Precedence, first: Term) -> Read<Term>
        ensures { Parses term_of (reading.chain_from_in self.old.text.now levels of (term_of first)) self.old self.new result }
    {
        let rest = self.links(levels, of)?;
        Ok(joined(self.alloc, first, rest)?)
    }

    /// A chain whose first member is read, or that member alone.
    #[cycle(terms)]
    fn chain_from(&mut self, levels: usize, of: Precedence, first: Term) -> Read<Term>
        ensures { Parses term_of (reading.chain_from_in self.old.text.now levels of (term_of first)) self.old self.new result }
    {
        if !self.tokens.sees_in(operators(of)) {
            return Ok(first);
        }
        self.longer_chain(levels, of, first)
    }

    #[cycle(terms)]
    fn chain(&mut self, levels: usize, of: Precedence) -> Read<Term>
        ensures { Parses term_of (reading.chain_in self.old.text.now levels of) self.old self.new result }
    {
        let first = self.operand(levels, of)?;
        self.chain_from(levels, of, first)
    }

    /// A term whose first factor is read, with no `not` before it.
    #[cycle(terms)]
    #[inline(never)]
    fn term_from(&mut self, levels: usize, factor: Term) -> Read<Term>
        ensures { Parses term_of (reading.carried_on_in self.old.text.now levels (term_of factor)) self.old self.new result }
    {
        let product = self.chain_from(levels, Precedence::Product, factor)?;
        let sum = self.chain_from(levels, Precedence::Sum, product)?;
        let comparison = self.compared(levels, sum)?;
        let conjunction = self.chain_from(levels, Precedence::Conjunction, comparison)?;
        self.chain_from(levels, Precedence::Disjunction, conjunction)
    }

    /// A term; `levels` levels may open in it.
    ///
    /// Most are one factor, which is read with no chain begun.
    #[cycle(terms)]
    pub(crate) fn term(&mut self, levels: usize) -> Read<Term>
        ensures { Parses term_of (reading.term_at self.old.text.now levels) self.old self.new result }
    {
        if self.tokens.sees(Kind::Keyword(Keyword::Not)) {
            return self.chain(levels, Precedence::Disjunction);
        }
        let first = self.factor(levels)?;
        if !sees_operator(&self.tokens) {
            return Ok(first);
        }
        self.term_from(levels, first)
    }

    /// What comes after `with`, if it is there.
    #[tactic(auto, unfolding(crate::specs::code::RuleReading::condition_at))]
    pub(crate) fn condition(&mut self, levels: usize) -> Read<Option<Term>>
        ensures { Parses test_of (condition_at (reading.term_at self.old.text.now levels)) self.old self.new result }
    {
        if self.tokens.sees(Kind::Keyword(Keyword::With)) {
            self.tokens.expect(Kind::Keyword(Keyword::With))?;
            let test = self.term(levels)?;
            return Ok(Some(test));
        }
        Ok(None)
    }
}
