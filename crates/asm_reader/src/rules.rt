//! Rules, from their tokens.

ghost use Rattle.std.specs.Prelude.{◌≡◌, ◌<◌, ◌-◌, map, OnOk};
ghost use Rattle.asm_syntax.specs.code.Views.{name_of, rule_of, term_of};
ghost use Rattle.asm_reader.specs.code.RuleReading as reading;
ghost use Rattle.asm_reader.specs.code.ViewsOfParts.{applied_of, boxed_rule_of, in_box, ranged_of};
ghost use Rattle.asm_reader.specs.code.Parsing.{Parses};
ghost use Rattle.asm_reader.specs.code.Steps.{each_of};

use crate::cursor::Read;
use crate::parser::Parser;
use asm_syntax::name::Name;
use asm_syntax::rule::{Rule, Target};
use asm_syntax::term::Term;
use asm_syntax::{Keyword, Kind, Symbol};

fn rule_starts() -> &'static [Kind]
    ensures { result.now ≡ reading.rule_starts }
{
    &[
        Kind::Keyword(Keyword::Skip),
        Kind::Name,
        Kind::Keyword(Keyword::Par),
        Kind::Keyword(Keyword::Seq),
        Kind::Keyword(Keyword::If),
        Kind::Keyword(Keyword::Let),
        Kind::Keyword(Keyword::Forall),
        Kind::Keyword(Keyword::Choose),
        Kind::Keyword(Keyword::Iterate),
        Kind::Keyword(Keyword::While),
        Kind::Keyword(Keyword::Result),
    ]
}

impl<'a> Parser<'a> {
    /// A name, what it ranges over and maybe a condition, between this word and `do`.
    #[tactic(auto, using(crate::proofs::TermSteps::below_less))]
    fn ranged(&mut self, levels: usize, word: Keyword) -> Read<((Name, Name), Option<Term>)>
        ensures parsed { Parses ranged_of (reading.ranged_in self.old.text.now levels word) self.old self.new result }
        ensures left { OnOk result (0 < levels) }
    {
        self.tokens.enter(Kind::Keyword(word), levels)?;
        let names = self.binding()?;
        let test = self.condition(levels - 1)?;
        self.tokens.expect(Kind::Keyword(Keyword::Do))?;
        Ok((names, test))
    }

    /// The name between `let` and `=`.
    fn let_name(&mut self, levels: usize) -> Read<Name>
        ensures parsed { Parses name_of (reading.let_name_in self.old.text.now levels) self.old self.new result }
        ensures left { OnOk result (0 < levels) }
    {
        self.tokens.enter(Kind::Keyword(Keyword::Let), levels)?;
        let name = self.name()?;
        self.tokens.expect(Kind::Symbol(Symbol::Equal))?;
        Ok(name)
    }

    /// A term before this word.
    fn term_before(&mut self, levels: usize, word: Keyword) -> Read<Term>
        ensures { Parses term_of (reading.term_before_at self.old.text.now levels word) self.old self.new result }
    {
        let value = self.term(levels)?;
        self.tokens.expect(Kind::Keyword(word))?;
        Ok(value)
    }

    /// What is assigned, after `:=`.
    #[tactic(auto, using(crate::proofs::TermSteps::term_is))]
    fn assigned(&mut self, levels: usize) -> Read<Term>
        ensures { Parses term_of (reading.value_in self.old.text.now levels) self.old self.new result }
    {
        self.tokens.expect(Kind::Symbol(Symbol::Assign))?;
        let value = self.term(levels)?;
        Ok(value)
    }

    /// The call with a result, after `<-`.
    fn result_call(&mut self, levels: usize) -> Read<(Name, Vec<Term>)>
        ensures { Parses applied_of (reading.called_in self.old.text.now levels) self.old self.new result }
    {
        self.tokens.expect(Kind::Symbol(Symbol::LeftArrow))?;
        let called = self.applied(levels)?;
        Ok(called)
    }

    /// A call, an assignment, or a call with a result.
    #[tactic(auto, unfolding(crate::specs::code::RuleReading::named_rule_at))]
    fn named_rule(&mut self, levels: usize) -> Read<Rule>
        ensures { Parses rule_of (reading.named_rule_in self.old.text.now levels) self.old self.new result }
    {
        let first = self.applied(levels)?;
        if self.tokens.sees(Kind::Symbol(Symbol::Assign)) {
            let value = self.assigned(levels)?;
            let (name, arguments) = first;
            return Ok(Rule::Assign {
                name,
                arguments,
                value,
            });
        }
        if self.tokens.sees(Kind::Symbol(Symbol::LeftArrow)) {
            let (called, given) = self.result_call(levels)?;
            let (name, arguments) = first;
            return Ok(Rule::Call {
                target: Some(Target { name, arguments }),
                name: called,
                arguments: given,
            });
        }
        let (name, arguments) = first;
        Ok(Rule::Call {
            target: None,
            name,
            arguments,
        })
    }

    /// What is assigned to the location into which the rule's result goes.
    #[tactic(auto, unfolding(crate::specs::code::RuleReading::result_rule_at))]
    fn result_rule(&mut self, levels: usize) -> Read<Rule>
        ensures { Parses rule_of (reading.result_rule_in self.old.text.now levels) self.old self.new result }
    {
        let name = self.result_word()?;
        let value = self.assigned(levels)?;
        Ok(Rule::SetResult { name, value })
    }

    /// One rule or more; `levels` levels may open in them.
    #[cycle(rules)]
    fn several(&mut self, levels: usize) -> Read<Vec<Rule>>
        ensures { Parses (each_of rule_of) (reading.rules_at self.old.text.now levels) self.old self.new result }
    {
        let mut all = Vec::new(self.alloc);
        let first = self.rule(levels)?;
        all.push(first)?;
        while self.tokens.sees_any(rule_starts()) {
            let next = self.rule(levels)?;
            all.push(next)?;
        }
        Ok(all)
    }

    #[cycle(rules)]
    #[tactic(auto, unfolding(crate::specs::code::RuleReading::par_at))]
    fn par(&mut self, levels: usize) -> Read<Rule>
        ensures { Parses rule_of (reading.par_in self.old.text.now levels) self.old self.new result }
    {
        self.tokens.enter(Kind::Keyword(Keyword::Par), levels)?;
        let all = self.several(levels - 1)?;
        self.tokens.expect(Kind::Keyword(Keyword::EndPar))?;
        Ok(Rule::Par(all))
    }

    #[cycle(rules)]
    #[tactic(auto, unfolding(crate::specs::code::RuleReading::seq_at))]
    fn seq(&mut self, levels: usize) -> Read<Rule>
        ensures { Parses rule_of (reading.seq_in self.old.text.now levels) self.old self.new result }
    {
        self.tokens.enter(Kind::Keyword(Keyword::Seq), levels)?;
        let all = self.several(levels - 1)?;
        self.tokens.expect(Kind::Keyword(Keyword::EndSeq))?;
        Ok(Rule::Seq(all))
    }

    /// A rule, in a box.
    #[cycle(rules)]
    fn boxed(&mut self, levels: usize) -> Read<Box<Rule>>
        ensures { Parses in_box (reading.rule_at self.old.text.now levels) self.old self.new result }
    {
        let rule = self.rule(levels)?;
        Ok(Box::new(self.alloc, rule)?)
    }

    /// A rule before this word, in a box.
    #[cycle(rules)]
    fn body(&mut self, levels: usize, end: Keyword) -> Read<Box<Rule>>
        ensures { Parses in_box (reading.body_at self.old.text.now levels end) self.old self.new result }
    {
        let body = self.boxed(levels)?;
        self.tokens.expect(Kind::Keyword(end))?;
        Ok(body)
    }

    /// The rule after this word, if the word is there.
    #[cycle(rules)]
    #[tactic(auto, unfolding(crate::specs::code::RuleReading::branch_at))]
    fn branch(&mut self, levels: usize, word: Keyword) -> Read<Option<Box<Rule>>>
        ensures { Parses boxed_rule_of (reading.rule_behind_at self.old.text.now levels word) self.old self.new result }
    {
        if self.tokens.sees(Kind::Keyword(word)) {
            self.tokens.expect(Kind::Keyword(word))?;
            let other = self.boxed(levels)?;
            return Ok(Some(other));
        }
        Ok(None)
    }

    /// The same, before the other word.
    #[cycle(rules)]
    fn last_branch(&mut self, levels: usize, word: Keyword, end: Keyword) -> Read<Option<Box<Rule>>>
        ensures { Parses boxed_rule_of (reading.last_branch_at self.old.text.now levels word end) self.old self.new result }
    {
        let other = self.branch(levels, word)?;
        self.tokens.expect(Kind::Keyword(end))?;
        Ok(other)
    }

    #[cycle(rules)]
    #[tactic(auto, unfolding(crate::specs::code::RuleReading::if_at))]
    fn conditional(&mut self, levels: usize) -> Read<Rule>
        ensures { Parses rule_of (reading.if_in self.old.text.now levels) self.old self.new result }
    {
        self.tokens.enter(Kind::Keyword(Keyword::If), levels)?;
        let test = self.term_before(levels - 1, Keyword::Then)?;
        let yes = self.boxed(levels - 1)?;
        let no = self.last_branch(levels - 1, Keyword::Else, Keyword::EndIf)?;
        Ok(Rule::If { test, yes, no })
    }

    #[cycle(rules)]
    #[tactic(auto, unfolding(crate::specs::code::RuleReading::let_at))]
    fn let_rule(&mut self, levels: usize) -> Read<Rule>
        ensures { Parses rule_of (reading.let_in self.old.text.now levels) self.old self.new result }
    {
        let name = self.let_name(levels)?;
        let value = self.term_before(levels - 1, Keyword::In)?;
        let body = self.body(levels - 1, Keyword::EndLet)?;
        Ok(Rule::Let { name, value, body })
    }

    #[cycle(rules)]
    #[tactic(auto, unfolding(crate::specs::code::RuleReading::forall_at))]
    fn forall(&mut self, levels: usize) -> Read<Rule>
        ensures { Parses rule_of (reading.forall_in self.old.text.now levels) self.old self.new result }
    {
        let header = self.ranged(levels, Keyword::Forall)?;
        let body = self.body(levels - 1, Keyword::EndForall)?;
        let ((name, over), test) = header;
        Ok(Rule::Forall {
            name,
            over,
            test,
            body,
        })
    }

    #[cycle(rules)]
    #[tactic(auto, unfolding(crate::specs::code::RuleReading::choose_at))]
    fn choose(&mut self, levels: usize) -> Read<Rule>
        ensures { Parses rule_of (reading.choose_in self.old.text.now levels) self.old self.new result }
    {
        let header = self.ranged(levels, Keyword::Choose)?;
        let body = self.boxed(levels - 1)?;
        let none = self.last_branch(levels - 1, Keyword::IfNone, Keyword::EndChoose)?;
        let ((name, over), test) = header;
        Ok(Rule::Choose {
            name,
            over,
            test,
            body,
            none,
        })
    }

    #[cycle(rules)]
    #[tactic(auto, unfolding(crate::specs::code::RuleReading::iterate_at))]
    fn iterate(&mut self, levels: usize) -> Read<Rule>
        ensures { Parses rule_of (reading.iterate_in self.old.text.now levels) self.old self.new result }
    {
        self.tokens.enter(Kind::Keyword(Keyword::Iterate), levels)?;
        let body = self.body(levels - 1, Keyword::EndIterate)?;
        Ok(Rule::Iterate(body))
    }

    #[cycle(rules)]
    #[tactic(auto, unfolding(crate::specs::code::RuleReading::while_at))]
    fn while_rule(&mut self, levels: usize) -> Read<Rule>
        ensures { Parses rule_of (reading.while_in self.old.text.now levels) self.old self.new result }
    {
        self.tokens.enter(Kind::Keyword(Keyword::While), levels)?;
        let test = self.term_before(levels - 1, Keyword::Do)?;
        let body = self.body(levels - 1, Keyword::EndWhile)?;
        Ok(Rule::While { test, body })
    }

    /// A rule with an end word.
    #[cycle(rules)]
    #[tactic(auto, unfolding(crate::specs::code::RuleReading::block_at))]
    fn block(&mut self, levels: usize) -> Read<Rule>
        ensures { Parses rule_of (reading.block_in self.old.text.now levels) self.old self.new result }
    {
        if self.tokens.sees(Kind::Keyword(Keyword::Par)) {
            return self.par(levels);
        }
        if self.tokens.sees(Kind::Keyword(Keyword::Seq)) {
            return self.seq(levels);
        }
        if self.tokens.sees(Kind::Keyword(Keyword::If)) {
            return self.conditional(levels);
        }
        if self.tokens.sees(Kind::Keyword(Keyword::Let)) {
            return self.let_rule(levels);
        }
        if self.tokens.sees(Kind::Keyword(Keyword::Forall)) {
            return self.forall(levels);
        }
        if self.tokens.sees(Kind::Keyword(Keyword::Choose)) {
            return self.choose(levels);
        }
        if self.tokens.sees(Kind::Keyword(Keyword::Iterate)) {
            return self.iterate(levels);
        }
        self.while_rule(levels)
    }

    /// A rule; `levels` levels may open in it.
    #[cycle(rules)]
    #[tactic(auto, using(crate::proofs::RuleSteps::rule_is, crate::proofs::Views::skip_is), unfolding(crate::specs::code::RuleReading::rule_over_at, crate::specs::code::RuleReading::skip_at))]
    pub(crate) fn rule(&mut self, levels: usize) -> Read<Rule>
        ensures { Parses rule_of (reading.rule_at self.old.text.now levels) self.old self.new result }
    {
        if self.tokens.sees(Kind::Keyword(Keyword::Skip)) {
            self.tokens.expect(Kind::Keyword(Keyword::Skip))?;
            return Ok(Rule::Skip);
        }
        if self.tokens.sees(Kind::Name) {
            return self.named_rule(levels);
        }
        if self.tokens.sees(Kind::Keyword(Keyword::Result)) {
            return self.result_rule(levels);
        }
        self.block(levels)
    }
}
