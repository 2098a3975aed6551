//! A walk through terms and rules that collects the uses of names.
//!
//! Parameters are an ordered set, since a text has room for 200,000 of them. Inner binders are a
//! stack, since at most 64 are nested in a text that was read. The word `result` is a use, too, and
//! is bound in the bodies of rules. The name after a `<-` has another role than that of a plain
//! call.
ghost use Rattle.std.specs.Prelude.{◌≡◌, [], ◌∷◌, ◌++◌, map, flat_map, option_map, IfOk, OnOk};
ghost use Rattle.std.specs.List.{list_any};
ghost use Rattle.asm_syntax.specs.SourceTree as source;
ghost use Rattle.asm_syntax.specs.code.Views.{name_of, const_of, entry_of, given_of, term_of, terms_of, links_of, target_of, test_of, rule_of, rules_of};
ghost use Rattle.asm_check.specs.Names as names;
ghost use Rattle.asm_check.specs.code.uses.UseViews.{role_of};
ghost use Rattle.asm_check.specs.code.uses.UseCollector.{bound_of, branch_view, AddsUses, Binds, Unbinds, IsSameScope};

use crate::uses::declaration_uses::{Role, Use};
use asm_state::operation::Op;
use asm_syntax::name::{Name, Text};
use asm_syntax::rule::{Rule, Target};
use asm_syntax::spec::{Const, Entry, Given};
use asm_syntax::term::Term;
use std::alloc::{AllocError, Global};
use std::collections::BTreeSet;

/// The word `result`.
const RESULT: &[u8] = b"result";

/// The uses that were met so far, and the names that are bound where the walk is.
#[derive(Drop)]
pub(crate) struct Collector<'a> {
    pub found: Vec<Use<'a>>,
    parameters: BTreeSet<&'a [u8]>,
    binders: Vec<&'a Text>,
}

impl<'a> Collector<'a> {
    /// No use yet, and no name is bound.
    pub(crate) fn new(alloc: Global) -> Collector<'a>
        ensures found { result.found.items ≡ [] }
        ensures bound { bound_of result ≡ [] }
    {
        Collector {
            found: Vec::new(alloc),
            parameters: BTreeSet::new(alloc),
            binders: Vec::new(alloc),
        }
    }

    /// No use yet, and the parameters are bound.
    pub(crate) fn with_parameters(
        alloc: Global,
        parameters: &'a [Name],
    ) -> Result<Collector<'a>, AllocError>
        ensures found { IfOk result (λ c. c.found.items ≡ []) }
        ensures bound { IfOk result (λ c. IsSameScope (bound_of c) (map names.text_of (map name_of parameters.now))) }
    {
        let mut texts = BTreeSet::new(alloc);
        for parameter in parameters {
            texts.insert(parameter.text.as_bytes())?;
        }
        Ok(Collector {
            found: Vec::new(alloc),
            parameters: texts,
            binders: Vec::new(alloc),
        })
    }

    /// No use yet, and the parameters and `result` are bound.
    pub(crate) fn in_rule(
        alloc: Global,
        parameters: &'a [Name],
    ) -> Result<Collector<'a>, AllocError>
        ensures found { IfOk result (λ c. c.found.items ≡ []) }
        ensures bound { IfOk result (λ c. IsSameScope (bound_of c) (names.rule_scope (map name_of parameters.now))) }
    {
        let mut collector = Collector::with_parameters(alloc, parameters)?;
        collector.parameters.insert(RESULT)?;
        Ok(collector)
    }

    /// Whether a binder of this name is around.
    fn is_binder(&self, name: &Text) -> bool
        ensures { result ≡ list_any (λ b. names.is_text b.now name.now) self.now.binders.items }
    {
        self.binders.iter().any(|binder| binder.is_same_text(name))
    }

    /// Whether a parameter has this name.
    fn is_parameter(&self, name: &Text) -> bool
        ensures { result ≡ list_any (λ p. names.is_text name.now p.now) self.now.parameters.keys }
    {
        self.parameters.contains(name.as_bytes())
    }

    /// Whether this name is bound.
    fn is_bound(&self, name: &Text) -> bool
        ensures { result ≡ names.is_among (bound_of self.now) name.now }
    {
        self.is_binder(name) || self.is_parameter(name)
    }

    /// Adds the use of a name with `count` arguments.
    fn add(&mut self, role: Role, name: &'a Name, count: usize) -> Result<(), AllocError>
        ensures { OnOk result (AddsUses self.old self.new (names.use_of (role_of role) (name_of name.now) count (bound_of self.old) ∷ [])) }
    {
        let is_bound = self.is_bound(&name.text);
        self.found.push(Use {
            role,
            name,
            count,
            is_bound,
        })?;
        Ok(())
    }

    /// Adds the use of a name in a role in which no binder is looked at.
    pub(crate) fn add_plain(&mut self, role: Role, name: &'a Name) -> Result<(), AllocError>
        ensures { OnOk result (AddsUses self.old self.new (names.plain_use (role_of role) (name_of name.now) ∷ [])) }
    {
        self.found.push(Use {
            role,
            name,
            count: 0,
            is_bound: false,
        })?;
        Ok(())
    }

    /// A binder opens.
    fn bind(&mut self, name: &'a Name) -> Result<(), AllocError>
        ensures { OnOk result (Binds self.old self.new name.now.text) }
    {
        self.binders.push(&name.text)?;
        Ok(())
    }

    /// The last binder closes.
    fn unbind(&mut self)
        ensures { Unbinds self.old self.new }
    {
        let _ = self.binders.pop();
    }

    /// Adds the uses in a term.
    #[cycle(term_uses)]
    pub(crate) fn term(&mut self, term: &'a Term) -> Result<(), AllocError>
        ensures { OnOk result (AddsUses self.old self.new (names.uses_of_term (term_of term.now) (bound_of self.old))) }
    {
        match term {
            Term::Constant(_) => Ok(()),
            Term::Named { name, arguments } => {
                self.add(Role::InTerm, name, arguments.len())?;
                self.terms(arguments)
            }
            Term::Chain { first, rest } => {
                self.term(first)?;
                self.links(rest)
            }
            Term::Not(inner) | Term::Negative(inner) => self.term(inner),
            Term::Exists { name, over, test } | Term::Every { name, over, test } => {
                self.quantified(name, over, test)
            }
            Term::Result(name) => self.add(Role::AsResult, name, 0),
        }
    }

    /// Adds the uses in a term after a quantifier.
    #[cycle(term_uses)]
    fn quantified(
        &mut self,
        name: &'a Name,
        over: &'a Name,
        test: &'a Term,
    ) -> Result<(), AllocError>
        ensures { OnOk result (AddsUses self.old self.new (names.plain_use names.AsUniverse (name_of over.now) ∷ names.uses_of_term (term_of test.now) (name.now.text ∷ bound_of self.old))) }
    {
        self.add_plain(Role::AsUniverse, over)?;
        self.bind(name)?;
        self.term(test)?;
        self.unbind();
        Ok(())
    }

    #[cycle(term_uses)]
    fn terms(&mut self, terms: &'a Vec<Term>) -> Result<(), AllocError>
        ensures { OnOk result (AddsUses self.old self.new (names.uses_of_terms (terms_of (map term_of terms.now.items)) (bound_of self.old))) }
    {
        for term in terms {
            self.term(term)?;
        }
        Ok(())
    }

    #[cycle(term_uses)]
    fn links(&mut self, links: &'a Vec<(Op, Term)>) -> Result<(), AllocError>
        ensures { OnOk result (AddsUses self.old self.new (names.uses_of_links (links_of (map (λ l. (l.0, term_of l.1)) links.now.items)) (bound_of self.old))) }
    {
        for (_, term) in links {
            self.term(term)?;
        }
        Ok(())
    }

    /// Adds the uses in the test of a rule.
    fn test(&mut self, test: &'a Option<Term>) -> Result<(), AllocError>
        ensures { OnOk result (AddsUses self.old self.new (names.uses_of_test (test_of test.now) (bound_of self.old))) }
    {
        match test {
            None => Ok(()),
            Some(term) => self.term(term),
        }
    }

    /// Adds the uses in an assignment.
    fn assignment(
        &mut self,
        name: &'a Name,
        arguments: &'a Vec<Term>,
        value: &'a Term,
    ) -> Result<(), AllocError>
        ensures { OnOk result (AddsUses self.old self.new (names.uses_of_rule (source.Assign (name_of name.now) (terms_of (map term_of arguments.now.items)) (term_of value.now)) (bound_of self.old))) }
    {
        self.add(Role::AsTarget, name, arguments.len())?;
        self.terms(arguments)?;
        self.term(value)
    }

    /// Adds the uses in the target of a call, if it has one.
    fn target(&mut self, target: &'a Option<Target>) -> Result<(), AllocError>
        ensures { OnOk result (AddsUses self.old self.new (names.uses_of_target (target_of target.now) (bound_of self.old))) }
    {
        match target {
            None => Ok(()),
            Some(target) => {
                self.add(Role::AsTarget, &target.name, target.arguments.len())?;
                self.terms(&target.arguments)
            }
        }
    }

    /// Adds the uses in a call.
    fn call(
        &mut self,
        target: &'a Option<Target>,
        name: &'a Name,
        arguments: &'a Vec<Term>,
    ) -> Result<(), AllocError>
        ensures { OnOk result (AddsUses self.old self.new (names.uses_of_rule (source.Call (target_of target.now) (name_of name.now) (terms_of (map term_of arguments.now.items))) (bound_of self.old))) }
    {
        self.target(target)?;
        self.add(rule_role(target), name, arguments.len())?;
        self.terms(arguments)
    }

    /// Adds the uses in `result := value`.
    fn answer(&mut self, name: &'a Name, value: &'a Term) -> Result<(), AllocError>
        ensures { OnOk result (AddsUses self.old self.new (names.uses_of_rule (source.SetResult (name_of name.now) (term_of value.now)) (bound_of self.old))) }
    {
        self.add(Role::AsResult, name, 0)?;
        self.term(value)
    }

    /// Adds the uses in a rule.
    #[cycle(rule_uses)]
    pub(crate) fn rule(&mut self, rule: &'a Rule) -> Result<(), AllocError>
        ensures { OnOk result (AddsUses self.old self.new (names.uses_of_rule (rule_of rule.now) (bound_of self.old))) }
    {
        match rule {
            Rule::Skip => Ok(()),
            Rule::Assign {
                name,
                arguments,
                value,
            } => self.assignment(name, arguments, value),
            Rule::Call {
                target,
                name,
                arguments,
            } => self.call(target, name, arguments),
            Rule::Par(rules) | Rule::Seq(rules) => self.rules(rules),
            Rule::If { test, yes, no } => {
                self.term(test)?;
                self.rule(yes)?;
                self.branch(no)
            }
            Rule::Let { name, value, body } => self.local(name, body, value),
            Rule::Forall {
                name,
                over,
                test,
                body,
            } => self.each(name, over, test, body),
            Rule::Choose {
                name,
                over,
                test,
                body,
                none,
            } => {
                self.each(name, over, test, body)?;
                self.branch(none)
            }
            Rule::Iterate(body) => self.rule(body),
            Rule::While { test, body } => {
                self.term(test)?;
                self.rule(body)
            }
            Rule::SetResult { name, value } => self.answer(name, value),
        }
    }

    #[cycle(rule_uses)]
    fn rules(&mut self, rules: &'a Vec<Rule>) -> Result<(), AllocError>
        ensures { OnOk result (AddsUses self.old self.new (names.uses_of_rules (rules_of (map rule_of rules.now.items)) (bound_of self.old))) }
    {
        for rule in rules {
            self.rule(rule)?;
        }
        Ok(())
    }

    /// Adds the uses in a rule that may be left out.
    #[cycle(rule_uses)]
    fn branch(&mut self, branch: &'a Option<Box<Rule>>) -> Result<(), AllocError>
        ensures { OnOk result (AddsUses self.old self.new (names.uses_of_branch (branch_view branch.now) (bound_of self.old))) }
    {
        match branch {
            None => Ok(()),
            Some(rule) => self.rule(rule),
        }
    }

    /// Adds the uses in a rule with a local name for a value.
    #[cycle(rule_uses)]
    fn local(&mut self, name: &'a Name, body: &'a Rule, value: &'a Term) -> Result<(), AllocError>
        ensures { OnOk result (AddsUses self.old self.new (names.uses_of_rule (source.Let (name_of name.now) (term_of value.now) (rule_of body.now)) (bound_of self.old))) }
    {
        self.term(value)?;
        self.bind(name)?;
        self.rule(body)?;
        self.unbind();
        Ok(())
    }

    /// Adds the uses in a rule for each member of a universe.
    #[cycle(rule_uses)]
    fn each(
        &mut self,
        name: &'a Name,
        over: &'a Name,
        test: &'a Option<Term>,
        body: &'a Rule,
    ) -> Result<(), AllocError>
        ensures { OnOk result (AddsUses self.old self.new (names.uses_of_rule (source.Forall (name_of name.now) (name_of over.now) (test_of test.now) (rule_of body.now)) (bound_of self.old))) }
    {
        self.add_plain(Role::AsUniverse, over)?;
        self.bind(name)?;
        self.test(test)?;
        self.rule(body)?;
        self.unbind();
        Ok(())
    }

    /// Adds the use in a constant of a table.
    fn constant(&mut self, constant: &'a Const) -> Result<(), AllocError>
        ensures { OnOk result (AddsUses self.old self.new (names.uses_of_const (const_of constant.now))) }
    {
        match constant {
            Const::Plain(_) => Ok(()),
            Const::Element(name) => self.add_plain(Role::AsElement, name),
        }
    }

    fn constants(&mut self, constants: &'a [Const]) -> Result<(), AllocError>
        ensures { OnOk result (AddsUses self.old self.new (flat_map names.uses_of_const (map const_of constants.now))) }
    {
        for constant in constants {
            self.constant(constant)?;
        }
        Ok(())
    }

    /// Adds the uses in an entry of a table.
    fn entry(&mut self, entry: &'a Entry) -> Result<(), AllocError>
        ensures { OnOk result (AddsUses self.old self.new (names.uses_of_entry (entry_of entry.now))) }
    {
        self.constants(&entry.arguments)?;
        self.constant(&entry.value)
    }

    fn entries(&mut self, entries: &'a [Entry]) -> Result<(), AllocError>
        ensures { OnOk result (AddsUses self.old self.new (flat_map names.uses_of_entry (map entry_of entries.now))) }
    {
        for entry in entries {
            self.entry(entry)?;
        }
        Ok(())
    }

    /// Adds the uses in a table.
    fn table(&mut self, table: &'a Option<Given>) -> Result<(), AllocError>
        ensures { OnOk result (AddsUses self.old self.new (names.uses_of_table (option_map given_of table.now))) }
    {
        match table {
            None => Ok(()),
            Some(Given::Each(constant)) => self.constant(constant),
            Some(Given::Entries(entries)) => self.entries(entries),
        }
    }

    /// Adds the uses in a domain.
    fn domain(&mut self, domain: &'a [Name]) -> Result<(), AllocError>
        ensures { OnOk result (AddsUses self.old self.new (map (names.plain_use names.AsUniverse) (map name_of domain.now))) }
    {
        for name in domain {
            self.add_plain(Role::AsUniverse, name)?;
        }
        Ok(())
    }

    /// Adds the use in a codomain.
    fn codomain(&mut self, codomain: &'a Option<Name>) -> Result<(), AllocError>
        ensures { OnOk result (AddsUses self.old self.new (names.uses_of_codomain (option_map name_of codomain.now))) }
    {
        match codomain {
            None => Ok(()),
            Some(name) => self.add_plain(Role::AsCodomain, name),
        }
    }

    /// Adds the uses in the declaration of a function.
    pub(crate) fn function(
        &mut self,
        domain: &'a [Name],
        codomain: &'a Option<Name>,
        table: &'a Option<Given>,
    ) -> Result<(), AllocError>
        ensures { OnOk result (AddsUses self.old self.new (map (names.plain_use names.AsUniverse) (map name_of domain.now) ++ names.uses_of_codomain (option_map name_of codomain.now) ++ names.uses_of_table (option_map given_of table.now))) }
    {
        self.domain(domain)?;
        self.codomain(codomain)?;
        self.table(table)
    }
}

/// The role of the name in a call.
fn rule_role(target: &Option<Target>) -> Role
    ensures { role_of result ≡ names.rule_role (target_of target.now) }
{
    match target {
        None => Role::AsRule,
        Some(_) => Role::AsResultCall,
    }
}
