//! How the name at an offset is used.
use asm_state::operation::Op;
use asm_syntax::name::Name;
use asm_syntax::rule::{Rule, Target};
use asm_syntax::spec::{Const, Entry, Given, Item, Spec};
use asm_syntax::term::Term;
use std::alloc::{AllocError, Global};

/// What has to be named at a place.
#[derive(Clone, Copy, Debug, PartialEq, Eq)]
pub(crate) enum Role {
    /// A bound name, an element or a function.
    Term,
    /// A controlled function.
    Target,
    Rule,
    /// A rule behind a `<-`.
    Answering,
    Universe,
    Codomain,
    Element,
}

/// How a name is used.
#[derive(Clone, Copy, Debug, PartialEq, Eq)]
pub(crate) struct Use {
    pub role: Role,
    /// How many arguments it has.
    pub count: usize,
}

/// A search for the use of the name at an offset.
#[derive(Drop)]
pub(crate) struct Search<'s> {
    at: usize,
    /// The names that are bound where the search is, and where the name was found, the outermost
    /// first.
    pub bound: Vec<&'s Name>,
    pub found: Option<Use>,
}

impl<'s> Search<'s> {
    pub(crate) fn of(alloc: Global, at: usize) -> Search<'s> {
        Search {
            at,
            bound: Vec::new(alloc),
            found: None,
        }
    }

    /// Notes the use, if it is the one that is sought.
    fn note(&mut self, name: &Name, role: Role, count: usize) {
        if name.at == self.at && self.found.is_none() {
            self.found = Some(Use { role, count });
        }
    }

    /// Forgets the names that were bound last, down to so many, if the search goes on.
    fn unbind(&mut self, count: usize) {
        if self.found.is_none() {
            self.bound.truncate(count);
        }
    }

    /// Searches a specification.
    pub(crate) fn specification(&mut self, spec: &'s Spec) -> Result<(), AllocError> {
        for item in &spec.items {
            if self.found.is_none() {
                self.item(item)?;
            }
        }
        Ok(())
    }

    fn item(&mut self, item: &'s Item) -> Result<(), AllocError> {
        match item {
            Item::Uses(_) | Item::Init(_) | Item::Enum { .. } | Item::Universe { .. } => Ok(()),
            Item::Function {
                domain,
                codomain,
                table,
                ..
            } => {
                self.function(domain.as_slice(), codomain, table);
                Ok(())
            }
            Item::Derived {
                parameters,
                body,
                ..
            } => {
                self.bind(parameters.as_slice())?;
                self.term(body)?;
                self.unbind(0);
                Ok(())
            }
            Item::Rule {
                parameters,
                body,
                ..
            } => {
                self.bind(parameters.as_slice())?;
                self.rule(body)?;
                self.unbind(0);
                Ok(())
            }
        }
    }

    /// Binds parameters.
    fn bind(&mut self, names: &'s [Name]) -> Result<(), AllocError> {
        for name in names {
            self.bound.push(name)?;
        }
        Ok(())
    }

    fn function(&mut self, domain: &[Name], codomain: &Option<Name>, table: &Option<Given>) {
        for name in domain {
            self.note(name, Role::Universe, 0);
        }
        if let Some(name) = codomain {
            self.note(name, Role::Codomain, 0);
        }
        match table {
            Some(Given::Each(constant)) => self.constant(constant),
            Some(Given::Entries(entries)) => self.entries(entries.as_slice()),
            None => {}
        }
    }

    fn entries(&mut self, entries: &[Entry]) {
        for entry in entries {
            for argument in &entry.arguments {
                self.constant(argument);
            }
            self.constant(&entry.value);
        }
    }

    fn constant(&mut self, constant: &Const) {
        if let Const::Element(name) = constant {
            self.note(name, Role::Element, 0);
        }
    }

    /// Searches a term.
    #[cycle(search_terms)]
    pub(crate) fn term(&mut self, term: &'s Term) -> Result<(), AllocError> {
        if self.found.is_some() {
            return Ok(());
        }
        match term {
            Term::Constant(_) | Term::Result(_) => Ok(()),
            Term::Named { name, arguments } => {
                self.note(name, Role::Term, arguments.len());
                self.terms(arguments.as_slice())
            }
            Term::Chain { first, rest } => {
                self.term(first)?;
                self.links(rest.as_slice())
            }
            Term::Not(inner) => self.term(inner),
            Term::Negative(inner) => self.term(inner),
            Term::Exists { name, over, test } => self.quantifier(name, over, test),
            Term::Every { name, over, test } => self.quantifier(name, over, test),
        }
    }

    #[cycle(search_terms)]
    fn terms(&mut self, terms: &'s [Term]) -> Result<(), AllocError> {
        for term in terms {
            self.term(term)?;
        }
        Ok(())
    }

    #[cycle(search_terms)]
    fn links(&mut self, links: &'s [(Op, Term)]) -> Result<(), AllocError> {
        for (_, term) in links {
            self.term(term)?;
        }
        Ok(())
    }

    #[cycle(search_terms)]
    fn quantifier(
        &mut self,
        name: &'s Name,
        over: &'s Name,
        test: &'s Term,
    ) -> Result<(), AllocError> {
        self.note(over, Role::Universe, 0);
        let count = self.bound.len();
        self.push_bound(name)?;
        self.term(test)?;
        self.unbind(count);
        Ok(())
    }

    /// Binds a name, if the search goes on.
    fn push_bound(&mut self, name: &'s Name) -> Result<(), AllocError> {
        if self.found.is_none() {
            self.bound.push(name)?;
        }
        Ok(())
    }

    /// Searches a condition that may be left out.
    fn test(&mut self, test: Option<&'s Term>) -> Result<(), AllocError> {
        match test {
            Some(test) => self.term(test),
            None => Ok(()),
        }
    }

    /// Searches the target of a call, if there is one.
    fn target(&mut self, target: &'s Option<Target>) -> Result<(), AllocError> {
        match target {
            Some(Target { name, arguments }) => {
                self.note(name, Role::Target, arguments.len());
                self.terms(arguments.as_slice())
            }
            None => Ok(()),
        }
    }

    #[cycle(search_rules)]
    fn rule(&mut self, rule: &'s Rule) -> Result<(), AllocError> {
        if self.found.is_some() {
            return Ok(());
        }
        match rule {
            Rule::Skip => Ok(()),
            Rule::Assign { .. } | Rule::Call { .. } | Rule::SetResult { .. } => {
                self.plain_rule(rule)
            }
            Rule::Let { .. } | Rule::Forall { .. } | Rule::Choose { .. } => {
                self.binding_rule(rule)
            }
            Rule::Par(parts) => self.rules(parts.as_slice()),
            Rule::Seq(parts) => self.rules(parts.as_slice()),
            Rule::If { test, yes, no } => {
                self.term(test)?;
                self.rule(yes)?;
                self.branch(no)
            }
            Rule::Iterate(body) => self.rule(body),
            Rule::While { test, body } => {
                self.term(test)?;
                self.rule(body)
            }
        }
    }

    /// Searches a rule that binds a name.
    #[cycle(search_rules)]
    fn binding_rule(&mut self, rule: &'s Rule) -> Result<(), AllocError> {
        match rule {
            Rule::Let { name, value, body } => {
                self.term(value)?;
                self.binder(name, None, body)
            }
            Rule::Forall {
                name,
                over,
                test,
                body,
            } => {
                self.note(over, Role::Universe, 0);
                self.binder(name, test.as_ref(), body)
            }
            Rule::Choose {
                name,
                over,
                test,
                body,
                none,
            } => {
                self.note(over, Role::Universe, 0);
                self.binder(name, test.as_ref(), body)?;
                self.branch(none)
            }
            _ => Ok(()),
        }
    }

    /// Searches an assignment or a call.
    fn plain_rule(&mut self, rule: &'s Rule) -> Result<(), AllocError> {
        match rule {
            Rule::Assign {
                name,
                arguments,
                value,
            } => {
                self.note(name, Role::Target, arguments.len());
                self.terms(arguments.as_slice())?;
                self.term(value)
            }
            Rule::Call {
                target,
                name,
                arguments,
            } => {
                self.target(target)?;
                self.note(name, role_of_call(target), arguments.len());
                self.terms(arguments.as_slice())
            }
            Rule::SetResult { value, .. } => self.term(value),
            _ => Ok(()),
        }
    }

    #[cycle(search_rules)]
    fn rules(&mut self, parts: &'s [Rule]) -> Result<(), AllocError> {
        for part in parts {
            self.rule(part)?;
        }
        Ok(())
    }

    /// Searches where a name is bound.
    #[cycle(search_rules)]
    fn binder(
        &mut self,
        name: &'s Name,
        test: Option<&'s Term>,
        body: &'s Rule,
    ) -> Result<(), AllocError> {
        let count = self.bound.len();
        self.push_bound(name)?;
        self.test(test)?;
        self.rule(body)?;
        self.unbind(count);
        Ok(())
    }

    #[cycle(search_rules)]
    fn branch(&mut self, rule: &'s Option<Box<Rule>>) -> Result<(), AllocError> {
        match rule {
            Some(rule) => self.rule(rule),
            None => Ok(()),
        }
    }
}

/// The role of the name of a call with this target.
fn role_of_call(target: &Option<Target>) -> Role {
    if target.is_some() {
        Role::Answering
    } else {
        Role::Rule
    }
}
