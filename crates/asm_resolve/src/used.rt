//! The bodies that a rule uses, resolved before it. The pass goes down into a body where it first
//! meets its use. If each body that a body uses is known by then, it nests no deeper than the
//! text of one body does.
//!
//! The uses wait in a list on the heap, not in nested calls. A use that the pass still meets is
//! resolved already, or is one more body of a rule that is called in two ways, so the pass nests no
//! deeper than two bodies do. The drop of a code does go down through all bodies.
ghost use Rattle.std.specs.Prelude.{OnOk};
ghost use Rattle.asm_syntax.specs.code.Views.{spec_of};
ghost use Rattle.asm_resolve.specs.code.RuleScopes.{AreKnown};

use crate::bodies::Bodies;
use crate::resolve::resolve_body;
use crate::resolve_rule::resolve_named_rule;
use asm_check::{Checked, NameNumber};
use asm_syntax::name::Name;
use asm_syntax::rule::{Rule, Target};
use asm_syntax::term::Term;
use std::alloc::{AllocError, Global};

/// A use of a body.
#[derive(Clone, Copy)]
enum BodyUse<'e> {
    /// Of the derived function with this number.
    Derived(usize),
    /// Of the rule with this name and number, by a call with a target or without, and with that
    /// many arguments.
    Rule {
        name: &'e Name,
        number: usize,
        answers: bool,
        arguments: usize,
    },
}

/// What is still to be resolved.
#[derive(Drop)]
struct Unresolved<'e> {
    checked: &'e Checked,
    /// Whether the body of a derived function was looked through, by its number.
    terms: Vec<bool>,
    /// The same of rules.
    rules: Vec<bool>,
    /// The last use is the next one. Whether its own uses were after it.
    uses: Vec<(BodyUse<'e>, bool)>,
}

/// Resolves the bodies that the rule uses, each after those that it uses itself. It is no fault to
/// leave one out: the pass resolves it where it meets the use.
pub(crate) fn resolve_used<'e>(
    alloc: Global,
    checked: &'e Checked,
    known: &mut Bodies,
    rule: &'e Rule,
) -> Result<(), AllocError>
    requires { AreKnown (spec_of checked.now.spec) known.old }
    ensures { OnOk result (AreKnown (spec_of checked.now.spec) known.new) }
{
    let mut waiting = Unresolved {
        checked,
        terms: vec![in alloc; false; checked.derived_functions()]?,
        rules: vec![in alloc; false; checked.rules()]?,
        uses: Vec::new(alloc),
    };
    meet_rule(&mut waiting, rule)?;
    for _turn in 0..usize::MAX {
        let Some((used, is_open)) = waiting.uses.pop() else {
            return Ok(());
        };
        if is_open {
            resolve_use(alloc, checked, known, used)?;
            continue;
        }
        let is_new = match used {
            BodyUse::Derived(d) => is_new(&mut waiting.terms, d),
            BodyUse::Rule { number, .. } => is_new(&mut waiting.rules, number),
        };
        if is_new {
            waiting.uses.push((used, true))?;
            open_use(&mut waiting, used)?;
        }
    }
    Ok(())
}

/// Resolves one body.
fn resolve_use<'e>(
    alloc: Global,
    checked: &'e Checked,
    known: &mut Bodies,
    used: BodyUse<'e>,
) -> Result<(), AllocError>
    requires { AreKnown (spec_of checked.now.spec) known.old }
    ensures { OnOk result (AreKnown (spec_of checked.now.spec) known.new) }
{
    match used {
        BodyUse::Derived(d) => {
            if d < checked.derived_functions() {
                resolve_body(alloc, checked, &mut known.terms, d)?;
            }
            Ok(())
        }
        BodyUse::Rule {
            name,
            answers,
            arguments,
            ..
        } => resolve_named_rule(alloc, checked, known, name, answers, arguments),
    }
}

/// Whether the body with this number wasn't looked through yet. It is from now on.
fn is_new(looked_through: &mut Vec<bool>, number: usize) -> bool {
    if number < looked_through.len() && !looked_through[number] {
        looked_through[number] = true;
        return true;
    }
    false
}

/// Notes the uses in a body.
fn open_use<'e>(waiting: &mut Unresolved<'e>, used: BodyUse<'e>) -> Result<(), AllocError> {
    let checked = waiting.checked;
    match used {
        BodyUse::Derived(d) => {
            if d < checked.derived_functions() {
                let (_names, term) = checked.derived(d);
                meet_term(waiting, term)?;
            }
        }
        BodyUse::Rule { number, .. } => {
            if number < checked.rules() {
                let (_names, rule) = checked.rule(number);
                meet_rule(waiting, rule)?;
            }
        }
    }
    Ok(())
}

/// Notes the uses in a rule.
#[cycle(meet_rule)]
fn meet_rule<'e>(waiting: &mut Unresolved<'e>, rule: &'e Rule) -> Result<(), AllocError> {
    match rule {
        Rule::Skip => Ok(()),
        Rule::Assign {
            arguments,
            value,
            ..
        } => {
            meet_terms(waiting, arguments.as_slice())?;
            meet_term(waiting, value)
        }
        Rule::SetResult { value, .. } => meet_term(waiting, value),
        Rule::Par(rules) | Rule::Seq(rules) => {
            for rule in rules {
                meet_rule(waiting, rule)?;
            }
            Ok(())
        }
        Rule::If { test, yes, no } => {
            meet_term(waiting, test)?;
            meet_rule(waiting, yes)?;
            meet_other(waiting, no)
        }
        Rule::Let { value, body, .. } => {
            meet_term(waiting, value)?;
            meet_rule(waiting, body)
        }
        Rule::Forall { test, body, .. } => {
            meet_test(waiting, test)?;
            meet_rule(waiting, body)
        }
        Rule::Choose {
            test,
            body,
            none,
            ..
        } => {
            meet_test(waiting, test)?;
            meet_rule(waiting, body)?;
            meet_other(waiting, none)
        }
        Rule::Iterate(body) => meet_rule(waiting, body),
        Rule::While { test, body } => {
            meet_term(waiting, test)?;
            meet_rule(waiting, body)
        }
        Rule::Call {
            target,
            name,
            arguments,
        } => meet_call(waiting, target, name, arguments.as_slice()),
    }
}

/// Notes those in another rule, if there is one.
#[cycle(meet_rule)]
fn meet_other<'e>(
    waiting: &mut Unresolved<'e>,
    rule: &'e Option<Box<Rule>>,
) -> Result<(), AllocError> {
    match rule {
        Some(rule) => meet_rule(waiting, rule),
        None => Ok(()),
    }
}

/// Notes a call of a rule, and the uses in its terms.
fn meet_call<'e>(
    waiting: &mut Unresolved<'e>,
    target: &'e Option<Target>,
    name: &'e Name,
    arguments: &'e [Term],
) -> Result<(), AllocError> {
    if let Some(target) = target {
        meet_terms(waiting, target.arguments.as_slice())?;
    }
    meet_terms(waiting, arguments)?;
    if let Some(NameNumber::Rule(number)) = waiting.checked.named_text(&name.text) {
        let call = BodyUse::Rule {
            name,
            number,
            answers: target.is_some(),
            arguments: arguments.len(),
        };
        waiting.uses.push((call, false))?;
    }
    Ok(())
}

/// Notes the uses in a condition, if there is one.
fn meet_test<'e>(waiting: &mut Unresolved<'e>, test: &'e Option<Term>) -> Result<(), AllocError> {
    match test {
        Some(test) => meet_term(waiting, test),
        None => Ok(()),
    }
}

/// Notes the uses in a term.
#[cycle(meet_term)]
fn meet_term<'e>(waiting: &mut Unresolved<'e>, term: &'e Term) -> Result<(), AllocError> {
    match term {
        Term::Constant(_) | Term::Result(_) => Ok(()),
        Term::Named { name, arguments } => {
            if let Some(NameNumber::Derived(d)) = waiting.checked.named_text(&name.text) {
                waiting.uses.push((BodyUse::Derived(d), false))?;
            }
            meet_terms(waiting, arguments.as_slice())
        }
        Term::Chain { first, rest } => {
            meet_term(waiting, first)?;
            for (_, operand) in rest {
                meet_term(waiting, operand)?;
            }
            Ok(())
        }
        Term::Not(inner) | Term::Negative(inner) => meet_term(waiting, inner),
        Term::Exists { test, .. } | Term::Every { test, .. } => meet_term(waiting, test),
    }
}

/// Notes those in some terms.
#[cycle(meet_term)]
fn meet_terms<'e>(waiting: &mut Unresolved<'e>, terms: &'e [Term]) -> Result<(), AllocError> {
    for term in terms {
        meet_term(waiting, term)?;
    }
    Ok(())
}
