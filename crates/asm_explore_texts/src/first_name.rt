//! The first name in a rule.
use asm_state::operation::Op;
use asm_syntax::name::Name;
use asm_syntax::rule::Rule;
use asm_syntax::term::Term;

/// The first name in a rule, if there is one: of an assignment the function's, of a call the
/// rule's, of a `let`, `forall` or `choose` the variable's.
#[cycle(first_name)]
pub(crate) fn first_name(rule: &Rule) -> Option<&Name> {
    match rule {
        Rule::Skip => None,
        Rule::Assign { name, .. } => Some(name),
        Rule::SetResult { name, .. } => Some(name),
        Rule::Call { name, .. } => Some(name),
        Rule::Let { name, .. } => Some(name),
        Rule::Forall { name, .. } => Some(name),
        Rule::Choose { name, .. } => Some(name),
        Rule::Par(parts) => first_in_parts(parts.as_slice()),
        Rule::Seq(parts) => first_in_parts(parts.as_slice()),
        Rule::If { test, yes, no } => match first_in_term(test) {
            Some(name) => Some(name),
            None => match first_name(yes) {
                Some(name) => Some(name),
                None => first_in_other(no),
            },
        },
        Rule::Iterate(body) => first_name(body),
        Rule::While { test, body } => match first_in_term(test) {
            Some(name) => Some(name),
            None => first_name(body),
        },
    }
}

/// The first name in one of some rules.
#[cycle(first_name)]
fn first_in_parts(parts: &[Rule]) -> Option<&Name> {
    for i in 0..parts.len() {
        if let Some(name) = first_name(&parts[i]) {
            return Some(name);
        }
    }
    None
}

/// The first name in a rule that may be left out.
#[cycle(first_name)]
fn first_in_other(rule: &Option<Box<Rule>>) -> Option<&Name> {
    match rule {
        Some(rule) => first_name(rule),
        None => None,
    }
}

/// The first name in a term.
#[cycle(first_in_term)]
fn first_in_term(term: &Term) -> Option<&Name> {
    match term {
        Term::Constant(_) => None,
        Term::Named { name, .. } => Some(name),
        Term::Chain { first, rest } => match first_in_term(first) {
            Some(name) => Some(name),
            None => first_in_links(rest.as_slice()),
        },
        Term::Not(inner) => first_in_term(inner),
        Term::Negative(inner) => first_in_term(inner),
        Term::Exists { name, .. } => Some(name),
        Term::Every { name, .. } => Some(name),
        Term::Result(name) => Some(name),
    }
}

/// The first name in the operands of a chain after its first.
#[cycle(first_in_term)]
fn first_in_links(links: &[(Op, Term)]) -> Option<&Name> {
    for i in 0..links.len() {
        if let Some(name) = first_in_term(&links[i].1) {
            return Some(name);
        }
    }
    None
}
