//! Trees as lines of text, where each name has its offset, as in `x@12`.
use asm_state::function::FunctionKind;
use asm_state::operation::Op;
use asm_syntax::name::Name;
use asm_syntax::rule::{Rule, Target};
use asm_syntax::spec::{Const, Entry, Given, Item, Spec};
use asm_syntax::term::{Literal, Term};
use std::alloc::{AllocError, Global};

type Pushed = Result<(), AllocError>;

fn push_name(out: &mut String, name: &Name) -> Pushed {
    for byte in name.text.as_bytes() {
        out.push(char::from(*byte))?;
    }
    let at = name.at;
    write!(out, "@{at}")
}

/// The names, each after a space.
fn push_names(out: &mut String, names: &Vec<Name>) -> Pushed {
    for name in names {
        out.push(' ')?;
        push_name(out, name)?;
    }
    Ok(())
}

fn push_literal(out: &mut String, literal: Literal) -> Pushed {
    match literal {
        Literal::Undef => out.push_str("undef"),
        Literal::Truth(truth) => write!(out, "{truth}"),
        Literal::Number(number) => {
            let value = number.value;
            write!(out, "{value}")
        }
    }
}

fn sign(operation: Op) -> &'static str {
    match operation {
        Op::Add => "+",
        Op::Subtract => "-",
        Op::Multiply => "*",
        Op::Divide => "div",
        Op::Remainder => "mod",
        Op::Less => "<",
        Op::AtMost => "<=",
        Op::Greater => ">",
        Op::AtLeast => ">=",
        Op::Equal => "=",
        Op::Different => "!=",
        Op::And => "and",
        Op::Or => "or",
        Op::Negate | Op::Not => "one operand",
    }
}

/// A name with its arguments, if it has any.
#[cycle(printed_terms)]
fn push_applied(out: &mut String, name: &Name, arguments: &Vec<Term>) -> Pushed {
    push_name(out, name)?;
    if arguments.is_empty() {
        return Ok(());
    }
    out.push('(')?;
    let mut is_first = true;
    for argument in arguments {
        if !is_first {
            out.push_str(", ")?;
        }
        is_first = false;
        push_term(out, argument)?;
    }
    out.push(')')
}

/// A chain is in brackets, and what has one operand or binds a name in parentheses.
#[cycle(printed_terms)]
fn push_term(out: &mut String, term: &Term) -> Pushed {
    match term {
        Term::Constant(literal) => push_literal(out, *literal),
        Term::Named { name, arguments } => push_applied(out, name, arguments),
        Term::Chain { first, rest } => {
            out.push('[')?;
            push_term(out, first)?;
            for (operation, next) in rest {
                let sign = sign(*operation);
                write!(out, " {sign} ")?;
                push_term(out, next)?;
            }
            out.push(']')
        }
        Term::Not(denied) => push_operand(out, "(not ", denied),
        Term::Negative(negated) => push_operand(out, "(- ", negated),
        Term::Exists { name, over, test } => {
            push_binding(out, "(exists ", name, over)?;
            push_operand(out, " with ", test)
        }
        Term::Every { name, over, test } => {
            push_binding(out, "(forall ", name, over)?;
            push_operand(out, " holds ", test)
        }
        Term::Result(name) => push_name(out, name),
    }
}

/// The last operand, and the end of the term.
#[cycle(printed_terms)]
fn push_operand(out: &mut String, before: &str, operand: &Term) -> Pushed {
    out.push_str(before)?;
    push_term(out, operand)?;
    out.push(')')
}

fn push_binding(out: &mut String, before: &str, name: &Name, over: &Name) -> Pushed {
    out.push_str(before)?;
    push_name(out, name)?;
    out.push_str(" in ")?;
    push_name(out, over)
}

fn push_condition(out: &mut String, test: &Option<Term>) -> Pushed {
    match test {
        None => Ok(()),
        Some(test) => {
            out.push_str(" with ")?;
            push_term(out, test)
        }
    }
}

/// Where the result of a call goes, if it goes anywhere.
fn push_target(out: &mut String, target: &Option<Target>) -> Pushed {
    match target {
        None => Ok(()),
        Some(target) => {
            push_applied(out, &target.name, &target.arguments)?;
            out.push_str(" <- ")
        }
    }
}

#[cycle(printed_rules)]
fn push_rules(out: &mut String, before: &str, rules: &Vec<Rule>) -> Pushed {
    out.push_str(before)?;
    let mut is_first = true;
    for rule in rules {
        if !is_first {
            out.push_str("; ")?;
        }
        is_first = false;
        push_rule(out, rule)?;
    }
    out.push('}')
}

/// A branch that may be left out, and the end of the rule.
#[cycle(printed_rules)]
fn push_branch(out: &mut String, before: &str, branch: &Option<Box<Rule>>) -> Pushed {
    match branch {
        None => {}
        Some(rule) => {
            out.push_str(before)?;
            push_rule(out, rule)?;
        }
    }
    out.push('}')
}

/// What is done, and the end of the rule.
#[cycle(printed_rules)]
fn push_body(out: &mut String, before: &str, body: &Rule) -> Pushed {
    out.push_str(before)?;
    push_rule(out, body)?;
    out.push('}')
}

/// The parts of a rule with an end word are in braces.
#[cycle(printed_rules)]
fn push_rule(out: &mut String, rule: &Rule) -> Pushed {
    match rule {
        Rule::Skip => out.push_str("skip"),
        Rule::Assign {
            name,
            arguments,
            value,
        } => {
            push_applied(out, name, arguments)?;
            out.push_str(" := ")?;
            push_term(out, value)
        }
        Rule::SetResult { name, value } => {
            push_name(out, name)?;
            out.push_str(" := ")?;
            push_term(out, value)
        }
        Rule::Call {
            target,
            name,
            arguments,
        } => {
            push_target(out, target)?;
            push_applied(out, name, arguments)
        }
        Rule::Par(rules) => push_rules(out, "par{", rules),
        Rule::Seq(rules) => push_rules(out, "seq{", rules),
        Rule::Iterate(body) => push_body(out, "iterate{", body),
        _ => push_tested(out, rule),
    }
}

/// A rule with a condition in front.
#[cycle(printed_rules)]
fn push_tested(out: &mut String, rule: &Rule) -> Pushed {
    match rule {
        Rule::If { test, yes, no } => {
            out.push_str("if{")?;
            push_term(out, test)?;
            out.push_str(" then ")?;
            push_rule(out, yes)?;
            push_branch(out, " else ", no)
        }
        Rule::While { test, body } => {
            out.push_str("while{")?;
            push_term(out, test)?;
            push_body(out, " do ", body)
        }
        _ => push_binder(out, rule),
    }
}

/// A rule that binds a name.
#[cycle(printed_rules)]
fn push_binder(out: &mut String, rule: &Rule) -> Pushed {
    match rule {
        Rule::Let { name, value, body } => {
            out.push_str("let{")?;
            push_name(out, name)?;
            out.push_str(" = ")?;
            push_term(out, value)?;
            push_body(out, " in ", body)
        }
        Rule::Forall {
            name,
            over,
            test,
            body,
        } => {
            push_binding(out, "forall{", name, over)?;
            push_condition(out, test)?;
            push_body(out, " do ", body)
        }
        Rule::Choose {
            name,
            over,
            test,
            body,
            none,
        } => {
            push_binding(out, "choose{", name, over)?;
            push_condition(out, test)?;
            out.push_str(" do ")?;
            push_rule(out, body)?;
            push_branch(out, " ifnone ", none)
        }
        _ => Ok(()),
    }
}

fn push_const(out: &mut String, constant: &Const) -> Pushed {
    match constant {
        Const::Plain(literal) => push_literal(out, *literal),
        Const::Element(name) => push_name(out, name),
    }
}

/// An entry, with its offset in front.
fn push_entry(out: &mut String, entry: &Entry) -> Pushed {
    let at = entry.at;
    write!(out, " @{at}(")?;
    let mut is_first = true;
    for argument in &entry.arguments {
        if !is_first {
            out.push_str(", ")?;
        }
        is_first = false;
        push_const(out, argument)?;
    }
    out.push_str(") -> ")?;
    push_const(out, &entry.value)
}

fn push_table(out: &mut String, table: &Option<Given>) -> Pushed {
    match table {
        None => Ok(()),
        Some(Given::Each(value)) => {
            out.push_str(" initially each ")?;
            push_const(out, value)
        }
        Some(Given::Entries(entries)) => {
            out.push_str(" initially")?;
            for entry in entries {
                push_entry(out, entry)?;
            }
            Ok(())
        }
    }
}

fn push_type(out: &mut String, domain: &Vec<Name>, codomain: &Option<Name>) -> Pushed {
    out.push_str(" :")?;
    push_names(out, domain)?;
    match codomain {
        None => Ok(()),
        Some(name) => {
            out.push_str(" -> ")?;
            push_name(out, name)
        }
    }
}

/// A declared name with its parameters.
fn push_head(out: &mut String, word: &str, name: &Name, parameters: &Vec<Name>) -> Pushed {
    out.push_str(word)?;
    push_name(out, name)?;
    push_names(out, parameters)?;
    out.push_str(" = ")
}

fn push_item(out: &mut String, item: &Item) -> Pushed {
    match item {
        Item::Uses(name) => {
            out.push_str("use ")?;
            push_name(out, name)
        }
        Item::Init(name) => {
            out.push_str("init ")?;
            push_name(out, name)
        }
        Item::Enum { name, elements } => {
            out.push_str("enum ")?;
            push_name(out, name)?;
            out.push_str(" =")?;
            push_names(out, elements)
        }
        Item::Universe { name, first, last } => {
            out.push_str("universe ")?;
            push_name(out, name)?;
            let first = first.value;
            let last = last.value;
            write!(out, " = {first} .. {last}")
        }
        _ => push_declaration(out, item),
    }
}

/// A function, a derived function or a rule.
fn push_declaration(out: &mut String, item: &Item) -> Pushed {
    match item {
        Item::Function {
            name,
            kind,
            domain,
            codomain,
            table,
        } => {
            let kind = match kind {
                FunctionKind::Controlled => "controlled ",
                FunctionKind::Static => "static ",
            };
            out.push_str(kind)?;
            push_name(out, name)?;
            push_type(out, domain, codomain)?;
            push_table(out, table)
        }
        Item::Derived {
            name,
            parameters,
            body,
        } => {
            push_head(out, "derived ", name, parameters)?;
            push_term(out, body)
        }
        Item::Rule {
            name,
            parameters,
            body,
        } => {
            push_head(out, "rule ", name, parameters)?;
            push_rule(out, body)
        }
        _ => Ok(()),
    }
}

/// The specification: its name, its length and its items.
pub fn line(alloc: Global, spec: &Spec) -> Result<String, AllocError> {
    let mut out = String::new(alloc);
    push_name(&mut out, &spec.name)?;
    let length = spec.length;
    write!(out, " of {length}")?;
    for item in &spec.items {
        out.push_str(" | ")?;
        push_item(&mut out, item)?;
    }
    Ok(out)
}
