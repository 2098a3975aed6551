//! How a term is printed.
ghost use Rattle.std.specs.Prelude.{◌≡◌, ◌≤◌, ◌++◌, [], codes, map, OnOk};
ghost use Rattle.asm_syntax.specs.PlainTree.{literal_value};
ghost use Rattle.asm_syntax.specs.SourceTree.{terms_of};
ghost use Rattle.asm_syntax.specs.code.Views.{term_of};
ghost use Rattle.asm_run.specs.Trace.{value_text};
ghost use Rattle.asm_explore_because.specs.PrintedTerms as printed;
ghost use Rattle.asm_explore_because.specs.code.CodedTerms.{links_in};

use asm_check::Checked;
use asm_run::locations::push_value;
use asm_state::operation::Op;
use asm_syntax::name::Name;
use asm_syntax::term::{Literal, Term};
use std::alloc::AllocError;

/// An operation that stands between two terms.
fn operation_text(operation: Op) -> &'static [u8]
    ensures { result.now ≡ printed.operation_text operation }
{
    match operation {
        Op::Add => b"+",
        Op::Subtract => b"-",
        Op::Multiply => b"*",
        Op::Divide => b"div",
        Op::Remainder => b"mod",
        Op::Negate => b"-",
        Op::Less => b"<",
        Op::AtMost => b"<=",
        Op::Greater => b">",
        Op::AtLeast => b">=",
        Op::Equal => b"=",
        Op::Different => b"!=",
        Op::And => b"and",
        Op::Or => b"or",
        Op::Not => b"not",
    }
}

/// How tightly an operation holds its operands together.
fn strength_of(operation: Op) -> u8
    ensures strength { result ≡ printed.strength_of operation }
    ensures low { result ≤ 6 }
{
    match operation {
        Op::Or => 0,
        Op::And => 1,
        Op::Not => 2,
        Op::Less | Op::AtMost | Op::Greater | Op::AtLeast | Op::Equal | Op::Different => 3,
        Op::Add | Op::Subtract => 4,
        Op::Multiply | Op::Divide | Op::Remainder => 5,
        Op::Negate => 6,
    }
}

/// How tightly a chain with these links holds together.
fn chain_strength(rest: &[(Op, Term)]) -> u8
    ensures strength { result ≡ printed.chain_strength (links_in rest.now) }
    ensures low { result ≤ 7 }
{
    match rest {
        [] => 7,
        [(operation, _), ..] => strength_of(*operation),
    }
}

/// How tightly a term holds together.
fn strength(term: &Term) -> u8
    ensures { result ≡ printed.strength (term_of term.now) }
{
    match term {
        Term::Chain { rest, .. } => chain_strength(rest.as_slice()),
        Term::Not(_) => 2,
        Term::Negative(_) => 6,
        Term::Constant(_) => 7,
        Term::Named { .. } => 7,
        Term::Exists { .. } => 7,
        Term::Every { .. } => 7,
        Term::Result(_) => 7,
    }
}

/// Adds a constant.
fn push_literal(line: &mut Vec<u8>, checked: &Checked, literal: Literal) -> Result<(), AllocError>
    ensures { OnOk result (line.new.items ≡ line.old.items ++ value_text [] (literal_value literal)) }
{
    push_value(line, checked, literal.value())
}

/// Adds a term, with no parentheses but those that it needs.
#[cycle(push_term)]
pub(crate) fn push_term(
    line: &mut Vec<u8>,
    checked: &Checked,
    term: &Term,
) -> Result<(), AllocError>
    ensures { OnOk result (line.new.items ≡ line.old.items ++ printed.term_text (term_of term.now)) }
{
    match term {
        Term::Constant(literal) => push_literal(line, checked, *literal),
        Term::Named { name, arguments } => {
            line.extend_from_slice(name.text.as_bytes())?;
            push_terms(line, checked, arguments.as_slice())
        }
        Term::Chain { first, rest } => {
            let asked = chain_strength(rest.as_slice()) + 1;
            push_operand(line, checked, asked, first)?;
            push_links(line, checked, asked, rest.as_slice())
        }
        Term::Not(inner) => {
            line.extend_from_slice(b"not ")?;
            push_operand(line, checked, 3, inner)
        }
        Term::Negative(inner) => {
            line.extend_from_slice(b"-")?;
            push_operand(line, checked, 7, inner)
        }
        Term::Exists { name, over, test } => {
            push_binding(line, b"(exists ", name, over, b" with ")?;
            push_last(line, checked, test)
        }
        Term::Every { name, over, test } => {
            push_binding(line, b"(forall ", name, over, b" holds ")?;
            push_last(line, checked, test)
        }
        Term::Result(name) => line.extend_from_slice(name.text.as_bytes()),
    }
}

/// Adds a word, a name and the universe to whose elements it is bound, and another word.
fn push_binding(
    line: &mut Vec<u8>,
    word: &[u8],
    name: &Name,
    over: &Name,
    between: &[u8],
) -> Result<(), AllocError>
    ensures { OnOk result (line.new.items ≡ line.old.items ++ (word.now ++ (name.now.text ++ (codes " in " ++ (over.now.text ++ between.now))))) }
{
    line.extend_from_slice(word)?;
    line.extend_from_slice(name.text.as_bytes())?;
    line.extend_from_slice(b" in ")?;
    line.extend_from_slice(over.text.as_bytes())?;
    line.extend_from_slice(between)?;
    Ok(())
}

/// Adds a term, and the parenthesis behind it.
#[cycle(push_term)]
fn push_last(line: &mut Vec<u8>, checked: &Checked, term: &Term) -> Result<(), AllocError>
    ensures { OnOk result (line.new.items ≡ line.old.items ++ (printed.term_text (term_of term.now) ++ codes ")")) }
{
    push_term(line, checked, term)?;
    line.extend_from_slice(b")")?;
    Ok(())
}

/// Adds a term, in parentheses if it holds together less than that.
#[cycle(push_term)]
fn push_operand(
    line: &mut Vec<u8>,
    checked: &Checked,
    asked: u8,
    term: &Term,
) -> Result<(), AllocError>
    ensures { OnOk result (line.new.items ≡ line.old.items ++ printed.operand asked (printed.strength (term_of term.now)) (printed.term_text (term_of term.now))) }
{
    if strength(term) < asked {
        line.extend_from_slice(b"(")?;
        return push_last(line, checked, term);
    }
    push_term(line, checked, term)
}

/// Adds an operation, with blanks around it.
fn push_operation(line: &mut Vec<u8>, operation: Op) -> Result<(), AllocError>
    ensures { OnOk result (line.new.items ≡ line.old.items ++ (codes " " ++ (printed.operation_text operation ++ codes " "))) }
{
    line.extend_from_slice(b" ")?;
    line.extend_from_slice(operation_text(operation))?;
    line.extend_from_slice(b" ")?;
    Ok(())
}

/// Adds the links of a chain.
#[cycle(push_term)]
fn push_links(
    line: &mut Vec<u8>,
    checked: &Checked,
    asked: u8,
    rest: &[(Op, Term)],
) -> Result<(), AllocError>
    ensures { OnOk result (line.new.items ≡ line.old.items ++ printed.links_text asked (links_in rest.now)) }
{
    for (operation, term) in rest {
        push_operation(line, *operation)?;
        push_operand(line, checked, asked, term)?;
    }
    Ok(())
}

/// Adds terms in parentheses, if there are any.
#[cycle(push_term)]
fn push_terms(line: &mut Vec<u8>, checked: &Checked, terms: &[Term]) -> Result<(), AllocError>
    ensures { OnOk result (line.new.items ≡ line.old.items ++ printed.terms_text (terms_of (map term_of terms.now))) }
{
    if terms.is_empty() {
        return Ok(());
    }
    line.extend_from_slice(b"(")?;
    push_term(line, checked, &terms[0])?;
    for i in 1..terms.len() {
        line.extend_from_slice(b", ")?;
        push_term(line, checked, &terms[i])?;
    }
    line.extend_from_slice(b")")?;
    Ok(())
}
