//! What a term reads.
ghost use Rattle.std.specs.Prelude.{◌≡◌, ◌++◌, codes, option_to_list, IfOk, OnOk};
ghost use Rattle.std.specs.List.{list_any};
ghost use Rattle.std.specs.Str.{bytes_eq};
ghost use Rattle.asm_syntax.specs.code.Views.{spec_of, term_of};
ghost use Rattle.asm_check.specs.Numbers.{named};
ghost use Rattle.asm_resolve.specs.code.Scopes.{AreResolvedBodies};
ghost use Rattle.asm_run.specs.Trace.{value_text};
ghost use Rattle.asm_run.specs.Written.{names_in};
ghost use Rattle.asm_explore_because.specs.Because as because;
ghost use Rattle.asm_explore_because.specs.PrintedTerms.{arguments_text, other_arguments};
ghost use Rattle.asm_explore_because.specs.code.CodedParts.{bound_of, spec_in, state_in, terms_at, text_of_some, texts_of};
ghost use Rattle.asm_explore_because.specs.code.CodedTerms.{links_in};

use crate::bound_name::BoundName;
use crate::next::is_bound;
use crate::scene::Scene;
use crate::value_under::{value_under, values_under};
use asm_check::{Checked, NameNumber};
use asm_resolve::bodies::Bodies;
use asm_run::locations::push_value;
use asm_state::operation::Op;
use asm_state::word::Word;
use asm_syntax::name::Name;
use asm_syntax::term::Term;
use std::alloc::{AllocError, Global};

/// Adds the names with arguments in a term, in the order of the text, without those in arguments
/// and in `exists` and `forall`.
#[cycle(push_calls)]
fn push_calls<'e>(calls: &mut Vec<&'e Term>, term: &'e Term) -> Result<(), AllocError>
    ensures { OnOk result (terms_at calls.new.items ≡ terms_at calls.old.items ++ because.calls (term_of term.now)) }
{
    match term {
        Term::Named { .. } => {
            calls.push(term)?;
            Ok(())
        }
        Term::Chain { first, rest } => {
            push_calls(calls, first)?;
            push_calls_in(calls, rest.as_slice())
        }
        Term::Not(inner) => push_calls(calls, inner),
        Term::Negative(inner) => push_calls(calls, inner),
        Term::Constant(_) | Term::Exists { .. } | Term::Every { .. } | Term::Result(_) => Ok(()),
    }
}

/// Adds those in the links of a chain.
#[cycle(push_calls)]
fn push_calls_in<'e>(calls: &mut Vec<&'e Term>, rest: &'e [(Op, Term)]) -> Result<(), AllocError>
    ensures { OnOk result (terms_at calls.new.items ≡ terms_at calls.old.items ++ because.calls_in (links_in rest.now)) }
{
    for (_, term) in rest {
        push_calls(calls, term)?;
    }
    Ok(())
}

/// Whether a name stands for what is read.
fn is_read(checked: &Checked, name: &Name) -> bool
    ensures { result ≡ because.is_read (named (spec_of checked.now.spec) name.now.text) }
{
    match checked.named_text(&name.text) {
        Some(NameNumber::Function(_)) => true,
        Some(NameNumber::Derived(_)) => true,
        Some(NameNumber::Universe(_)) => false,
        Some(NameNumber::Element(_)) => false,
        Some(NameNumber::Rule(_)) => false,
        None => false,
    }
}

/// Adds the values of arguments in parentheses, if there are any.
fn push_arguments(line: &mut Vec<u8>, checked: &Checked, values: &[Word]) -> Result<(), AllocError>
    ensures { let names = names_in (spec_of checked.now.spec) in
        OnOk result (line.new.items ≡ line.old.items ++ arguments_text names.elements values.now) }
{
    match values {
        [] => Ok(()),
        [first, others @ ..] => {
            line.extend_from_slice(b"(")?;
            push_value(line, checked, *first)?;
            push_others(line, checked, others)?;
            line.extend_from_slice(b")")?;
            Ok(())
        }
    }
}

/// Adds values, each after a comma.
fn push_others(line: &mut Vec<u8>, checked: &Checked, values: &[Word]) -> Result<(), AllocError>
    ensures { let names = names_in (spec_of checked.now.spec) in
        OnOk result (line.new.items ≡ line.old.items ++ other_arguments names.elements values.now) }
{
    for value in values {
        line.extend_from_slice(b", ")?;
        push_value(line, checked, *value)?;
    }
    Ok(())
}

/// What is said of a name with arguments, if it is read.
fn read_text(
    alloc: Global,
    scene: &Scene<'_>,
    known: &mut Bodies,
    bound: &[BoundName<'_>],
    call: &Term,
) -> Result<Option<Vec<u8>>, AllocError>
    requires known { AreResolvedBodies (spec_in scene.now) known.old.terms.items }
    ensures text { IfOk result (λ it. text_of_some it ≡ because.read_text (spec_in scene.now) (state_in scene.now) (bound_of bound.now) (term_of call.now)) }
    ensures known { OnOk result (AreResolvedBodies (spec_in scene.now) known.new.terms.items) }
{
    match call {
        Term::Named { name, arguments } => {
            if is_bound(bound, name) || !is_read(scene.checked, name) {
                return Ok(None);
            }
            let value = value_under(alloc, scene, known, bound, call)?;
            let values = values_under(alloc, scene, known, bound, arguments.as_slice())?;
            let text = call_text(alloc, scene.checked, name, values.as_slice(), value)?;
            Ok(Some(text))
        }
        Term::Constant(_)
        | Term::Chain { .. }
        | Term::Not(_)
        | Term::Negative(_)
        | Term::Exists { .. }
        | Term::Every { .. }
        | Term::Result(_) => Ok(None),
    }
}

/// A name with the values of its arguments, and its value.
fn call_text(
    alloc: Global,
    checked: &Checked,
    name: &Name,
    values: &[Word],
    value: Word,
) -> Result<Vec<u8>, AllocError>
    ensures { let names = names_in (spec_of checked.now.spec) in
        IfOk result (λ text. text.items ≡ name.now.text ++ (arguments_text names.elements values.now ++ (codes " = " ++ value_text names.elements value))) }
{
    let mut text = Vec::from_slice(alloc, name.text.as_bytes())?;
    push_arguments(&mut text, checked, values)?;
    text.extend_from_slice(b" = ")?;
    push_value(&mut text, checked, value)?;
    Ok(text)
}

/// Whether a text is one of these.
fn is_among(texts: &[Vec<u8>], text: &[u8]) -> bool
    ensures { result ≡ list_any (λ other. bytes_eq other.items text.now) texts.now }
{
    texts.iter().any(|other| other.as_slice() == text)
}

/// Adds a text, if there is one and it isn't among these.
fn push_new(texts: &mut Vec<Vec<u8>>, text: Option<Vec<u8>>) -> Result<(), AllocError>
    ensures { OnOk result (texts_of texts.new.items ≡ texts_of texts.old.items ++ because.each_once (texts_of texts.old.items) (option_to_list (text_of_some text))) }
{
    let Some(text) = text else {
        return Ok(());
    };
    if is_among(texts.as_slice(), text.as_slice()) {
        return Ok(());
    }
    texts.push(text)?;
    Ok(())
}

/// What is said of what a term reads, each thing once.
pub(crate) fn read_texts(
    alloc: Global,
    scene: &Scene<'_>,
    known: &mut Bodies,
    bound: &[BoundName<'_>],
    term: &Term,
) -> Result<Vec<Vec<u8>>, AllocError>
    requires known { AreResolvedBodies (spec_in scene.now) known.old.terms.items }
    ensures texts { IfOk result (λ texts. texts_of texts.items ≡ because.read_texts (spec_in scene.now) (state_in scene.now) (bound_of bound.now) (term_of term.now)) }
    ensures known { OnOk result (AreResolvedBodies (spec_in scene.now) known.new.terms.items) }
{
    let mut calls = Vec::new(alloc);
    push_calls(&mut calls, term)?;
    let mut texts = Vec::new(alloc);
    for i in 0..calls.len() {
        let text = read_text(alloc, scene, known, bound, calls[i])?;
        push_new(&mut texts, text)?;
    }
    Ok(texts)
}
