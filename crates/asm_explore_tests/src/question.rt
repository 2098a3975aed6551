//! Questions about texts.
use crate::told::{Told, told_by};
use asm_check::Checked;
use asm_explore::explore_all::explore_all;
use asm_explore::{ExplorationResult, Question, Unwatched};
use asm_reader::read;
use asm_syntax::spec::Item;
use asm_syntax::term::Term;
use asm_tests::checked_text::{Unchecked, checked_of};
use std::alloc::{AllocError, Global};
use std::test::Fail;

/// A question, with its conditions as texts; an empty one is none.
#[derive(Clone, Copy)]
pub struct Asked {
    pub always: &'static str,
    pub within: &'static str,
    pub when_quiet: &'static str,
    pub turns: u32,
    pub steps: u32,
    pub states: u32,
    pub outcomes: usize,
}

/// Whether any run of any number of steps goes wrong.
pub const ANY: Asked = Asked {
    always: "",
    within: "",
    when_quiet: "",
    turns: 1000,
    steps: 1_000_000,
    states: 1_000_000,
    outcomes: 10_000,
};

/// Two texts as one.
pub fn joined(alloc: Global, front: &str, rest: &str) -> Result<String, AllocError> {
    let mut text = String::from_str(alloc, front)?;
    text.push_str(rest)?;
    Ok(text)
}

/// What is before a term that is read.
const BEFORE_TERM: &str = "CoreASM T init M rule M = skip derived condition = ";

/// The body of a derived function.
fn body_of(item: Item) -> Result<Term, Unchecked> {
    match item {
        Item::Derived { body, .. } => Ok(body),
        other => {
            drop(other);
            Err(Unchecked)
        }
    }
}

/// The body of the function that a text declares last.
fn last_body(alloc: Global, text: &str) -> Result<Term, Unchecked> {
    let Ok(mut spec) = read(alloc, text.as_bytes()) else {
        return Err(Unchecked);
    };
    let last = spec.items.pop();
    drop(spec);
    body_of(last.ok_or(Unchecked)?)
}

/// The condition with this text.
fn condition_of(alloc: Global, text: &str) -> Result<Option<Term>, Unchecked> {
    if text.is_empty() {
        return Ok(None);
    }
    let Ok(text) = joined(alloc, BEFORE_TERM, text) else {
        return Err(Unchecked);
    };
    let term = last_body(alloc, text.as_str())?;
    Ok(Some(term))
}

/// The question that is asked so, with these two conditions.
fn question_with(
    alloc: Global,
    asked: &Asked,
    always: Option<Term>,
    within: Option<Term>,
) -> Result<Question, Unchecked> {
    match condition_of(alloc, asked.when_quiet) {
        Ok(when_quiet) => Ok(Question {
            always,
            within,
            when_quiet,
            turns: asked.turns,
            steps: asked.steps,
            states: asked.states,
            outcomes: asked.outcomes,
        }),
        Err(refused) => {
            drop(always);
            drop(within);
            Err(refused)
        }
    }
}

/// The question that is asked so.
pub fn question_of(alloc: Global, asked: &Asked) -> Result<Question, Unchecked> {
    let always = condition_of(alloc, asked.always)?;
    match condition_of(alloc, asked.within) {
        Ok(within) => question_with(alloc, asked, always, within),
        Err(refused) => {
            drop(always);
            Err(refused)
        }
    }
}

/// The result of a question about a specification.
fn answer_of(alloc: Global, checked: &Checked, asked: &Asked) -> Result<ExplorationResult, Fail> {
    let question = question_of(alloc, asked)?;
    let answered = explore_all(alloc, checked, &question, &mut Unwatched);
    drop(question);
    Ok(answered?)
}

/// The result of a question about a text.
pub fn answer_to(alloc: Global, text: &str, asked: &Asked) -> Result<ExplorationResult, Fail> {
    let checked = checked_of(alloc, text.as_bytes())?;
    let answered = answer_of(alloc, &checked, asked);
    drop(checked);
    answered
}

/// What is told of a text.
pub fn told_of(alloc: Global, text: &str, asked: &Asked) -> Result<Told, Fail> {
    let answered = answer_to(alloc, text, asked)?;
    let told = told_by(&answered);
    drop(answered);
    Ok(told)
}

/// A text, what is asked about it, and what is told.
pub type Case = (&'static str, Asked, Told);

/// The number of the first row of which something else is told, and that.
pub fn first_other(alloc: Global, rows: &'static [Case]) -> Result<Option<(usize, Told)>, Fail> {
    for (i, (text, asked, expected)) in rows.iter().enumerate() {
        let told = told_of(alloc, text, asked)?;
        if told != *expected {
            return Ok(Some((i, told)));
        }
    }
    Ok(None)
}
