//! The conditions that are asked of runs, as terms.
ghost use Rattle.std.specs.Prelude.{◌≡◌, List, IfErr, IfOk};
ghost use Rattle.asm_state.specs.declared.operation.Op.{Op as Operation};
ghost use Rattle.asm_syntax.specs.declared.term.Term.{Term as Code};
ghost use Rattle.asm_syntax.specs.SourceTree.{Spec};
ghost use Rattle.asm_syntax.specs.code.Views.{spec_of};
ghost use Rattle.asm_explore_texts.specs.Conditions.{IsConditionError, text_of, texts_of};
ghost use Rattle.asm_explore_texts.specs.code.CodedConditions.{AreConditionsOf, IsConditionOf, IsJoined, MayBeConditionOf};
ghost use Rattle.asm_explore_texts.specs.RefusedTexts.{ExplainsText, IsConditionRefused, IsOneRefused, MayBeRefused};

use crate::condition::{ConditionError, condition_term};
use asm_check::Checked;
use asm_explore_words::fault::{Fault, RefusedText, Source};
use asm_state::operation::Op;
use asm_syntax::InputError;
use asm_syntax::term::{Literal, Term};
use std::alloc::{AllocError, Global};

/// The text of a condition, and where it came from.
#[derive(Debug, Drop)]
pub struct Condition<'w> {
    pub source: Source<'w>,
    pub text: Vec<u8>,
}

/// The conditions that are asked of runs.
#[derive(Debug, Drop)]
pub struct Conditions<'w> {
    /// Each of them is to be true in each state.
    pub always: Vec<Condition<'w>>,
    /// It is to be true in each quiet state.
    pub when_quiet: Option<Condition<'w>>,
    /// From states in which it isn't true no run is followed.
    pub within: Option<Condition<'w>>,
}

/// The fault of a condition that is refused.
fn refused<'w>(
    alloc: Global,
    condition: &Condition<'w>,
    error: ConditionError,
) -> Result<Fault<'w>, AllocError>
    ensures { (spec : Spec) → IsConditionError spec condition.now.text.items error →
        IfOk result (ExplainsText (IsConditionRefused spec condition.now)) }
{
    let text = Vec::from_slice(alloc, condition.text.as_slice())?;
    Ok(Fault::Text(RefusedText {
        source: condition.source,
        text,
        error: error.error,
        at: error.at,
    }))
}

/// A condition as a term over the names of the specification.
fn term_of<'w>(
    alloc: Global,
    checked: &Checked,
    condition: &Condition<'w>,
) -> Result<Term, Fault<'w>>
    ensures found { IfOk result (IsConditionOf (spec_of checked.now.spec) condition.now.text.items) }
    ensures refused { IfErr result (ExplainsText (IsConditionRefused (spec_of checked.now.spec) condition.now)) }
{
    match condition_term(alloc, checked, condition.text.as_slice()) {
        Ok(term) => Ok(term),
        Err(InputError::Memory) => Err(Fault::Memory),
        Err(InputError::Named(error)) => Err(refused(alloc, condition, error)?),
    }
}

/// A condition that may be left out, as a term.
pub fn optional_term<'w>(
    alloc: Global,
    checked: &Checked,
    condition: &Option<Condition<'w>>,
) -> Result<Option<Term>, Fault<'w>>
    ensures found { IfOk result (MayBeConditionOf (spec_of checked.now.spec) (text_of condition.now)) }
    ensures refused { IfErr result (ExplainsText (MayBeRefused (spec_of checked.now.spec) condition.now)) }
{
    match condition {
        Some(condition) => Ok(Some(term_of(alloc, checked, condition)?)),
        None => Ok(None),
    }
}

/// Each of the conditions as a term, after the `and` that joins it to those before.
pub fn links<'w>(
    alloc: Global,
    checked: &Checked,
    conditions: &[Condition<'w>],
) -> Result<Vec<(Op, Term)>, Fault<'w>>
    ensures found { IfOk result (λ links. AreConditionsOf (spec_of checked.now.spec) (texts_of conditions.now) links.items) }
    ensures refused { IfErr result (ExplainsText (IsOneRefused (spec_of checked.now.spec) conditions.now)) }
{
    let mut links = Vec::new(alloc);
    for k in 0..conditions.len() {
        let term = term_of(alloc, checked, &conditions[k])?;
        links.push((Op::And, term))?;
    }
    Ok(links)
}

/// The term that is true just when each of these is, if there are any.
pub fn joined(alloc: Global, links: Vec<(Op, Term)>) -> Result<Option<Term>, AllocError>
    ensures { IfOk result (IsJoined links.items) }
{
    if links.is_empty() {
        return Ok(None);
    }
    let first = Box::new(alloc, Term::Constant(Literal::Truth(true)))?;
    Ok(Some(Term::Chain { first, rest: links }))
}

/// The terms that `joined` has joined.
pub fn parts(always: &Option<Term>) -> &[(Op, Term)]
    ensures { (links : List (Operation × Code)) → IsJoined links always.now → result.now ≡ links }
{
    match always {
        Some(Term::Chain { rest, .. }) => rest.as_slice(),
        _ => &[],
    }
}
