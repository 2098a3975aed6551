//! A specification from its text, and the conditions that are asked of it.
ghost use Rattle.std.specs.Prelude.{IfErr, IfOk};
ghost use Rattle.asm_syntax.specs.code.Views.{spec_of};
ghost use Rattle.asm_run.specs.Headline.{IsAccepted};
ghost use Rattle.asm_explore_report.specs.code.JoinedConditions.{AreAllJoined};
ghost use Rattle.asm_explore_report.specs.Refusals.{IsSpecificationError, IsSpecificationRefused};
ghost use Rattle.asm_explore_texts.specs.Conditions.{texts_of};
ghost use Rattle.asm_explore_texts.specs.RefusedTexts.{ExplainsText, IsOneRefused};

use crate::laws::joined_law;
use asm_check::{Checked, check};
use asm_explore_texts::conditions::{Condition, joined, links};
use asm_explore_words::fault::{Fault, RefusedText, Source, TextError};
use asm_reader::read;
use asm_syntax::InputError;
use asm_syntax::term::Term;
use std::alloc::{AllocError, Global};

/// The fault of a specification's text that is refused.
fn refused<'w>(
    alloc: Global,
    text: &[u8],
    name: &'w str,
    error: TextError,
    at: Option<usize>,
) -> Result<Fault<'w>, AllocError>
    ensures { IsSpecificationError text.now error at →
        IfOk result (ExplainsText (IsSpecificationRefused text.now name.now)) }
{
    let text = Vec::from_slice(alloc, text)?;
    Ok(Fault::Text(RefusedText {
        source: Source::Specification(name),
        text,
        error,
        at,
    }))
}

/// The specification with this text.
pub fn checked<'w>(alloc: Global, text: &[u8], name: &'w str) -> Result<Checked, Fault<'w>>
    ensures found { IfOk result (λ checked. IsAccepted text.now (spec_of checked.spec)) }
    ensures refused { IfErr result (ExplainsText (IsSpecificationRefused text.now name.now)) }
{
    let tree = match read(alloc, text) {
        Ok(tree) => tree,
        Err(InputError::Memory) => return Err(Fault::Memory),
        Err(InputError::Named(error)) => {
            let at = error.at();
            return Err(refused(alloc, text, name, TextError::Read(error), at)?);
        }
    };
    match check(alloc, tree) {
        Ok(checked) => Ok(checked),
        Err(InputError::Memory) => Err(Fault::Memory),
        Err(InputError::Named(error)) => {
            let at = Some(error.at);
            Err(refused(alloc, text, name, TextError::Check(error), at)?)
        }
    }
}

/// The term that is true just when each of the conditions is, over the specification.
pub fn all_asked<'w>(
    alloc: Global,
    checked: &Checked,
    conditions: &[Condition<'w>],
) -> Result<Option<Term>, Fault<'w>>
    ensures found { IfOk result (AreAllJoined (texts_of conditions.now) checked.now) }
    ensures refused { IfErr result (ExplainsText (IsOneRefused (spec_of checked.now.spec) conditions.now)) }
{
    joined_law(checked);
    let links = links(alloc, checked, conditions)?;
    let term = joined(alloc, links)?;
    Ok(term)
}
