//! What is asked of all runs of a specification, from the texts.
ghost use Rattle.std.specs.Prelude.{ℕ, List, IfErr, IfOk};
ghost use Rattle.asm_syntax.specs.code.Views.{spec_of};
ghost use Rattle.asm_run.specs.Headline.{IsAccepted};
ghost use Rattle.asm_explore_all.specs.code.CodedQuestions.{IsAskedBy};
ghost use Rattle.asm_explore_report.specs.Refusals.{IsQuestionRefused};
ghost use Rattle.asm_explore_texts.specs.Conditions.{text_of};
ghost use Rattle.asm_explore_texts.specs.code.CodedConditions.{MayBeConditionOf};
ghost use Rattle.asm_explore_texts.specs.RefusedTexts.{ExplainsText, IsAnyRefused, IsOtherRefused};

use asm_check::Checked;
use asm_explore::Question;
use asm_explore_report::checked_text::{all_asked, checked};
use asm_explore_texts::conditions::{Conditions, optional_term};
use asm_explore_words::fault::Fault;
use asm_explore_words::settings::Settings;
use asm_syntax::term::Term;
use std::alloc::Global;

/// A specification, and what is looked for in it.
#[derive(Drop)]
pub struct CheckedQuestion {
    pub checked: Checked,
    pub question: Question,
}

/// What the settings ask of the specification with this text, by these conditions.
pub fn ask<'w>(
    alloc: Global,
    text: &[u8],
    conditions: &Conditions<'w>,
    settings: &Settings<'w>,
) -> Result<CheckedQuestion, Fault<'w>>
    ensures found { IfOk result (IsAskedBy text.now conditions.now settings.now) }
    ensures refused { IfErr result (ExplainsText (IsQuestionRefused text.now settings.now.spec.now conditions.now)) }
{
    let checked = checked(alloc, text, settings.spec)?;
    match question_of(alloc, &checked, conditions, settings) {
        Ok(question) => Ok(CheckedQuestion { checked, question }),
        Err(fault) => {
            drop(checked);
            Err(fault)
        }
    }
}

/// What the settings ask of a specification by these conditions.
fn question_of<'w>(
    alloc: Global,
    checked: &Checked,
    conditions: &Conditions<'w>,
    settings: &Settings<'w>,
) -> Result<Question, Fault<'w>>
    ensures found { IfOk result (λ question. (text : List ℕ) → IsAccepted text (spec_of checked.now.spec)
        → IsAskedBy text conditions.now settings.now (record { checked = checked.now; question = question })) }
    ensures refused { IfErr result (ExplainsText (IsAnyRefused (spec_of checked.now.spec) conditions.now)) }
{
    let always = all_asked(alloc, checked, conditions.always.as_slice())?;
    match other_terms(alloc, checked, conditions) {
        Ok(terms) => Ok(Question {
            always,
            within: terms.within,
            when_quiet: terms.when_quiet,
            turns: settings.turns,
            steps: settings.steps,
            states: settings.states,
            outcomes: settings.outcomes as usize,
        }),
        Err(fault) => {
            drop(always);
            Err(fault)
        }
    }
}

/// The terms of the conditions that aren't to be true in each state.
#[derive(Drop)]
struct OtherTerms {
    within: Option<Term>,
    when_quiet: Option<Term>,
}

/// The terms of the conditions that aren't to be true in each state, over the specification.
fn other_terms<'w>(
    alloc: Global,
    checked: &Checked,
    conditions: &Conditions<'w>,
) -> Result<OtherTerms, Fault<'w>>
    ensures within { IfOk result (λ terms. MayBeConditionOf (spec_of checked.now.spec) (text_of conditions.now.within) terms.within) }
    ensures when_quiet { IfOk result (λ terms. MayBeConditionOf (spec_of checked.now.spec) (text_of conditions.now.when_quiet) terms.when_quiet) }
    ensures refused { IfErr result (ExplainsText (IsOtherRefused (spec_of checked.now.spec) conditions.now)) }
{
    let within = optional_term(alloc, checked, &conditions.within)?;
    match optional_term(alloc, checked, &conditions.when_quiet) {
        Ok(when_quiet) => Ok(OtherTerms { within, when_quiet }),
        Err(fault) => {
            drop(within);
            Err(fault)
        }
    }
}
