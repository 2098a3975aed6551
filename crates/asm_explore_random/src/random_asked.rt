//! What is asked of random runs of a specification, from the texts.
ghost use Rattle.std.specs.Prelude.{◌≡◌, ℕ, List, IfErr, IfOk};
ghost use Rattle.asm_syntax.specs.code.Views.{spec_of};
ghost use Rattle.asm_run.specs.Headline.{IsAccepted};
ghost use Rattle.asm_explore_report.specs.Refusals.{IsQuestionRefused};
ghost use Rattle.asm_explore_texts.specs.RefusedTexts.{ExplainsText, IsAnyRefused};
ghost use Rattle.asm_explore_random.specs.code.CodedRuns.{IsAskedBy};

use asm_check::Checked;
use asm_explore_report::checked_text::{all_asked, checked};
use asm_explore_texts::conditions::{Conditions, optional_term};
use asm_explore_words::fault::Fault;
use asm_explore_words::settings::RandomSettings;
use asm_random::RandomQuestion;
use std::alloc::Global;

/// A specification, and what is looked for in random runs of it.
#[derive(Drop)]
pub struct CheckedRandomQuestion {
    pub checked: Checked,
    pub question: RandomQuestion,
}

/// What the settings ask of the specification with this text, by these conditions.
pub fn ask_random<'w>(
    alloc: Global,
    text: &[u8],
    conditions: &Conditions<'w>,
    settings: &RandomSettings<'w>,
) -> Result<CheckedRandomQuestion, Fault<'w>>
    ensures found { IfOk result (IsAskedBy text.now conditions.now settings.now) }
    ensures refused { IfErr result (ExplainsText (IsQuestionRefused text.now settings.now.spec.now conditions.now)) }
{
    let checked = checked(alloc, text, settings.spec)?;
    match question_of(alloc, &checked, conditions, settings) {
        Ok(question) => Ok(CheckedRandomQuestion { checked, question }),
        Err(fault) => {
            drop(checked);
            Err(fault)
        }
    }
}

/// This many turns exhaust an `iterate` or a `while`.
fn turns_of(settings: &RandomSettings<'_>) -> u32
    ensures { result ≡ settings.now.turns }
{
    settings.turns
}

/// What the settings ask of a specification by these conditions.
fn question_of<'w>(
    alloc: Global,
    checked: &Checked,
    conditions: &Conditions<'w>,
    settings: &RandomSettings<'w>,
) -> Result<RandomQuestion, Fault<'w>>
    ensures found { IfOk result (λ question. (text : List ℕ) → IsAccepted text (spec_of checked.now.spec)
        → IsAskedBy text conditions.now settings.now (record { checked = checked.now; question = question })) }
    ensures refused { IfErr result (ExplainsText (IsAnyRefused (spec_of checked.now.spec) conditions.now)) }
{
    let turns = turns_of(settings);
    let always = all_asked(alloc, checked, conditions.always.as_slice())?;
    match optional_term(alloc, checked, &conditions.when_quiet) {
        Ok(when_quiet) => Ok(RandomQuestion {
            always,
            when_quiet,
            turns,
            steps: settings.steps,
            runs: settings.runs,
            seed: settings.seed,
            outcomes: settings.outcomes as usize,
        }),
        Err(fault) => {
            drop(always);
            Err(fault)
        }
    }
}
