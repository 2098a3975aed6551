//! The script of a run that is drawn, from the texts.
ghost use Rattle.std.specs.Prelude.{◌≡◌, ◌≢◌, ℕ, List, [], IfErr, IfOk};
ghost use Rattle.asm_syntax.specs.code.Views.{spec_of, test_of};
ghost use Rattle.asm_meaning.specs.Declarations.{specification_of};
ghost use Rattle.asm_explore.specs.code.ResolvedConditions.{term_holds};
ghost use Rattle.asm_random.specs.DrawnTexts.{IsDrawnText};
ghost use Rattle.asm_run.specs.Headline.{IsAccepted};
ghost use Rattle.asm_explore_random.specs.DrawnScripts.{ExplainsUndrawn, IsScriptDrawn, IsUnwrittenDraw};
ghost use Rattle.asm_explore_random.specs.declared.drawn_script.Undrawn.TheVariants.{Memory, Unwritten};
ghost use Rattle.asm_explore_words.specs.declared.fault.Fault.TheVariants as cause;

use asm_check::Checked;
use asm_explore_report::checked_text::{all_asked, checked};
use asm_explore_report::laws::all_asked_law;
use asm_explore_texts::conditions::Condition;
use asm_explore_words::fault::Fault;
use asm_explore_words::settings::RunSettings;
use asm_random::{DrawQuestion, drawn_text};
use std::alloc::{AllocError, AllocFailed, Global};

/// Why there is no script of a run that is to be drawn.
#[derive(Clone, Copy, Debug, PartialEq, Eq)]
pub enum Undrawn {
    /// Memory ran out.
    Memory,
    /// It can't be written, or no round settles which choices a step makes.
    Unwritten,
}

impl From<AllocError> for Undrawn {
    ghost from_gives = { λ _ why. why ≡ Memory };

    fn from(_error: AllocError) -> Undrawn {
        Undrawn::Memory
    }
}

impl<T: Drop> From<AllocFailed<T>> for Undrawn {
    ghost from_gives = { λ _ why. why ≡ Memory };

    fn from(_error: AllocFailed<T>) -> Undrawn {
        Undrawn::Memory
    }
}

/// This many turns exhaust an `iterate` or a `while`.
fn turns_of(settings: &RunSettings<'_>) -> u32
    ensures { result ≡ settings.now.turns }
{
    settings.turns
}

/// A script without a line, unless memory ran out: a text is refused.
fn no_script<'w>(alloc: Global, fault: Fault<'w>) -> Result<Vec<u8>, Undrawn>
    ensures empty { IfOk result (λ script. (script.items ≡ []) × (fault.entry ≢ cause.Memory)) }
    ensures memory { IfErr result (λ why. why ≡ Memory) }
{
    match fault {
        Fault::Memory => Err(Undrawn::Memory),
        Fault::Text(_) | Fault::Unconfirmed => Ok(Vec::new(alloc)),
        Fault::Graph(_) | Fault::QuietScript(_) | Fault::Name(_) => Ok(Vec::new(alloc)),
    }
}

/// The bytes of the text that is drawn.
fn bytes_of(alloc: Global, checked: &Checked, question: &DrawQuestion) -> Result<Vec<u8>, Undrawn>
    ensures drawn { let q = question.now in
        IfOk result (λ script. IsDrawnText (specification_of (spec_of checked.now.spec)) q.turns (term_holds checked.now q.always) q.seed q.steps script.items) }
    ensures undrawn { let q = question.now in
        IfErr result (λ why. why ≡ Unwritten → IsUnwrittenDraw (spec_of checked.now.spec) (test_of q.always) q.turns q.seed q.steps) }
{
    match drawn_text(alloc, checked, question)? {
        Some(text) => Ok(text.into_bytes()),
        None => Err(Undrawn::Unwritten),
    }
}

/// The script of the run of a specification that is drawn, up to a state in which one of these
/// conditions isn't true.
fn script_of<'w>(
    alloc: Global,
    checked: &Checked,
    conditions: &[Condition<'w>],
    settings: &RunSettings<'w>,
    seed: u64,
) -> Result<Vec<u8>, Undrawn>
    ensures drawn { (text : List ℕ) → IsAccepted text (spec_of checked.now.spec) →
        IfOk result (λ script. IsScriptDrawn text conditions.now settings.now seed script.items) }
    ensures undrawn { (text : List ℕ) → IsAccepted text (spec_of checked.now.spec) →
        IfErr result (ExplainsUndrawn text conditions.now settings.now seed) }
{
    all_asked_law();
    let turns = turns_of(settings);
    match all_asked(alloc, checked, conditions) {
        Ok(always) => {
            let question = DrawQuestion {
                always,
                turns,
                steps: settings.steps,
                seed,
            };
            let script = bytes_of(alloc, checked, &question);
            drop(question);
            script
        }
        Err(fault) => no_script(alloc, fault),
    }
}

/// The script of the run that settings ask for, of the specification with this text, if its choices
/// are drawn from a seed: up to a state in which one of these conditions isn't true. It has no line
/// if the text or a condition is refused.
pub fn drawn_script<'w>(
    alloc: Global,
    text: &[u8],
    conditions: &[Condition<'w>],
    settings: &RunSettings<'w>,
    seed: u64,
) -> Result<Vec<u8>, Undrawn>
    ensures drawn { IfOk result (λ script. IsScriptDrawn text.now conditions.now settings.now seed script.items) }
    ensures undrawn { IfErr result (ExplainsUndrawn text.now conditions.now settings.now seed) }
{
    match checked(alloc, text, settings.spec) {
        Ok(checked) => {
            let script = script_of(alloc, &checked, conditions, settings, seed);
            drop(checked);
            script
        }
        Err(fault) => no_script(alloc, fault),
    }
}
