//! A condition, from its text.
ghost use Rattle.std.specs.Prelude.{◌≡◌, ℕ, List, IfOk, IfErr, OnOk};
ghost use Rattle.asm_syntax.specs.declared.input_error.InputError.TheVariants.{Memory};
ghost use Rattle.asm_syntax.specs.SourceTree as source;
ghost use Rattle.asm_syntax.specs.code.Views.{spec_of, term_of};
ghost use Rattle.asm_reader.specs.TermText.{IsTermText};
ghost use Rattle.asm_check.specs.TermFaults.{IsWellFormedTerm};
ghost use Rattle.asm_explore_texts.specs.Conditions.{ExplainsCondition, IsAskedOf};
ghost use Rattle.asm_explore_texts.specs.code.CodedConditions.{IsConditionOf};

use asm_check::Checked;
use asm_explore_words::fault::TextError;
use asm_reader::{one_term, read_term};
use asm_syntax::InputError;
use asm_syntax::term::Term;
use std::alloc::Global;

/// What is wrong with a condition, and where: an offset of its text, if there is one.
#[derive(Clone, Copy, Debug, PartialEq, Eq)]
pub struct ConditionError {
    pub error: TextError,
    pub at: Option<usize>,
}

/// The condition, as a term over the names of the specification.
pub fn condition_term(
    alloc: Global,
    checked: &Checked,
    condition: &[u8],
) -> Result<Term, InputError<ConditionError>>
    ensures found { IfOk result (IsConditionOf (spec_of checked.now.spec) condition.now) }
    ensures refused { IfErr result (ExplainsCondition (spec_of checked.now.spec) condition.now) }
    // A text that is a condition is refused only if memory runs out.
    ensures accepted { (t : source.Term) → IsAskedOf (spec_of checked.now.spec) condition.now t → IfErr result (λ e. e ≡ Memory) }
{
    let term = read_condition(alloc, condition)?;
    one_term();
    match check_condition(alloc, checked, &term) {
        Ok(()) => Ok(term),
        Err(error) => Err(error),
    }
}

/// The term that the text of a condition spells.
fn read_condition(alloc: Global, condition: &[u8]) -> Result<Term, InputError<ConditionError>>
    ensures found { IfOk result (λ t. IsTermText condition.now (term_of t)) }
    ensures refused { (spec : source.Spec) → IfErr result (ExplainsCondition spec condition.now) }
    ensures accepted { (t : source.Term) → IsTermText condition.now t → IfErr result (λ e. e ≡ Memory) }
{
    match read_term(alloc, condition) {
        Ok(term) => Ok(term),
        Err(InputError::Memory) => Err(InputError::Memory),
        Err(InputError::Named(error)) => Err(InputError::Named(ConditionError {
            error: TextError::Read(error),
            at: error.at(),
        })),
    }
}

/// Whether the term of a condition has no fault.
fn check_condition(
    alloc: Global,
    checked: &Checked,
    term: &Term,
) -> Result<(), InputError<ConditionError>>
    ensures well_formed { OnOk result (IsWellFormedTerm (spec_of checked.now.spec) (term_of term.now)) }
    ensures refused { (asked : List ℕ) → IsTermText asked (term_of term.now) → IfErr result (ExplainsCondition (spec_of checked.now.spec) asked) }
    ensures good { IsWellFormedTerm (spec_of checked.now.spec) (term_of term.now) → IfErr result (λ e. e ≡ Memory) }
{
    match checked.check_term(alloc, term) {
        Ok(()) => Ok(()),
        Err(InputError::Memory) => Err(InputError::Memory),
        Err(InputError::Named(error)) => Err(InputError::Named(ConditionError {
            error: TextError::Check(error),
            at: Some(error.at),
        })),
    }
}
