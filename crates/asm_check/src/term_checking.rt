//! Terms that are asked of a specification without faults.
ghost use Rattle.std.specs.Prelude.{◌≡◌, IfErr, OnOk};
ghost use Rattle.asm_syntax.specs.declared.input_error.InputError.TheVariants.{Memory};
ghost use Rattle.asm_syntax.specs.code.Views.{spec_of, term_of};
ghost use Rattle.asm_check.specs.Errors.{ExplainsTerm};
ghost use Rattle.asm_check.specs.TermFaults.{IsWellFormedTerm};

use crate::checked::Checked;
use crate::error::CheckError;
use crate::uses::term_faults::least_term_fault;
use asm_syntax::InputError;
use asm_syntax::term::Term;
use std::alloc::Global;

impl Checked {
    /// Whether each name in the term stands for what its use asks for, as in the body of a derived
    /// function without parameters, or else the fault that is first in the term. Of several at one
    /// offset it is the one with the least number.
    pub fn check_term(&self, alloc: Global, term: &Term) -> Result<(), InputError<CheckError>>
        ensures well_formed { OnOk result (IsWellFormedTerm (spec_of self.now.spec) (term_of term.now)) }
        ensures refused { IfErr result (ExplainsTerm (spec_of self.now.spec) (term_of term.now)) }
        // A well-formed term is refused only if memory runs out.
        ensures good { IsWellFormedTerm (spec_of self.now.spec) (term_of term.now) → IfErr result (λ e. e ≡ Memory) }
    {
        match least_term_fault(alloc, self, term)? {
            Some(fault) => Err(InputError::Named(fault)),
            None => Ok(()),
        }
    }
}
