//! Whether a specification is well formed, and the fault that is first in it if it isn't.
//!
//! No pass stops at its first fault: each notes what it finds in one `LeastFault`, which keeps the
//! least fault, so what is found doesn't depend on the order of the passes. The uses of names are
//! collected first, once in each item (`declaration_uses`, `collector`). The table of names
//! (`first_names`) has those of a body beside the body. Then `declaration_bodies` says of each body
//! whether `result` is in it, and to which declarations its calls and uses lead. After that come
//! main rules (`main_rule`, `rules_with_result`), uses (`use_faults`, `rules_with_result`), limits
//! (`limit_faults`), entries of tables (`entry_faults`) and cycles (`step_faults`). If there is no
//! fault, the declarations of the same table get their numbers (`numbering`, `numbered_names`), and
//! the signature is built with these (`declared_signature`).
//!
//! Each pass is proved to note exactly the faults of one list (`specs/code/FaultLists.antt`),
//! except that of cycles, which is proved to find the least of a set
//! (`specs/code/cycles/StepFaults.antt`). `proofs/FaultLists.antt` shows that these are the faults
//! of the definition (`specs/Faults.antt`), and `proofs/LeastOfSearch.antt` joins them.
ghost use Rattle.std.specs.Prelude.{◌≡◌, None, IfOk, IfErr, OnOk};
ghost use Rattle.asm_syntax.specs.declared.input_error.InputError.TheVariants.{Memory};
ghost use Rattle.asm_syntax.specs.code.Views.{spec_of};
ghost use Rattle.asm_check.specs.Errors.{Explains, found_of};
ghost use Rattle.asm_check.specs.Faults.{IsFault, IsWellFormed};
ghost use Rattle.asm_check.specs.code.FaultLists.{twice_faults};
ghost use Rattle.asm_check.specs.Names.{first_declarations};
ghost use Rattle.asm_check.specs.code.numbers.NumberTables.{IsNumberingOf};
ghost use Rattle.asm_check.specs.code.LeastFaults.{IsLeastOf, least_after as noted_after};
ghost use Rattle.asm_check.specs.code.names.Tables.{IsTableOf};
ghost use Rattle.asm_check.specs.code.uses.UseViews.{AreUsesOf};

use crate::checked::Checked;
use crate::cycles::declaration_bodies::bodies_of;
use crate::cycles::step_faults::note_steps;
use crate::error::CheckError;
use crate::least_fault::LeastFault;
use crate::limits::limit_faults::note_limits;
use crate::names::first_names::first_names;
use crate::names::name_table::NameTable;
use crate::numbers::numbering::Numbering;
use crate::tables::entry_faults::note_entries;
use crate::uses::declaration_uses::{Use, uses_of_items};
use crate::uses::main_rule::note_inits;
use crate::uses::rules_with_result::note_main_rules_with_result;
use crate::uses::use_faults::note_uses;
use asm_syntax::InputError;
use asm_syntax::spec::Spec;
use std::alloc::{AllocError, Global};

/// The specification as one that is well formed, or the fault that is first in it. Of several at
/// one offset it is the one with the least number. The specification is given up if it is refused.
pub fn check(alloc: Global, spec: Spec) -> Result<Checked, InputError<CheckError>>
    ensures accepted { IfOk result (λ c. c.spec ≡ spec) }
    ensures well_formed { OnOk result (IsWellFormed (spec_of spec)) }
    ensures refused { IfErr result (Explains (spec_of spec)) }
    // A well-formed specification is refused only if memory runs out.
    ensures good { IsWellFormed (spec_of spec) → IfErr result (λ e. e ≡ Memory) }
{
    let numbering = numbered(alloc, &spec)?;
    Ok(Checked::of(alloc, spec, numbering)?)
}

/// What the names of a specification without faults stand for, or else its least fault.
fn numbered(alloc: Global, spec: &Spec) -> Result<Numbering, InputError<CheckError>>
    ensures numbered { IfOk result (IsNumberingOf (first_declarations (spec_of spec.now))) }
    ensures well_formed { OnOk result (IsWellFormed (spec_of spec.now)) }
    ensures refused { IfErr result (Explains (spec_of spec.now)) }
    ensures good { IsWellFormed (spec_of spec.now) → IfErr result (λ e. e ≡ Memory) }
{
    let uses = uses_of_items(alloc, &spec.items)?;
    numbered_by(alloc, spec, &uses)
}

/// The same, by the uses in the items.
fn numbered_by(
    alloc: Global,
    spec: &Spec,
    uses: &[Vec<Use>],
) -> Result<Numbering, InputError<CheckError>>
    requires { AreUsesOf (spec_of spec.now).items uses.now }
    ensures numbered { IfOk result (IsNumberingOf (first_declarations (spec_of spec.now))) }
    ensures well_formed { OnOk result (IsWellFormed (spec_of spec.now)) }
    ensures refused { IfErr result (Explains (spec_of spec.now)) }
    ensures good { IsWellFormed (spec_of spec.now) → IfErr result (λ e. e ≡ Memory) }
{
    let spec = &*spec;
    let uses = &*uses;
    let mut least = LeastFault::new();
    let names = first_names(alloc, spec, uses, &mut least)?;
    match least_fault(alloc, spec, &names, uses, least)? {
        Some(fault) => Err(InputError::Named(fault)),
        None => Ok(Numbering::of(alloc, &names)?),
    }
}

/// The least of all faults: the one with the least offset, and there with the least number. Those
/// of names that are declared twice are noted before.
fn least_fault(
    alloc: Global,
    spec: &Spec,
    names: &NameTable,
    uses: &[Vec<Use>],
    noted: LeastFault,
) -> Result<Option<CheckError>, AllocError>
    requires table { IsTableOf (spec_of spec.now) names.now }
    requires uses { AreUsesOf (spec_of spec.now).items uses.now }
    requires twice { found_of noted.found ≡ noted_after None (twice_faults (spec_of spec.now)) }
    ensures { IfOk result (λ found. IsLeastOf (IsFault (spec_of spec.now)) (found_of found)) }
{
    let mut least = noted;
    let bodies = bodies_of(alloc, spec, names)?;
    let with_result = bodies.answering.as_slice();
    note_inits(spec, names, &mut least);
    note_main_rules_with_result(spec, names, with_result, &mut least);
    note_uses(names, with_result, uses, &mut least);
    note_limits(alloc, spec, names, &mut least)?;
    note_entries(alloc, spec, names, &mut least)?;
    // The search for cycles comes last: it looks only at what is before the
    // faults that are found by then.
    note_steps(alloc, spec, names, bodies.steps.as_slice(), &mut least)?;
    Ok(least.found)
}
