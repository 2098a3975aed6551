//! Specifications for several threads.
ghost use denote.Param.Send.{IsSync};
ghost use Rattle.asm_check.specs.contracts.checked.Checked.{the_row};

use crate::numbers::numbering::Numbering;
use asm_state::signature::Signature;
use asm_syntax::shared::rules_are_shared;
use asm_syntax::spec::Given;
use asm_syntax::term::Term;

/// Threads may share a checked specification. A function that hands one
/// to threads calls this before.
pub fn checked_is_shared()
    ensures { IsSync the_row }
{
    is_shared::<Term>();
    rules_are_shared();
    is_shared::<Given>();
    is_shared::<Signature>();
    is_shared::<Numbering>();
}

/// Threads may share a value of this type.
fn is_shared<T: Sync>()
    ensures { IsSync T.row }
{}
