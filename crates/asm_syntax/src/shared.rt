//! Rules for several threads.
ghost use denote.Param.Send.{IsSync};
ghost use Rattle.asm_syntax.specs.contracts.rule.Rule.{the_row};

use crate::term::Term;

/// Threads may share a rule. A function that hands one to threads, or what holds one, calls this
/// before.
pub fn rules_are_shared()
    ensures { IsSync the_row }
{
    is_shared::<Term>();
}

/// Threads may share a value of this type.
fn is_shared<T: Sync>()
    ensures { IsSync T.row }
{}
