//! Tables for several threads.
ghost use denote.Param.Send.{IsSync};
ghost use Rattle.asm_striped.specs.contracts.striped.Striped as striped;

use crate::Striped;

/// Threads may share a table. A function that hands one to threads within another type calls this
/// before.
pub fn striped_is_shared()
    ensures { IsSync striped.the_row }
{
    is_shared::<Striped>();
}

/// Threads may share a value of this type.
fn is_shared<T: Sync>()
    ensures { IsSync T.row }
{}
