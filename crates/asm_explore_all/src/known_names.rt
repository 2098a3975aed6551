//! The names of what nodes are to show.
ghost use Rattle.std.specs.Prelude.{◌≡◌, All, true, IfErr, OnOk};
ghost use Rattle.asm_syntax.specs.code.Views.{spec_of};
ghost use Rattle.asm_explore_table.specs.Tables.{is_known};
ghost use Rattle.asm_explore_table.specs.code.StepsMade.{names_said};
ghost use Rattle.asm_explore_all.specs.DrawnGraphs.{ExplainsNames};

use asm_check::Checked;
use asm_explore_table::names::unknown_name;
use asm_explore_words::fault::Fault;
use std::alloc::Global;

/// Refuses the first of these names that no location has, nor the function of one.
pub(crate) fn know_names<'w>(
    alloc: Global,
    checked: &Checked,
    names: &[&'w str],
) -> Result<(), Fault<'w>>
    ensures known { OnOk result (All (λ name. is_known (spec_of checked.now.spec) name ≡ true) (names_said names.now)) }
    ensures explained { IfErr result (ExplainsNames (spec_of checked.now.spec) (names_said names.now)) }
{
    match unknown_name(alloc, checked, names)? {
        Some(name) => Err(Fault::Name(name)),
        None => Ok(()),
    }
}
