//! The locations that nodes show.
ghost use Rattle.std.specs.Prelude.{◌≡◌, ◌<◌, IfOk};
ghost use Rattle.asm_state.specs.Signature.{count_of};
ghost use Rattle.asm_syntax.specs.code.Views.{spec_of};
ghost use Rattle.asm_check.specs.Shapes.{shape_of};
ghost use Rattle.asm_explore_table.specs.Tables.{numbered};
ghost use Rattle.asm_explore_table.specs.code.StepsMade.{names_said};
ghost use Rattle.asm_graph.specs.Labels.{shown_by};
ghost use Rattle.asm_graph.specs.code.ShownLocations.{shown_marks};

use asm_check::Checked;
use asm_explore_table::names::is_named;
use std::alloc::{AllocError, Global};

/// Whether nodes show the location with this number: one that is named, or any without names.
fn is_shown(alloc: Global, checked: &Checked, names: &[&str], n: usize) -> Result<bool, AllocError>
    requires { n < count_of (shape_of (spec_of checked.now.spec)) }
    ensures { let s = spec_of checked.now.spec in IfOk result (λ is. is ≡ shown_by s (names_said names.now) (numbered s n)) }
{
    if names.is_empty() {
        return Ok(true);
    }
    let location = checked.signature().location(alloc, n)?;
    is_named(alloc, checked, names, &location)
}

/// Of each location whether nodes show it.
pub(crate) fn shown_locations(
    alloc: Global,
    checked: &Checked,
    names: &[&str],
) -> Result<Vec<bool>, AllocError>
    ensures { IfOk result (λ shown. shown.items ≡ shown_marks (spec_of checked.now.spec) (names_said names.now)) }
{
    let mut shown = Vec::new(alloc);
    for n in 0..checked.signature().count() {
        shown.push(is_shown(alloc, checked, names, n)?)?;
    }
    Ok(shown)
}
