//! What a condition is looked at in.
ghost use Rattle.std.specs.Prelude.{◌≡◌, length};
ghost use Rattle.asm_state.specs.Signature.{count_of};
ghost use Rattle.asm_syntax.specs.code.Views.{spec_of};
ghost use Rattle.asm_check.specs.Shapes.{shape_of};

use asm_check::Checked;
use asm_state::state::State;

/// A specification, and a state of it.
#[derive(Clone, Copy)]
pub(crate) struct Scene<'s> {
    pub checked: &'s Checked,
    pub state: &'s State,
    pub ghost whole: { length state.now ≡ count_of (shape_of (spec_of checked.now.spec)) },
}
