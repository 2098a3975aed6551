//! The state in which a specification begins, and its main rule.
ghost use Rattle.std.specs.Prelude.{◌≡◌, IfOk, length};
ghost use Rattle.asm_state.specs.Signature.{count_of};
ghost use Rattle.asm_syntax.specs.code.Views.{spec_of};
ghost use Rattle.asm_check.specs.Shapes.{shape_of};

use asm_check::Checked;
use asm_eval::View;
use asm_state::state::State;
use asm_syntax::rule::Rule;
use asm_updates::summary::Summary;
use std::alloc::{AllocError, Global};

/// The state in which a specification begins, and a set without updates to lay over it.
#[derive(Drop)]
pub struct Beginning<'a> {
    pub checked: &'a Checked,
    pub state: State,
    pub nothing: Summary,
    pub ghost whole: { length state ≡ count_of (shape_of (spec_of checked.now.spec)) },
    pub ghost counted: { nothing.count ≡ count_of (shape_of (spec_of checked.now.spec)) },
}

impl<'a> Beginning<'a> {
    pub fn of(alloc: Global, checked: &'a Checked) -> Result<Beginning<'a>, AllocError>
        ensures { IfOk result (λ b. b.checked.now ≡ checked.now) }
    {
        let signature = checked.signature();
        let state = State::initial(alloc, signature)?;
        Ok(Beginning {
            checked,
            state,
            nothing: Summary::new(alloc, signature.count()),
        })
    }

    pub fn view(&self) -> View<'_>
        ensures { result.signature.now ≡ shape_of (spec_of self.now.checked.now.spec) }
    {
        View::new(self.checked.signature(), &self.state, &self.nothing)
    }

    /// Goes on to the state in which a set has been fired. One of other locations changes nothing.
    pub fn fire(&mut self, set: &Summary) {
        if set.count() == self.checked.signature().count() {
            set.fire_into(&mut self.state);
        }
    }
}

pub fn main_of(checked: &Checked) -> &Rule {
    let (_parameters, main) = checked.rule(checked.main());
    main
}
