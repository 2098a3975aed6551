//! What lies between a state and the set of a view.
ghost use Rattle.std.specs.Prelude.{ℕ, ◌≡◌};
ghost use Rattle.asm_state.specs.declared.value.Value.{Value as value};
ghost use Rattle.asm_eval.specs.code.ShownStates.{content_below, content_or};

use asm_state::word::Word;
use asm_updates::summary::Summary;

/// Sets of updates, each fired after those below it.
#[derive(Clone, Copy)]
pub enum Below<'a> {
    Nothing,
    /// A set, and what is fired before it.
    Set {
        over: &'a Summary,
        below: &'a Below<'a>,
    },
}

impl<'a> Below<'a> {
    /// What the last of the sets that names the location with this number has there.
    #[inline(always)]
    pub(crate) fn content(&self, n: usize) -> Option<Word>
        ensures { (v : value) → content_or result v ≡ content_below self.now n v }
    {
        let mut rest = self;
        while let Below::Set { over, below } = rest {
            if let Some((value, _)) = over.get(n) {
                return Some(value);
            }
            rest = below;
        }
        None
    }
}
