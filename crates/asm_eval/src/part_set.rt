//! What the set of a part of a sequence is.
ghost use Rattle.std.specs.Prelude.{◌≡◌};
ghost use Rattle.asm_state.specs.Signature.{count_of};
ghost use Rattle.asm_state.specs.Updates.{UpdateSet};
ghost use Rattle.asm_updates.specs.code.Stands.{Stands};
ghost use Rattle.asm_eval.specs.code.PartSets.{IsPartSet, ends_parts, ends_turns};

use asm_state::signature::Signature;
use asm_updates::summary::Summary;

/// What the update set is that a part of a sequence, or a turn, yields.
#[derive(Clone, Copy, Debug)]
pub enum PartSet {
    /// There is no update.
    Empty,
    /// There are updates, and the set is consistent.
    Consistent,
    /// The set isn't consistent.
    Inconsistent,
}

impl PartSet {
    /// What the set is that the summary stands for.
    pub fn of(signature: &Signature, set: &Summary) -> PartSet
        requires { set.now.count ≡ count_of signature.now }
        ensures { (U : UpdateSet) → Stands signature.now set.now U → IsPartSet U result }
    {
        if set.is_empty() {
            return PartSet::Empty;
        }
        match set.first_fault(signature) {
            Some(_) => PartSet::Inconsistent,
            None => PartSet::Consistent,
        }
    }

    /// Whether a sequence ends with the part that yields it.
    #[inline(always)]
    pub fn ends_parts(self) -> bool
        ensures { result ≡ ends_parts self }
    {
        matches!(self, PartSet::Inconsistent)
    }

    /// Whether an iteration ends with the turn that yields it.
    #[inline(always)]
    pub fn ends_turns(self) -> bool
        ensures { result ≡ ends_turns self }
    {
        !matches!(self, PartSet::Consistent)
    }
}
