//! Which locations change from one row to the next.
ghost use Rattle.std.specs.Prelude.{◌≡◌, ◌<◌, ◌≤◌, ◌||◌, ℕ, false, not, length, slice_index_or};
ghost use Rattle.asm_state.specs.Operation.{is_same};
ghost use Rattle.asm_state.specs.Signature.{Shape, location_at, state_of};
ghost use Rattle.asm_state.specs.code.Contents.{IsStateOf};

use crate::cells::is_same_value;
use asm_state::state::State;

/// Notes each location whose value differs in two states.
pub(crate) fn note_changes(changed: &mut [bool], before: &State, after: &State)
    requires before { length changed.old ≤ length before.now }
    requires after { length changed.old ≤ length after.now }
    ensures whole { length changed.new ≡ length changed.old }
    ensures changed { (shape : Shape) → IsStateOf shape before.now → IsStateOf shape after.now → (n : ℕ) → n < length changed.old →
        slice_index_or changed.new n false
        ≡ (slice_index_or changed.old n false || not (is_same (state_of shape before.now (location_at shape n)) (state_of shape after.now (location_at shape n)))) }
{
    for n in 0..changed.len() {
        let is_same = is_same_value(before.content(n), after.content(n));
        changed[n] |= !is_same;
    }
}
