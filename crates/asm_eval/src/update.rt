//! Updates.
ghost use Rattle.std.specs.Prelude.{◌≡◌, ◌<◌, OnOk};
ghost use Rattle.asm_state.specs.Signature.{count_of, location_at};
ghost use Rattle.asm_state.specs.Updates.{UpdateSet, one, together};
ghost use Rattle.asm_updates.specs.code.Stands.{Stands};

use asm_state::signature::Signature;
use asm_state::word::Word;
use asm_updates::summary::Summary;
use std::alloc::AllocError;

/// Adds the update of a location to a set. Whether the location is a stray one is asked here, so
/// that a set of others has no mark.
#[inline(always)]
pub fn add_update(
    signature: &Signature,
    set: &mut Summary,
    n: usize,
    value: Word,
) -> Result<(), AllocError>
    requires location { n < count_of signature.now }
    requires count { set.old.count ≡ count_of signature.now }
    ensures count { set.new.count ≡ set.old.count }
    ensures update { OnOk result ((U : UpdateSet) → Stands signature.now set.old U →
        Stands signature.now set.new (together U (one (location_at signature.now n) value))) }
{
    match signature.stray(n) {
        None => set.add_proper(n, value),
        Some(_) => set.add(n, value, value),
    }
}
