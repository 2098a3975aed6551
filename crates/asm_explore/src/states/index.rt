//! An index of states by their hashes.
ghost use Rattle.std.specs.Prelude.{◌≡◌, ◌<◌, [], length};
ghost use Rattle.asm_explore.specs.code.IndexedNodes.{IsIndexed, first_slot_of, slot_after, tag_of_hash};
ghost use Rattle.asm_explore.specs.code.StateHashes.{hash_of_contents, next_hash};

use asm_state::state::State;
use std::alloc::Global;

/// Numbers of nodes, from 1, each at or after the slot of its state's hash. What is found is
/// compared, and nothing is missed (`IsIndexed`).
#[derive(Drop)]
pub struct Index {
    pub(crate) slots: Vec<u32>,
    /// For each slot the tag of the hash of what is in it, or 0 if it is free. So most states that
    /// are other ones aren't looked at.
    pub(crate) tags: Vec<u8>,
}

impl Index {
    /// The index without nodes.
    pub(crate) fn new(alloc: Global) -> Index
        ensures { IsIndexed [] result.slots.items result.tags.items }
    {
        Index {
            slots: Vec::new(alloc),
            tags: Vec::new(alloc),
        }
    }
}

/// The hash of no contents.
pub(crate) const NO_CONTENTS: u64 = 0x9E37_79B9_7F4A_7C15;

/// The hash of contents and one more after them, by its code.
#[inline(always)]
#[tactic(auto, unfolding(crate::specs::code::StateHashes::next_hash))]
pub(crate) fn with_content(hash: u64, code: u64) -> u64
    ensures { result ≡ next_hash hash code }
{
    (hash.rotate_left(5) ^ code).wrapping_mul(0x517C_C1B7_2722_0A95)
}

/// The hash of a state's contents.
pub(crate) fn hash_of(state: &State, count: usize) -> u64
    requires { length state.now ≡ count }
    ensures { result ≡ hash_of_contents state.now }
{
    let mut hash = NO_CONTENTS;
    for n in 0..count {
        hash = with_content(hash, state.content(n).code());
    }
    hash
}

/// The tag of a hash, which isn't 0.
#[tactic(auto, unfolding(crate::specs::code::IndexedNodes::tag_of_hash))]
pub(crate) fn tag_of(hash: u64) -> u8
    ensures { result ≡ tag_of_hash hash }
{
    (hash >> 57) as u8 + 128
}

/// The slot where the search for a hash begins.
#[tactic(auto, unfolding(crate::specs::code::IndexedNodes::first_slot_of))]
pub(crate) fn first_slot(hash: u64, places: usize) -> usize
    requires some { 0 < places }
    ensures within { result < places }
    ensures slot { result ≡ first_slot_of hash places }
{
    ((hash ^ (hash >> 29)) % places as u64) as usize
}

/// The slot after another, round the end.
pub(crate) fn next_slot(at: usize, places: usize) -> usize
    requires { at < places }
    ensures within { result < places }
    ensures slot { result ≡ slot_after places at }
{
    if at + 1 < places { at + 1 } else { 0 }
}
