//! States are looked up among nodes by an index.
ghost use Rattle.std.specs.Prelude.{◌≡◌, ◌≢◌, ◌+◌, ◌*◌, ◌<◌, ◌≤◌, ℕ, List, [], ◌∷◌, ◌++◌, false, IsTrue, IfOk, OnOk, OnErr, Some, length, slice_get};
ghost use Rattle.asm_explore.specs.code.IndexedNodes.{IsFreeFor, IsIndexed, IsNew, taken_slots};
ghost use Rattle.asm_explore.specs.code.StateHashes.{hash_of_contents};
ghost use Rattle.asm_explore.specs.code.PackedNodes.{Node};
ghost use Rattle.asm_explore.specs.code.OutcomeLists.{Each, AnyOf};

use crate::states::index::{Index, first_slot, next_slot, tag_of};
use crate::states::nodes::Nodes;
use asm_state::state::State;
use std::alloc::{AllocError, Global};

/// Where a node comes from, and how many contents it has.
#[derive(Clone, Copy)]
pub(crate) struct Link {
    /// The number of the node that the step to it began in.
    pub from: u32,
    /// The number of that step, or 0 for the state in which runs begin.
    pub depth: u32,
    pub count: usize,
}

/// Whether a node has this state.
fn has_state(nodes: &Nodes, number: usize, state: &State, count: usize) -> bool
    requires number { number < length nodes.now }
    requires nodes { Each (λ n. length n.state ≡ count) nodes.now }
    requires state { length state.now ≡ count }
    ensures found { IsTrue result → AnyOf (λ n. n.state ≡ state.now) nodes.now }
    ensures other { result ≡ false → (n : Node) → slice_get nodes.now number ≡ Some n → n.state ≢ state.now }
{
    nodes.has_state(number, state)
}

/// Whether the node in a slot has this state.
fn stands_in(nodes: &Nodes, slot: u32, state: &State, count: usize) -> bool
    requires nodes { Each (λ n. length n.state ≡ count) nodes.now }
    requires state { length state.now ≡ count }
    ensures found { IsTrue result → AnyOf (λ n. n.state ≡ state.now) nodes.now }
    ensures other { result ≡ false → (number : ℕ) (n : Node) → slot ≡ number + 1 → slice_get nodes.now number ≡ Some n → n.state ≢ state.now }
{
    let number = slot as usize;
    if number == 0 || number > nodes.len() {
        return false;
    }
    has_state(nodes, number - 1, state, count)
}

/// Whether the index leads to a node that has this state, which has this hash. If it doesn't, no
/// node has it.
pub(crate) fn is_reached(
    nodes: &Nodes,
    index: &Index,
    hash: u64,
    state: &State,
    count: usize,
) -> bool
    requires nodes { Each (λ n. length n.state ≡ count) nodes.now }
    requires state { length state.now ≡ count }
    ensures found { IsTrue result → AnyOf (λ n. n.state ≡ state.now) nodes.now }
    ensures new { result ≡ false → hash ≡ hash_of_contents state.now → IsIndexed nodes.now index.now.slots.items index.now.tags.items → IsNew nodes.now state.now }
{
    let (slots, tags) = (index.slots.as_slice(), index.tags.as_slice());
    if tags.len() == 0 || slots.len() != tags.len() {
        return false;
    }
    let tag = tag_of(hash);
    let mut at = first_slot(hash, tags.len());
    for steps in 0..tags.len() {
        let other = tags[at];
        if other == 0 {
            return false;
        }
        if other == tag && stands_in(nodes, slots[at], state, count) {
            return true;
        }
        at = next_slot(at, tags.len());
    }
    false
}

/// Whether a node has the same state as one of others.
fn has_same(nodes: &Nodes, number: usize, others: &Nodes, other: usize) -> bool
    requires number { number < length nodes.now }
    requires other { other < length others.now }
    ensures { IsTrue result → (m : Node) → slice_get others.now other ≡ Some m → AnyOf (λ n. n.state ≡ m.state) nodes.now }
{
    nodes.is_same_state(number, others, other)
}

/// Whether the node in a slot has the same state as one of others.
fn stands_there(nodes: &Nodes, slot: u32, others: &Nodes, other: usize) -> bool
    requires { other < length others.now }
    ensures { IsTrue result → (m : Node) → slice_get others.now other ≡ Some m → AnyOf (λ n. n.state ≡ m.state) nodes.now }
{
    let number = slot as usize;
    if number == 0 || number > nodes.len() {
        return false;
    }
    has_same(nodes, number - 1, others, other)
}

/// Whether the index leads to a node that has the same state as one of others, which has this hash.
pub(crate) fn is_there(
    nodes: &Nodes,
    index: &Index,
    hash: u64,
    others: &Nodes,
    other: usize,
) -> bool
    requires { other < length others.now }
    ensures { IsTrue result → (m : Node) → slice_get others.now other ≡ Some m → AnyOf (λ n. n.state ≡ m.state) nodes.now }
{
    let (slots, tags) = (index.slots.as_slice(), index.tags.as_slice());
    if tags.len() == 0 || slots.len() != tags.len() {
        return false;
    }
    let tag = tag_of(hash);
    let mut at = first_slot(hash, tags.len());
    for _ in 0..tags.len() {
        let found = tags[at];
        if found == 0 {
            return false;
        }
        if found == tag && stands_there(nodes, slots[at], others, other) {
            return true;
        }
        at = next_slot(at, tags.len());
    }
    false
}

/// The slot that the search for a hash comes to first of all that are free. Not all are taken, so
/// it comes to one before it is round.
fn free_slot(hash: u64, tags: &[u8]) -> usize
    requires { taken_slots tags.now < length tags.now }
    ensures { IsFreeFor tags.now hash result }
{
    let mut at = first_slot(hash, tags.len());
    for taken in 0..tags.len() {
        if tags[at] == 0 {
            return at;
        }
        at = next_slot(at, tags.len());
    }
    at
}

/// Notes in a free slot that a node is there, whose state has this hash.
fn note(hash: u64, number: usize, at: usize, slots: &mut Vec<u32>, tags: &mut Vec<u8>)
    requires few { number < 4_294_967_295 }
    requires same { length slots.old.items ≡ length tags.old.items }
    requires free { IsFreeFor tags.old.items hash at }
    ensures indexed { (nodes : List Node) (n : Node) → length nodes ≡ number → hash ≡ hash_of_contents n.state →
        IsIndexed nodes slots.old.items tags.old.items → IsIndexed (nodes ++ n ∷ []) slots.new.items tags.new.items }
    ensures same { length slots.new.items ≡ length tags.new.items }
    ensures places { length tags.new.items ≡ length tags.old.items }
{
    tags[at] = tag_of(hash);
    slots[at] = number as u32 + 1;
}

/// The slots and tags of an index of all nodes, with this many slots, which are not many times as
/// many.
fn index_of(alloc: Global, nodes: &Nodes, places: usize) -> Result<(Vec<u32>, Vec<u8>), AllocError>
    requires few { length nodes.now < 4_294_967_296 }
    requires room { length nodes.now < places }
    requires small { places ≤ 3 * length nodes.now + 16 }
    ensures indexed { IfOk result (λ made. IsIndexed nodes.now made.0.items made.1.items) }
    ensures places { IfOk result (λ made. length made.1.items ≡ places) }
{
    let (mut slots, mut tags) = (Vec::new(alloc), Vec::new(alloc));
    slots.resize(places, 0u32)?;
    tags.resize(places, 0u8)?;
    for number in 0..nodes.len() {
        let hash = nodes.hash(number);
        let at = free_slot(hash, tags.as_slice());
        note(hash, number, at, &mut slots, &mut tags);
    }
    Ok((slots, tags))
}

/// Makes room in the index for one more node than there are.
fn make_room(alloc: Global, nodes: &Nodes, index: &mut Index) -> Result<(), AllocError>
    requires few { length nodes.now < 4_294_967_296 }
    requires indexed { IsIndexed nodes.now index.old.slots.items index.old.tags.items }
    ensures indexed { IsIndexed nodes.now index.new.slots.items index.new.tags.items }
    ensures room { OnOk result (length nodes.now < length index.new.tags.items) }
{
    let next = nodes.len().saturating_add(1);
    let wanted = next.saturating_add(next / 3);
    if wanted < index.tags.len() {
        return Ok(());
    }
    let places = wanted.saturating_mul(2).saturating_add(8);
    let (slots, tags) = index_of(alloc, nodes, places)?;
    index.slots = slots;
    index.tags = tags;
    Ok(())
}

/// Adds a state, which has this hash, to the nodes and to their index.
pub(crate) fn add_node(
    alloc: Global,
    nodes: &mut Nodes,
    index: &mut Index,
    state: &State,
    hash: u64,
    link: Link,
) -> Result<(), AllocError>
    requires few { length nodes.old < 4_294_967_295 }
    requires indexed { IsIndexed nodes.old index.old.slots.items index.old.tags.items }
    requires hash { hash ≡ hash_of_contents state.now }
    requires count { link.count ≡ length state.now }
    ensures indexed { IsIndexed nodes.new index.new.slots.items index.new.tags.items }
    ensures ok { OnOk result (nodes.new ≡ nodes.old ++ record { state = state.now; from = link.from; depth = link.depth } ∷ []) }
    ensures err { OnErr result (nodes.new ≡ nodes.old) }
{
    make_room(alloc, nodes, index)?;
    let at = free_slot(hash, index.tags.as_slice());
    let number = nodes.len();
    nodes.push(state, link.count, link.from, link.depth)?;
    note(hash, number, at, &mut index.slots, &mut index.tags);
    Ok(())
}
