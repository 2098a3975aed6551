//! The nodes that a search has reached, and their index.
//!
//! A state is looked up before it is added, and the index finds each node by its state
//! (`IsIndexed`). So no state is reached twice.
ghost use Rattle.std.specs.Prelude.{◌≡◌, ◌<◌, [], ◌∷◌, ◌++◌, false, IsTrue, IfOk, OnOk, OnErr, Some, length, slice_get};
ghost use Rattle.asm_explore.specs.code.IndexedNodes.{HaveOwnStates, IsNew};
ghost use Rattle.asm_explore.specs.code.OutcomeLists.{AnyOf, Each};
ghost use Rattle.asm_explore.specs.code.PackedNodes.{Node};
ghost use Rattle.asm_explore.specs.code.StateHashes.{hash_of_contents};

use crate::states::index::{Index, hash_of};
use crate::states::lookup::{Link, add_node, is_reached, is_there};
use crate::states::nodes::Nodes;
use asm_state::state::State;
use std::alloc::{AllocError, Global};
use std::marker::Model;

/// The nodes that a search has reached, each of which has a state of its own, and where each state
/// is among them.
#[derive(Drop)]
pub(crate) struct IndexedNodes {
    nodes: Nodes,
    index: Index,
}

impl Model for IndexedNodes {
    ghost use Rattle.std.specs.Prelude.{List};
    ghost use Rattle.asm_explore.specs.code.IndexedNodes.{HaveOwnStates, IsIndexed};
    ghost use Rattle.asm_explore.specs.code.PackedNodes.{Node};

    ghost Value = { List Node };

    ghost view = { λ n. n.nodes };

    ghost invariant = { λ n. IsIndexed n.nodes n.index.slots.items n.index.tags.items × HaveOwnStates n.nodes };
}

impl IndexedNodes {
    /// The state in which runs begin.
    pub(crate) fn new(
        alloc: Global,
        initial: &State,
        count: usize,
    ) -> Result<IndexedNodes, AllocError>
        requires { length initial.now ≡ count }
        ensures { IfOk result (λ nodes. nodes ≡ record { state = initial.now; from = 0; depth = 0 } ∷ []) }
    {
        let (mut nodes, mut index) = (Nodes::new(alloc), Index::new(alloc));
        let hash = hash_of(initial, count);
        let link = Link {
            from: 0,
            depth: 0,
            count,
        };
        add_node(alloc, &mut nodes, &mut index, initial, hash, link)?;
        Ok(IndexedNodes { nodes, index })
    }

    /// How many there are.
    pub(crate) fn len(&self) -> usize
        ensures { result ≡ length self.now }
    {
        self.nodes.len()
    }

    /// The number of the step to a node.
    pub(crate) fn depth(&self, number: usize) -> u32
        requires { number < length self.now }
        ensures { (n : Node) → slice_get self.now number ≡ Some n → result ≡ n.depth }
    {
        self.nodes.depth(number)
    }

    /// Its state. Another one with as many contents lends its form.
    pub(crate) fn state(
        &self,
        alloc: Global,
        number: usize,
        like: &State,
    ) -> Result<State, AllocError>
        requires number { number < length self.now }
        requires whole { (n : Node) → slice_get self.now number ≡ Some n → length n.state ≡ length like.now }
        ensures { IfOk result (λ state. (n : Node) → slice_get self.now number ≡ Some n → state ≡ n.state) }
    {
        self.nodes.state(alloc, number, like)
    }

    /// How many bytes of memory they take.
    pub(crate) fn bytes(&self) -> usize {
        self.nodes.bytes()
    }

    /// The nodes.
    pub(crate) fn nodes(&self) -> &Nodes
        ensures { result.now ≡ self.now }
    {
        &self.nodes
    }

    /// Their index.
    pub(crate) fn index(&self) -> &Index {
        &self.index
    }

    /// Whether a node has this state, which has this hash.
    pub(crate) fn has(&self, state: &State, hash: u64, count: usize) -> bool
        requires nodes { Each (λ n. length n.state ≡ count) self.now }
        requires state { length state.now ≡ count }
        requires hash { hash ≡ hash_of_contents state.now }
        ensures found { IsTrue result → AnyOf (λ n. n.state ≡ state.now) self.now }
        ensures new { result ≡ false → IsNew self.now state.now }
    {
        is_reached(&self.nodes, &self.index, hash, state, count)
    }

    /// Whether a node is found that has the same state as one of others, which is to have this
    /// hash.
    pub(crate) fn has_one_of(&self, hash: u64, others: &Nodes, other: usize) -> bool
        requires { other < length others.now }
        ensures { IsTrue result → (m : Node) → slice_get others.now other ≡ Some m → AnyOf (λ n. n.state ≡ m.state) self.now }
    {
        is_there(&self.nodes, &self.index, hash, others, other)
    }

    /// Adds a state, which no node has and which has this hash.
    pub(crate) fn add(
        &mut self,
        alloc: Global,
        state: &State,
        hash: u64,
        link: Link,
    ) -> Result<(), AllocError>
        requires few { length self.old < 4_294_967_295 }
        requires new { IsNew self.old state.now }
        requires hash { hash ≡ hash_of_contents state.now }
        requires count { link.count ≡ length state.now }
        ensures ok { OnOk result (self.new ≡ self.old ++ record { state = state.now; from = link.from; depth = link.depth } ∷ []) }
        ensures err { OnErr result (self.new ≡ self.old) }
    {
        add_node(alloc, &mut self.nodes, &mut self.index, state, hash, link)
    }

    /// The nodes without their index.
    pub(crate) fn into_nodes(self) -> Nodes
        ensures same { result ≡ self }
        ensures own { HaveOwnStates result }
    {
        self.nodes
    }
}
