//! Finding the node that has a state.
ghost use Rattle.std.specs.Prelude.{◌≡◌, ◌≢◌, ◌↔◌, IsTrue, IfNone, IfSome, length};
ghost use Rattle.asm_explore.specs.ListElements.{Each};
ghost use Rattle.asm_graph.specs.code.GraphSoFar.{HasContents, hash_in, with_code};
ghost use Rattle.asm_graph.specs.declared.graph.Node.{Node};

use crate::graph::Node;
use asm_state::laws::codes_apart;
use asm_state::state::State;
use asm_state::word::Word;

/// A hash with one more code.
#[tactic(auto, unfolding(crate::specs::code::GraphSoFar::with_code))]
fn with_code(hash: u64, code: u64) -> u64
    ensures { result ≡ with_code hash code }
{
    (hash.rotate_left(5) ^ code).wrapping_mul(0x517C_C1B7_2722_0A95)
}

/// The hash of a state's contents.
pub(crate) fn hash_of(state: &State, count: usize) -> u64
    requires { length state.now ≡ count }
    ensures { result ≡ hash_in state.now }
{
    let mut hash = 0x9E37_79B9_7F4A_7C15u64;
    for n in 0..count {
        hash = with_code(hash, state.content(n).code());
    }
    hash
}

/// Whether two values are the same.
fn is_same_value(left: Word, right: Word) -> bool
    ensures { IsTrue result ↔ left ≡ right }
{
    codes_apart();
    left.code() == right.code()
}

/// Whether two states have the same contents.
pub(crate) fn is_same_state(left: &State, right: &State, count: usize) -> bool
    requires left { length left.now ≡ count }
    requires right { length right.now ≡ count }
    ensures { IsTrue result ↔ left.now ≡ right.now }
{
    for n in 0..count {
        if !is_same_value(left.content(n), right.content(n)) {
            return false;
        }
    }
    true
}

/// The number of the node that has this state, if there is one.
pub(crate) fn find_node(nodes: &[Node], state: &State, count: usize) -> Option<usize>
    requires nodes { Each (λ (n : Node). length n.state ≡ count) nodes.now }
    requires hashed { Each (λ (n : Node). n.hash ≡ hash_in n.state) nodes.now }
    requires state { length state.now ≡ count }
    ensures some { IfSome result (λ k. HasContents nodes.now k state.now) }
    ensures none { IfNone result (Each (λ (n : Node). n.state ≢ state.now) nodes.now) }
{
    let hash = hash_of(state, count);
    for number in 0..nodes.len() {
        let node = &nodes[number];
        if node.hash == hash && is_same_state(&node.state, state, count) {
            return Some(number);
        }
    }
    None
}
