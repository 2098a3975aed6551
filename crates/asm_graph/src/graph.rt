//! Graphs of states.
use asm_explore::Choice;
use asm_state::state::State;

/// A state that a run comes to.
#[derive(Drop)]
pub struct Node {
    pub state: State,
    /// How many steps lead to it. No fewer do, unless they pass a state whose step is `Crowded`.
    pub depth: u32,
    /// Whether what is to hold in each state does.
    pub right: bool,
    /// Whether a run may rest in it, if it is quiet.
    pub rests: bool,
    /// By which the same state is found again. States with one hash are compared.
    pub(crate) hash: u64,
}

/// What is wrong with the step along an edge, so that it leads to no state.
#[derive(Clone, Copy, Debug, PartialEq, Eq)]
pub enum StepFault {
    /// Its set has two values at the first faulty location.
    Clash,
    /// Its set has a value outside the domain of a function, and no clash at an earlier location.
    Outside,
    /// It yields no set: an `iterate` has made its last turn.
    Exhausted,
}

/// Where an edge leads.
#[derive(Clone, Copy, Debug, PartialEq, Eq)]
pub enum EdgeEnd {
    /// To the node with this number.
    Node(usize),
    /// To no state.
    Fault(StepFault),
}

/// An outcome of the step from a node.
#[derive(Drop)]
pub struct Edge {
    /// The choices that lead to it.
    pub choices: Vec<Choice>,
    pub to: EdgeEnd,
}

/// What is shown of the step from a node.
#[derive(Drop)]
pub enum Step {
    /// Nothing: runs aren't followed from the node, or have made all their steps.
    Cut,
    /// Nothing: it has more outcomes than the limit says.
    Crowded,
    /// Its outcomes, in the order in which they are listed.
    Edges(Vec<Edge>),
}

/// The graph of the states that runs come to.
#[derive(Drop)]
pub struct Graph {
    /// The states, in the order in which they are found. The first is the one in which runs begin.
    pub nodes: Vec<Node>,
    /// The step from each node.
    pub steps: Vec<Step>,
}
