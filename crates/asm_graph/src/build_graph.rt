//! The graph is built by a walk through the states, breadth first.
ghost use Rattle.std.specs.Prelude.{◌≡◌, ◌<◌, ◌≤◌, ◌+◌, ◌^◌, ◌⊎◌, [], false, true, length, slice_get, Some, IfErr, IfOk, IfNone, IfSome, OnOk};
ghost use Rattle.asm_state.specs.code.Contents.{IsStateOf};
ghost use Rattle.asm_state.specs.Signature.{count_of, state_of};
ghost use Rattle.asm_meaning.specs.Yields.{Result as Yielded};
ghost use Rattle.asm_explore.specs.code.OutcomeLists.{AnyOf, Each, Shows};
ghost use Rattle.asm_explore.specs.code.ResolvedConditions.{IsSpecified};
ghost use Rattle.asm_explore.specs.code.StepOutcomes.{IsStep};
ghost use Rattle.asm_graph.specs.Graphs.{AreEdges, AreFound, GoesTo, IsGraph, IsRefusal, IsShown, LeadsTo, Pairs, state_at};
ghost use Rattle.asm_graph.specs.code.GraphSoFar.{AreNear, AreNew, AreNodesRight, AreShallow, HasContents, IsLed, IsNear, IsNodeRight, IsOutcome, NodesGrow};
ghost use Rattle.asm_graph.specs.code.ResolvedMachines.{crowds_in, rests_in, right_in, shape_in, specification_in, within_in};
ghost use Rattle.asm_graph.specs.declared.graph.Edge.{Edge};
ghost use Rattle.asm_graph.specs.declared.graph.EdgeEnd.TheVariants as target;
ghost use Rattle.asm_graph.specs.declared.graph.Node.{Node};

use crate::find_node::{find_node, hash_of};
use crate::graph::{Edge, EdgeEnd, Graph, Node, Step};
use crate::graph_error::GraphError;
use crate::made_choices::choices_along;
use crate::next_state::next_state;
use asm_explore::laws::{making_laws, script_law};
use asm_explore::{ListedOutcome, Machine, OutcomesError, ResolvedQuestion};
use asm_meaning::laws::told_outcomes;
use asm_state::state::State;
use std::alloc::{AllocError, Global};

/// A walk through the states of a specification: `steps` deep, and of `most` states at most.
#[derive(Drop)]
struct Walk<'m, 'q> {
    alloc: Global,
    machine: &'m ResolvedQuestion<'q>,
    steps: u32,
    most: u32,
    ghost steps_in_range: { steps < 2 ^ 32 },
}

impl<'m, 'q> Walk<'m, 'q> {
    /// A node for a state that `depth` steps lead to.
    fn new_node(&self, state: State, depth: u32) -> Node
        requires machine { IsSpecified self.now.machine.now }
        requires kept { IsStateOf (shape_in self.now.machine.now) state }
        requires led { IsLed (specification_in self.now.machine.now) self.now.machine.now.turns (within_in self.now.machine.now) depth (state_of (shape_in self.now.machine.now) state) }
        ensures state { result.state ≡ state }
        ensures depth { result.depth ≡ depth }
        ensures kept { IsNodeRight (shape_in self.now.machine.now) (specification_in self.now.machine.now) self.now.machine.now.turns (within_in self.now.machine.now) (right_in self.now.machine.now) (rests_in self.now.machine.now) result }
    {
        let right = self.machine.is_right(self.alloc, &state);
        let rests = self.machine.may_rest(self.alloc, &state);
        let hash = hash_of(&state, self.machine.signature().count());
        Node {
            state,
            depth,
            right,
            rests,
            hash,
        }
    }

    /// The number of the node with a state that `depth` steps lead to. It is a new one, if the
    /// state wasn't reached before.
    fn reach(&self, next: State, depth: u32, nodes: &mut Vec<Node>) -> Result<usize, GraphError>
        requires machine { IsSpecified self.now.machine.now }
        requires kept { IsStateOf (shape_in self.now.machine.now) next }
        requires led { IsLed (specification_in self.now.machine.now) self.now.machine.now.turns (within_in self.now.machine.now) depth (state_of (shape_in self.now.machine.now) next) }
        requires nodes { AreNodesRight (shape_in self.now.machine.now) (specification_in self.now.machine.now) self.now.machine.now.turns (within_in self.now.machine.now) (right_in self.now.machine.now) (rests_in self.now.machine.now) self.now.steps self.now.most nodes.old.items }
        requires near { AreShallow depth nodes.old.items }
        requires shallow { depth ≤ self.now.steps }
        ensures grows { OnOk result (NodesGrow (shape_in self.now.machine.now) (specification_in self.now.machine.now) self.now.machine.now.turns (within_in self.now.machine.now) (right_in self.now.machine.now) (rests_in self.now.machine.now) self.now.steps self.now.most depth nodes.old.items nodes.new.items) }
        ensures number { IfOk result (λ k. HasContents nodes.new.items k next) }
        ensures new { IfOk result (λ k. AreNew nodes.old.items nodes.new.items (λ i. k ≡ i)) }
        ensures refused { IfErr result (IsRefusal (specification_in self.now.machine.now) self.now.machine.now.turns (within_in self.now.machine.now) self.now.steps self.now.most) }
    {
        script_law();
        let count = self.machine.signature().count();
        if let Some(number) = find_node(nodes.as_slice(), &next, count) {
            return Ok(number);
        }
        let number = nodes.len();
        if number >= self.most as usize {
            return Err(GraphError::TooMany);
        }
        let node = self.new_node(next, depth);
        nodes.push(node)?;
        Ok(number)
    }

    /// Where an outcome of the step from a state leads, from which runs are followed and which
    /// `depth` steps lead to.
    fn follow(
        &self,
        from: &State,
        depth: u32,
        one: &ListedOutcome,
        nodes: &mut Vec<Node>,
    ) -> Result<EdgeEnd, GraphError>
        requires machine { IsSpecified self.now.machine.now }
        requires from { IsStateOf (shape_in self.now.machine.now) from.now }
        requires led { IsLed (specification_in self.now.machine.now) self.now.machine.now.turns (within_in self.now.machine.now) depth (state_of (shape_in self.now.machine.now) from.now) }
        requires inside { (within_in self.now.machine.now) (state_of (shape_in self.now.machine.now) from.now) ≡ true }
        requires shallow { depth < self.now.steps }
        requires one { IsOutcome (shape_in self.now.machine.now) (specification_in self.now.machine.now) self.now.machine.now.turns (state_of (shape_in self.now.machine.now) from.now) one.now }
        requires nodes { AreNodesRight (shape_in self.now.machine.now) (specification_in self.now.machine.now) self.now.machine.now.turns (within_in self.now.machine.now) (right_in self.now.machine.now) (rests_in self.now.machine.now) self.now.steps self.now.most nodes.old.items }
        requires near { AreShallow (depth + 1) nodes.old.items }
        ensures grows { OnOk result (NodesGrow (shape_in self.now.machine.now) (specification_in self.now.machine.now) self.now.machine.now.turns (within_in self.now.machine.now) (right_in self.now.machine.now) (rests_in self.now.machine.now) self.now.steps self.now.most (depth + 1) nodes.old.items nodes.new.items) }
        ensures goes { IfOk result (λ to. (r : Yielded) → Shows (shape_in self.now.machine.now) one.now.answer r →
            GoesTo (shape_in self.now.machine.now) nodes.new.items (state_of (shape_in self.now.machine.now) from.now) r to) }
        ensures near { IfOk result (IsNear nodes.new.items (depth + 1)) }
        ensures new { IfOk result (λ to. AreNew nodes.old.items nodes.new.items (λ i. to ≡ target.Node i)) }
        ensures refused { IfErr result (IsRefusal (specification_in self.now.machine.now) self.now.machine.now.turns (within_in self.now.machine.now) self.now.steps self.now.most) }
    {
        script_law();
        match next_state(self.alloc, self.machine.signature(), from, one)? {
            Ok(next) => {
                let number = self.reach(next, depth + 1, nodes)?;
                Ok(EdgeEnd::Node(number))
            }
            Err(fault) => Ok(EdgeEnd::Fault(fault)),
        }
    }

    /// The edges from a state, from which runs are followed and which `depth` steps lead to.
    fn edges_from(
        &self,
        from: &State,
        depth: u32,
        outcomes: &[ListedOutcome],
        nodes: &mut Vec<Node>,
    ) -> Result<Vec<Edge>, GraphError>
        requires machine { IsSpecified self.now.machine.now }
        requires from { IsStateOf (shape_in self.now.machine.now) from.now }
        requires led { IsLed (specification_in self.now.machine.now) self.now.machine.now.turns (within_in self.now.machine.now) depth (state_of (shape_in self.now.machine.now) from.now) }
        requires inside { (within_in self.now.machine.now) (state_of (shape_in self.now.machine.now) from.now) ≡ true }
        requires shallow { depth < self.now.steps }
        requires step { IsStep (shape_in self.now.machine.now) (specification_in self.now.machine.now) self.now.machine.now.turns (state_of (shape_in self.now.machine.now) from.now) outcomes.now }
        requires nodes { AreNodesRight (shape_in self.now.machine.now) (specification_in self.now.machine.now) self.now.machine.now.turns (within_in self.now.machine.now) (right_in self.now.machine.now) (rests_in self.now.machine.now) self.now.steps self.now.most nodes.old.items }
        requires near { AreShallow (depth + 1) nodes.old.items }
        ensures grows { OnOk result (NodesGrow (shape_in self.now.machine.now) (specification_in self.now.machine.now) self.now.machine.now.turns (within_in self.now.machine.now) (right_in self.now.machine.now) (rests_in self.now.machine.now) self.now.steps self.now.most (depth + 1) nodes.old.items nodes.new.items) }
        ensures edges { IfOk result (λ es. AreEdges (shape_in self.now.machine.now) (specification_in self.now.machine.now) self.now.machine.now.turns nodes.new.items (state_of (shape_in self.now.machine.now) from.now) es.items) }
        ensures near { IfOk result (λ es. Each (λ (e : Edge). IsNear nodes.new.items (depth + 1) e.to) es.items) }
        ensures new { IfOk result (λ es. AreNew nodes.old.items nodes.new.items (λ i. AnyOf (λ (e : Edge). e.to ≡ target.Node i) es.items)) }
        ensures refused { IfErr result (IsRefusal (specification_in self.now.machine.now) self.now.machine.now.turns (within_in self.now.machine.now) self.now.steps self.now.most) }
    {
        script_law();
        making_laws();
        told_outcomes();
        let mut edges = Vec::new(self.alloc);
        for k in 0..outcomes.len() {
            let one = &outcomes[k];
            let to = self.follow(from, depth, one, nodes)?;
            let choices = one.choices.to_vec(self.alloc)?;
            let made = choices_along(self.alloc, self.machine, choices.as_slice(), from)?;
            edges.push(Edge { choices: made, to })?;
        }
        Ok(edges)
    }

    /// The state of a node, if runs are followed from it.
    fn state_to_follow(&self, node: &Node) -> Result<Option<State>, AllocError>
        requires machine { IsSpecified self.now.machine.now }
        requires whole { length node.now.state ≡ count_of (shape_in self.now.machine.now) }
        ensures some { IfOk result (λ found. IfSome found (λ state. (state ≡ node.now.state) × (node.now.depth < self.now.steps)
            × ((within_in self.now.machine.now) (state_at (shape_in self.now.machine.now) node.now) ≡ true))) }
        ensures none { IfOk result (λ found. IfNone found ((self.now.steps ≤ node.now.depth) ⊎ ((within_in self.now.machine.now) (state_at (shape_in self.now.machine.now) node.now) ≡ false))) }
    {
        if node.depth >= self.steps || !self.machine.is_within(self.alloc, &node.state) {
            return Ok(None);
        }
        let state = node.state.copy(self.alloc)?;
        Ok(Some(state))
    }

    /// The step from the node with this number, and the nodes that it leads to.
    fn step_from(&self, number: usize, nodes: &mut Vec<Node>) -> Result<Step, GraphError>
        requires machine { IsSpecified self.now.machine.now }
        requires number { number < length nodes.old.items }
        requires nodes { AreNodesRight (shape_in self.now.machine.now) (specification_in self.now.machine.now) self.now.machine.now.turns (within_in self.now.machine.now) (right_in self.now.machine.now) (rests_in self.now.machine.now) self.now.steps self.now.most nodes.old.items }
        requires near { (n : Node) → slice_get nodes.old.items number ≡ Some n → AreShallow (n.depth + 1) nodes.old.items }
        ensures grows { OnOk result ((n : Node) → slice_get nodes.old.items number ≡ Some n → NodesGrow (shape_in self.now.machine.now) (specification_in self.now.machine.now) self.now.machine.now.turns (within_in self.now.machine.now) (right_in self.now.machine.now) (rests_in self.now.machine.now) self.now.steps self.now.most (n.depth + 1) nodes.old.items nodes.new.items) }
        ensures shown { IfOk result (λ step. (n : Node) → slice_get nodes.old.items number ≡ Some n → IsShown (shape_in self.now.machine.now) (specification_in self.now.machine.now) self.now.machine.now.turns (within_in self.now.machine.now) (crowds_in self.now.machine.now) self.now.steps nodes.new.items n step) }
        ensures near { IfOk result (λ step. (n : Node) → slice_get nodes.old.items number ≡ Some n → AreNear nodes.new.items n step) }
        ensures new { IfOk result (λ step. AreNew nodes.old.items nodes.new.items (λ i. LeadsTo i step)) }
        ensures refused { IfErr result (IsRefusal (specification_in self.now.machine.now) self.now.machine.now.turns (within_in self.now.machine.now) self.now.steps self.now.most) }
    {
        let node = &nodes[number];
        let depth = node.depth;
        let Some(state) = self.state_to_follow(node)? else {
            return Ok(Step::Cut);
        };
        match self.machine.outcomes(self.alloc, &state) {
            Ok(outcomes) => {
                let found = outcomes.as_slice();
                let edges = self.edges_from(&state, depth, found, nodes)?;
                Ok(Step::Edges(edges))
            }
            Err(OutcomesError::TooMany(_)) => Ok(Step::Crowded),
            Err(OutcomesError::Memory) => Err(GraphError::Memory),
        }
    }

    /// The steps from all nodes, and the nodes that they lead to.
    fn steps_from_all(&self, nodes: &mut Vec<Node>, made: &mut Vec<Step>) -> Result<(), GraphError>
        requires machine { IsSpecified self.now.machine.now }
        requires nodes { AreNodesRight (shape_in self.now.machine.now) (specification_in self.now.machine.now) self.now.machine.now.turns (within_in self.now.machine.now) (right_in self.now.machine.now) (rests_in self.now.machine.now) self.now.steps self.now.most nodes.old.items }
        requires one { length nodes.old.items ≡ 1 }
        requires none { made.old.items ≡ [] }
        ensures kept { OnOk result (AreNodesRight (shape_in self.now.machine.now) (specification_in self.now.machine.now) self.now.machine.now.turns (within_in self.now.machine.now) (right_in self.now.machine.now) (rests_in self.now.machine.now) self.now.steps self.now.most nodes.new.items) }
        ensures first { OnOk result (slice_get nodes.new.items 0 ≡ slice_get nodes.old.items 0) }
        ensures shown { OnOk result (Pairs (IsShown (shape_in self.now.machine.now) (specification_in self.now.machine.now) self.now.machine.now.turns (within_in self.now.machine.now) (crowds_in self.now.machine.now) self.now.steps nodes.new.items) nodes.new.items made.new.items) }
        ensures near { OnOk result (Pairs (AreNear nodes.new.items) nodes.new.items made.new.items) }
        ensures found { OnOk result (AreFound nodes.new.items made.new.items) }
        ensures refused { IfErr result (IsRefusal (specification_in self.now.machine.now) self.now.machine.now.turns (within_in self.now.machine.now) self.now.steps self.now.most) }
    {
        while made.len() < nodes.len() {
            let step = self.step_from(made.len(), nodes)?;
            made.push(step)?;
        }
        Ok(())
    }
}

/// The graph of the states that runs of `steps` steps come to, if there are not more than `most`.
pub(crate) fn build_graph(
    alloc: Global,
    machine: &ResolvedQuestion<'_>,
    initial: State,
    steps: u32,
    most: u32,
) -> Result<Graph, GraphError>
    requires machine { IsSpecified machine.now }
    requires kept { IsStateOf (shape_in machine.now) initial }
    requires initial { state_of (shape_in machine.now) initial ≡ (specification_in machine.now).initial }
    ensures graph { IfOk result (IsGraph (shape_in machine.now) (specification_in machine.now) machine.now.turns (within_in machine.now) (crowds_in machine.now) steps most (right_in machine.now) (rests_in machine.now)) }
    ensures refused { IfErr result (IsRefusal (specification_in machine.now) machine.now.turns (within_in machine.now) steps most) }
{
    script_law();
    if most == 0 {
        return Err(GraphError::TooMany);
    }
    let walk = Walk {
        alloc,
        machine,
        steps,
        most,
    };
    let first = walk.new_node(initial, 0);
    let mut nodes = Vec::new(alloc);
    nodes.push(first)?;
    let mut made = Vec::new(alloc);
    walk.steps_from_all(&mut nodes, &mut made)?;
    Ok(Graph { nodes, steps: made })
}
