//! Nodes whose edges lead back to them.
ghost use Rattle.std.specs.Prelude.{◌≡◌, ◌↔◌, IsTrue};
ghost use Rattle.std.specs.List.{list_all};
ghost use Rattle.asm_graph.specs.Dot as text;
ghost use Rattle.asm_graph.specs.Graphs.{LeadBack};

use crate::graph::{Edge, EdgeEnd, Step};

/// Whether an edge leads to the node with this number.
fn leads_to(edge: &Edge, number: usize) -> bool
    ensures { result ≡ text.is_node number edge.now.to }
{
    match edge.to {
        EdgeEnd::Node(to) => to == number,
        EdgeEnd::Fault(_) => false,
    }
}

/// Whether each edge leads to the node with this number.
fn all_lead_to(edges: &[Edge], number: usize) -> bool
    ensures { result ≡ list_all (λ e. text.is_node number e.to) edges.now }
{
    edges.iter().all(|edge| leads_to(edge, number))
}

/// Whether the step from the node with this number leads back to it, whatever is chosen: its state
/// is quiet then.
pub fn is_quiet(step: &Step, number: usize) -> bool
    ensures back { IsTrue result ↔ LeadBack number step.now }
    ensures quiet { result ≡ text.is_quiet number step.now }
{
    match step {
        Step::Edges(edges) => all_lead_to(edges.as_slice(), number),
        Step::Cut | Step::Crowded => false,
    }
}
