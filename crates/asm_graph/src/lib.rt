//! The graph of the states that the runs of a specification come to, and its text for Graphviz.
#![tactic(auto)]

pub mod arrow;
mod arrows;
mod build_graph;
pub mod dot;
pub mod edge_marks;
mod edge_script;
mod escaped;
mod find_node;
pub mod graph;
pub mod graph_error;
pub mod graph_of_states;
mod labels;
pub mod laws;
mod location_text;
mod made_choices;
mod named_locations;
mod next_state;
pub mod path_graph;
pub mod quiet;
pub mod run_edges;

pub use arrow::Arrow;
pub use dot::dot_text;
pub use edge_marks::EdgeMarks;
pub use graph::{Edge, EdgeEnd, Graph, Node, Step, StepFault};
pub use graph_error::GraphError;
pub use graph_of_states::state_graph;
pub use path_graph::run_graph;
pub use run_edges::run_marks;
