//! Steps between declarations: calls of rules and uses of derived functions, cycles and ranks.

pub mod cycle_search;
pub mod declaration_bodies;
pub mod step_faults;
pub mod step_graph;
