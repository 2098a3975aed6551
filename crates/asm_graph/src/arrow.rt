//! An edge as it is drawn.
use crate::graph::EdgeEnd;

/// An edge as it is drawn.
#[derive(Drop)]
pub struct Arrow {
    /// The number of the node from which it leads.
    pub from: usize,
    pub to: EdgeEnd,
    /// What is written at it.
    pub label: Vec<u8>,
    /// Whether it is part of the run that is shown.
    pub is_red: bool,
}
