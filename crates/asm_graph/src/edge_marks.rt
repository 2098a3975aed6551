//! Edges of a graph that are marked.
ghost use Rattle.std.specs.Prelude.{◌≡◌, ◌==◌, ◌<◌, [], length, IfOk, OnOk};
ghost use Rattle.std.specs.List.{list_any};
ghost use Rattle.asm_graph.specs.code.EdgeMarks.{AreMarks, HasMore, has_mark};

use std::alloc::{AllocError, Global};

/// Edges of a graph that are marked.
#[derive(Drop)]
pub struct EdgeMarks {
    /// For each node the numbers of those of its edges that are.
    pub(crate) rows: Vec<Vec<usize>>,
}

impl EdgeMarks {
    /// No edge is marked.
    pub fn none(alloc: Global) -> EdgeMarks
        ensures { AreMarks [] result }
    {
        EdgeMarks {
            rows: Vec::new(alloc),
        }
    }

    /// Of so many nodes no edge is marked.
    pub(crate) fn of_nodes(alloc: Global, nodes: usize) -> Result<EdgeMarks, AllocError>
        ensures none { IfOk result (AreMarks []) }
        ensures count { IfOk result (λ marks. length marks.rows.items ≡ nodes) }
    {
        let mut rows = Vec::new(alloc);
        for _ in 0..nodes {
            rows.push(Vec::new(alloc))?;
        }
        Ok(EdgeMarks { rows })
    }

    /// Marks an edge of a node.
    pub(crate) fn add(&mut self, node: usize, number: usize) -> Result<(), AllocError>
        requires { node < length self.old.rows.items }
        ensures more { OnOk result (HasMore self.old node number self.new) }
        ensures count { OnOk result (length self.new.rows.items ≡ length self.old.rows.items) }
    {
        self.rows[node].push(number)?;
        Ok(())
    }

    /// Whether the edge with this number from this node is marked.
    pub(crate) fn has(&self, node: usize, number: usize) -> bool
        ensures { result ≡ has_mark self.now node number }
    {
        node < self.rows.len() && is_in(self.rows[node].as_slice(), number)
    }
}

/// Whether a number is one of these.
fn is_in(numbers: &[usize], number: usize) -> bool
    ensures { result ≡ list_any (λ n. n == number) numbers.now }
{
    numbers.iter().any(|one| *one == number)
}
