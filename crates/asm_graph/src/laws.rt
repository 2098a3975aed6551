//! Laws of graphs.
ghost use Rattle.asm_graph.specs.Arrows.{AlongLaw};
ghost use Rattle.asm_graph.specs.Dot.{QuotedLaw};
ghost use Rattle.asm_graph.specs.Graphs.{QuietLaw};
ghost use Rattle.asm_graph.specs.Labels.{NamedLaw};
ghost use Rattle.asm_graph.specs.WayLaw.{WayLaw};

use asm_explore::laws::{making_laws, script_law};

/// If each edge from a node leads back to it, its state is quiet: no step changes it, whatever
/// is chosen.
pub fn quiet_law()
    ensures { QuietLaw }
{}

/// A text within quotes, as it is written, ends at the quote behind it and at none before.
pub fn quoted_law()
    ensures { QuotedLaw }
{}

/// What a node writes of a location is a name of it.
pub fn named_law()
    ensures { NamedLaw }
{}

/// The step in which what is written at an edge is asked leads where the edge does.
pub fn along_law()
    ensures { AlongLaw }
{
    script_law();
}

/// The edges of a graph that a run takes are those of the run, as far as they go: each has just the
/// choices that the run makes in its step, and leads where the run goes. They end with the run's
/// steps, at its fault, at a node whose step isn't shown, or where no edge's choices are taken; then
/// one of the edges leads where the run goes.
pub fn way_law()
    ensures { WayLaw }
{
    making_laws();
}
