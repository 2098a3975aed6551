//! The text of a graph for Graphviz.
ghost use Rattle.std.specs.Prelude.{◌≡◌, ◌++◌, ℕ, List, codes, length, IfOk, OnOk};
ghost use Rattle.std.specs.String.{string_bytes};
ghost use Rattle.std.specs.List.{flat_map, list_any};
ghost use Rattle.asm_state.specs.Signature.{count_of};
ghost use Rattle.asm_syntax.specs.code.Views.{spec_of};
ghost use Rattle.asm_check.specs.Shapes.{shape_of};
ghost use Rattle.asm_explore.specs.ListElements.{Each};
ghost use Rattle.asm_explore_table.specs.code.StepsMade.{names_said};
ghost use Rattle.asm_graph.specs.Dot as text;
ghost use Rattle.asm_graph.specs.code.DrawnArrows.{drawn_line};
ghost use Rattle.asm_graph.specs.code.EdgeMarks.{AreMarks};
ghost use Rattle.asm_graph.specs.code.ShownLocations.{IsOfNames};
ghost use Rattle.asm_graph.specs.declared.graph.Node.{Node};

use crate::arrow::Arrow;
use crate::arrows::arrows;
use crate::edge_marks::EdgeMarks;
use crate::escaped::push_quoted;
use crate::graph::{Edge, EdgeEnd, Graph, Node, Step, StepFault};
use crate::labels::{NodeTexts, label_of_node};
use crate::named_locations::shown_locations;
use crate::quiet::is_quiet;
use asm_check::Checked;
use std::alloc::{AllocError, Global};

/// Adds a double border round the first node.
fn add_first_mark(dot: &mut String, number: usize) -> Result<(), AllocError>
    ensures { OnOk result (string_bytes dot.new ≡ string_bytes dot.old ++ text.first_mark number) }
{
    if number == 0 {
        dot.push_str(", peripheries=2")
    } else {
        Ok(())
    }
}

/// Adds that a node or an edge is red, if it is.
fn add_red_mark(dot: &mut String, is_red: bool) -> Result<(), AllocError>
    ensures { OnOk result (string_bytes dot.new ≡ string_bytes dot.old ++ text.red_mark is_red) }
{
    if is_red {
        dot.push_str(", color=red, fontcolor=red")
    } else {
        Ok(())
    }
}

/// Adds that a node is red, if what is to hold doesn't.
fn add_wrong_mark(dot: &mut String, quiet: bool, node: &Node) -> Result<(), AllocError>
    ensures { OnOk result (string_bytes dot.new ≡ string_bytes dot.old ++ text.wrong_mark quiet node.now) }
{
    add_red_mark(dot, !node.right || quiet && !node.rests)
}

/// Adds that a node is grey, if it is quiet, or has a dashed border, if no edges are shown.
fn add_style(dot: &mut String, quiet: bool, step: &Step) -> Result<(), AllocError>
    ensures { OnOk result (string_bytes dot.new ≡ string_bytes dot.old ++ text.style quiet step.now) }
{
    match step {
        Step::Edges(_) if quiet => dot.push_str(", style=filled, fillcolor=lightgrey"),
        Step::Edges(_) => Ok(()),
        Step::Cut | Step::Crowded => dot.push_str(", style=dashed"),
    }
}

/// Adds what comes after the label of a node.
fn add_marks(dot: &mut String, number: usize, node: &Node, step: &Step) -> Result<(), AllocError>
    ensures { OnOk result (string_bytes dot.new ≡ string_bytes dot.old ++ text.marks number node.now step.now) }
{
    let quiet = is_quiet(step, number);
    add_first_mark(dot, number)?;
    add_wrong_mark(dot, quiet, node)?;
    add_style(dot, quiet, step)
}

/// Adds the line of a node.
fn add_node(
    alloc: Global,
    dot: &mut String,
    texts: &NodeTexts<'_>,
    number: usize,
    node: &Node,
    step: &Step,
) -> Result<(), AllocError>
    requires whole { length node.now.state ≡ count_of (shape_of (spec_of texts.now.checked.now.spec)) }
    requires of_names { IsOfNames texts.now }
    ensures { OnOk result (string_bytes dot.new ≡ string_bytes dot.old ++ text.node_line (spec_of texts.now.checked.now.spec) (names_said texts.now.names.now) number node.now step.now) }
{
    let head = format!(in alloc; "  s{number} [label=")?;
    dot.push_str(head.as_str())?;
    let label = label_of_node(alloc, texts, number, node, step)?;
    push_quoted(dot, label.as_slice())?;
    add_marks(dot, number, node, step)?;
    dot.push_str("];\n")
}

/// Adds the lines of the nodes.
fn add_nodes(
    alloc: Global,
    dot: &mut String,
    texts: &NodeTexts<'_>,
    nodes: &[Node],
    steps: &[Step],
) -> Result<(), AllocError>
    requires whole { Each (λ (n : Node). length n.state ≡ count_of (shape_of (spec_of texts.now.checked.now.spec))) nodes.now }
    requires paired { length steps.now ≡ length nodes.now }
    requires of_names { IsOfNames texts.now }
    ensures { OnOk result (string_bytes dot.new ≡ string_bytes dot.old ++ text.node_lines (spec_of texts.now.checked.now.spec) (names_said texts.now.names.now) 0 nodes.now steps.now) }
{
    for number in 0..nodes.len() {
        add_node(alloc, dot, texts, number, &nodes[number], &steps[number])?;
    }
    Ok(())
}

/// What a fault is called.
fn fault_name(fault: StepFault) -> &'static str
    ensures { result.now ≡ text.fault_name fault }
{
    match fault {
        StepFault::Clash => "clash",
        StepFault::Outside => "outside",
        StepFault::Exhausted => "exhausted",
    }
}

/// Whether an edge has this fault.
fn ends_in(edge: &Edge, fault: StepFault) -> bool
    ensures { result ≡ text.is_fault fault edge.now.to }
{
    match edge.to {
        EdgeEnd::Fault(found) => found == fault,
        EdgeEnd::Node(_) => false,
    }
}

/// Whether some edge has this fault.
fn some_ends_in(edges: &[Edge], fault: StepFault) -> bool
    ensures { result ≡ list_any (λ e. text.is_fault fault e.to) edges.now }
{
    edges.iter().any(|edge| ends_in(edge, fault))
}

/// Whether some edge of a step has this fault.
fn has_fault(step: &Step, fault: StepFault) -> bool
    ensures { result ≡ text.has_fault fault step.now }
{
    match step {
        Step::Edges(edges) => some_ends_in(edges.as_slice(), fault),
        Step::Cut | Step::Crowded => false,
    }
}

/// Whether some edge of some step has this fault.
fn some_has_fault(steps: &[Step], fault: StepFault) -> bool
    ensures { result ≡ list_any (text.has_fault fault) steps.now }
{
    steps.iter().any(|step| has_fault(step, fault))
}

/// Adds the line of a fault, if some edge has it.
fn add_fault(dot: &mut String, steps: &[Step], fault: StepFault) -> Result<(), AllocError>
    ensures { OnOk result (string_bytes dot.new ≡ string_bytes dot.old ++ text.fault_line steps.now fault) }
{
    if !some_has_fault(steps, fault) {
        return Ok(());
    }
    dot.push_str("  ")?;
    dot.push_str(fault_name(fault))?;
    dot.push_str(" [shape=octagon, color=red, fontcolor=red];\n")
}

/// Adds a line for each fault that some edge has.
fn add_faults(dot: &mut String, steps: &[Step]) -> Result<(), AllocError>
    ensures { OnOk result (string_bytes dot.new ≡ string_bytes dot.old ++ flat_map (text.fault_line steps.now) text.faults) }
{
    add_fault(dot, steps, StepFault::Clash)?;
    add_fault(dot, steps, StepFault::Outside)?;
    add_fault(dot, steps, StepFault::Exhausted)
}

/// Adds where an edge leads.
fn add_end(alloc: Global, dot: &mut String, to: EdgeEnd) -> Result<(), AllocError>
    ensures { OnOk result (string_bytes dot.new ≡ string_bytes dot.old ++ text.end_name to) }
{
    match to {
        EdgeEnd::Node(number) => {
            let name = format!(in alloc; "s{number}")?;
            dot.push_str(name.as_str())
        }
        EdgeEnd::Fault(fault) => dot.push_str(fault_name(fault)),
    }
}

/// Adds the label of an edge, and what stands behind it.
fn add_arrow_label(dot: &mut String, arrow: &Arrow) -> Result<(), AllocError>
    ensures { OnOk result (string_bytes dot.new ≡ string_bytes dot.old ++ (text.quoted arrow.now.label.items ++ (text.red_mark arrow.now.is_red ++ codes "];\n"))) }
{
    push_quoted(dot, arrow.label.as_slice())?;
    add_red_mark(dot, arrow.is_red)?;
    dot.push_str("];\n")
}

/// Adds the line of an edge.
fn add_arrow(alloc: Global, dot: &mut String, arrow: &Arrow) -> Result<(), AllocError>
    ensures { OnOk result (string_bytes dot.new ≡ string_bytes dot.old ++ drawn_line arrow.now) }
{
    let number = arrow.from;
    let head = format!(in alloc; "  s{number} -> ")?;
    dot.push_str(head.as_str())?;
    add_end(alloc, dot, arrow.to)?;
    dot.push_str(" [label=")?;
    add_arrow_label(dot, arrow)
}

/// Adds the lines of edges.
fn add_arrows(alloc: Global, dot: &mut String, arrows: &[Arrow]) -> Result<(), AllocError>
    ensures { OnOk result (string_bytes dot.new ≡ string_bytes dot.old ++ flat_map drawn_line arrows.now) }
{
    for arrow in arrows {
        add_arrow(alloc, dot, arrow)?;
    }
    Ok(())
}

/// The text of a graph whose nodes show what these names name, and whose edges are drawn so.
fn text_of(
    alloc: Global,
    checked: &Checked,
    names: &[&str],
    graph: &Graph,
    arrows: &[Arrow],
) -> Result<String, AllocError>
    requires whole { Each (λ (n : Node). length n.state ≡ count_of (shape_of (spec_of checked.now.spec))) graph.now.nodes.items }
    requires paired { length graph.now.steps.items ≡ length graph.now.nodes.items }
    ensures { IfOk result (λ dot. string_bytes dot ≡ text.dot_of (spec_of checked.now.spec) (names_said names.now) graph.now (flat_map drawn_line arrows.now)) }
{
    let shown = shown_locations(alloc, checked, names)?;
    let texts = NodeTexts {
        checked,
        names,
        shown: shown.as_slice(),
    };
    let mut dot = String::from_str(alloc, "digraph ")?;
    push_quoted(&mut dot, checked.spec.name.text.as_bytes())?;
    dot.push_str(" {\n  node [shape=box];\n")?;
    let (nodes, steps) = (graph.nodes.as_slice(), graph.steps.as_slice());
    add_nodes(alloc, &mut dot, &texts, nodes, steps)?;
    add_faults(&mut dot, steps)?;
    add_arrows(alloc, &mut dot, arrows)?;
    dot.push_str("}\n")?;
    Ok(dot)
}

/// The text of a graph of a specification, for Graphviz: a line for each node, in order, then one
/// for each fault that some edge has, and then one for each edge, in order, with the names of the
/// specification's text. Nodes show the locations that these names name, or all if there are no
/// names. Edges that are marked are red. Its last line alone is `}`, so that one that is cut off is
/// seen to be.
pub fn dot_text(
    alloc: Global,
    checked: &Checked,
    names: &[&str],
    turns: u32,
    graph: &Graph,
    marks: &EdgeMarks,
) -> Result<String, AllocError>
    requires whole { Each (λ (n : Node). length n.state ≡ count_of (shape_of (spec_of checked.now.spec))) graph.now.nodes.items }
    requires paired { length graph.now.steps.items ≡ length graph.now.nodes.items }
    ensures { (path : List (ℕ × ℕ)) → AreMarks path marks.now → IfOk result (λ dot. text.IsDotOf (spec_of checked.now.spec) (names_said names.now) turns path graph.now (string_bytes dot)) }
{
    let arrows = arrows(alloc, checked, turns, graph, marks)?;
    let dot = text_of(alloc, checked, names, graph, arrows.as_slice())?;
    Ok(dot)
}
