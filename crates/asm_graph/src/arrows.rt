//! The edges of a graph with what is written at them.
ghost use Rattle.std.specs.Prelude.{◌≡◌, ◌++◌, ℕ, List, Some, length, IfOk, OnOk};
ghost use Rattle.asm_state.specs.Signature.{count_of, state_of};
ghost use Rattle.asm_syntax.specs.code.Views.{rule_of, spec_of};
ghost use Rattle.asm_check.specs.Shapes.{shape_of};
ghost use Rattle.asm_step.specs.code.Steps.{HasMainRule, shape_in};
ghost use Rattle.asm_explore.specs.ListElements.{Each};
ghost use Rattle.asm_explore.specs.RunChoices.{asked_said};
ghost use Rattle.asm_explore.specs.code.AskedPieces.{all_said};
ghost use Rattle.asm_explore_texts.specs.Places.{variable_of};
ghost use Rattle.asm_explore_texts.specs.code.TextPlaces.{elements_said, place_said};
ghost use Rattle.asm_graph.specs.Arrows.{DrawnEdge, asked_along, chosen_text, edges_in, edges_of, elements_text, given_text, label_text, name_text};
ghost use Rattle.asm_graph.specs.Arrows as text;
ghost use Rattle.asm_graph.specs.Graphs.{Pairs};
ghost use Rattle.asm_graph.specs.code.DrawnArrows.{AreArrows, IsArrow};
ghost use Rattle.asm_graph.specs.code.EdgeMarks.{AreMarks};
ghost use Rattle.asm_graph.specs.declared.graph.Node.{Node};

use crate::arrow::Arrow;
use crate::edge_marks::EdgeMarks;
use crate::edge_script::EdgeScript;
use crate::graph::{Edge, Graph, Node, Step};
use crate::location_text::push_value;
use asm_check::Checked;
use asm_eval::Choices;
use asm_explore::{ChoicePoint, choices_of_step};
use asm_explore_texts::rule_in_text::{PlaceInText, place_in_text};
use asm_resolve::main_rule::resolve_main;
use asm_state::state::State;
use asm_state::word::Word;
use asm_step::ResolvedSpecification;
use asm_syntax::name::Name;
use asm_syntax::rule::Rule;
use std::alloc::{AllocError, Global};

/// Adds a name and its value.
fn push_given(
    alloc: Global,
    label: &mut Vec<u8>,
    checked: &Checked,
    name: &[u8],
    value: Word,
) -> Result<(), AllocError>
    ensures { OnOk result (label.new.items ≡ label.old.items ++ given_text (spec_of checked.now.spec) (name.now, value)) }
{
    label.extend_from_slice(name)?;
    label.extend_from_slice(b" = ")?;
    push_value(alloc, label, checked, value)?;
    Ok(())
}

/// Adds elements of foralls, each behind its variable, and what stands behind them, if there are
/// any.
fn push_elements(
    alloc: Global,
    label: &mut Vec<u8>,
    checked: &Checked,
    variables: &[&Name],
    elements: &[Word],
) -> Result<(), AllocError>
    ensures { OnOk result (label.new.items ≡ label.old.items ++ elements_text (spec_of checked.now.spec) (elements_said variables.now elements.now)) }
{
    let count = variables.len().min(elements.len());
    if count == 0 {
        return Ok(());
    }
    for k in 0..count {
        if k > 0 {
            label.extend_from_slice(b", ")?;
        }
        let name = variables[k].text.as_bytes();
        push_given(alloc, label, checked, name, elements[k])?;
    }
    label.extend_from_slice(b": ")?;
    Ok(())
}

/// The name of the variable of a rule, if it is a `choose`.
fn name_in<'c>(rule: &'c Rule) -> &'c [u8]
    ensures { result.now ≡ name_text (variable_of (rule_of rule.now)) }
{
    match rule {
        Rule::Choose { name, .. } => name.text.as_bytes(),
        _ => &[],
    }
}

/// Adds a value that the `choose` at a place takes.
fn push_taken(
    alloc: Global,
    label: &mut Vec<u8>,
    checked: &Checked,
    place: &PlaceInText<'_>,
    value: Word,
) -> Result<(), AllocError>
    ensures { OnOk result (label.new.items ≡ label.old.items ++ text.taken_text (spec_of checked.now.spec) (Some (place_said place.now)) value) }
{
    let (variables, elements) = (place.variables.as_slice(), place.elements.as_slice());
    push_elements(alloc, label, checked, variables, elements)?;
    push_given(alloc, label, checked, name_in(place.rule), value)?;
    Ok(())
}

/// The candidate that is taken.
fn taken(asked: &ChoicePoint) -> Word
    ensures { result ≡ text.taken (asked_said asked.now) }
{
    let number = asked.choice.number as usize;
    match asked.candidates.get(number) {
        Some(value) => *value,
        None => Word::undef(),
    }
}

/// Adds what a `choose` takes.
fn push_chosen(
    alloc: Global,
    label: &mut Vec<u8>,
    checked: &Checked,
    asked: &ChoicePoint,
) -> Result<(), AllocError>
    ensures { OnOk result (label.new.items ≡ label.old.items ++ chosen_text (spec_of checked.now.spec) (asked_said asked.now)) }
{
    let value = taken(asked);
    match place_in_text(alloc, checked, asked.choice.path.as_slice())? {
        Some(place) => push_taken(alloc, label, checked, &place, value),
        None => push_given(alloc, label, checked, &[], value),
    }
}

/// What is chosen in a step, each in a line of its own.
fn label_of(alloc: Global, checked: &Checked, asked: &[ChoicePoint]) -> Result<Vec<u8>, AllocError>
    ensures { IfOk result (λ label. label.items ≡ label_text (spec_of checked.now.spec) (all_said asked.now)) }
{
    let mut label = Vec::new(alloc);
    for k in 0..asked.len() {
        if k > 0 {
            label.extend_from_slice(b"\n")?;
        }
        push_chosen(alloc, &mut label, checked, &asked[k])?;
    }
    Ok(label)
}

/// What the edges of a specification are drawn by.
#[derive(Clone, Copy)]
struct Drawing<'a> {
    alloc: Global,
    resolved: &'a ResolvedSpecification<'a>,
    /// The edges that are red.
    marks: &'a EdgeMarks,
}

impl<'a> Drawing<'a> {
    /// What is written at an edge that leads from a state.
    fn label(&self, state: &State, edge: &Edge) -> Result<Vec<u8>, AllocError>
        requires main { HasMainRule self.now.resolved.now }
        requires whole { length state.now ≡ count_of (shape_in self.now.resolved.now) }
        ensures { let s = spec_of self.now.resolved.now.checked.now.spec in
            IfOk result (λ label. label.items ≡ label_text s (asked_along s self.now.resolved.now.turns (state_of (shape_of s) state.now) edge.now)) }
    {
        let resolved = self.resolved;
        let script = EdgeScript {
            choices: edge.choices.as_slice(),
        };
        let choices = Choices {
            script: &script,
            step: 1,
        };
        let asked = choices_of_step(
            self.alloc,
            resolved.checked,
            resolved.code,
            resolved.turns,
            &choices,
            state,
        )?;
        let label = label_of(self.alloc, resolved.checked, asked.as_slice())?;
        Ok(label)
    }

    /// Adds the edges from a node.
    fn add_edges(
        &self,
        number: usize,
        node: &Node,
        edges: &[Edge],
        arrows: &mut Vec<Arrow>,
    ) -> Result<(), AllocError>
        requires main { HasMainRule self.now.resolved.now }
        requires whole { length node.now.state ≡ count_of (shape_in self.now.resolved.now) }
        ensures { let m = self.now.resolved.now in let s = spec_of m.checked.now.spec in
            (path : List (ℕ × ℕ)) → AreMarks path self.now.marks.now → (before : List DrawnEdge) → Pairs (IsArrow s m.turns path) before arrows.old.items
            → OnOk result (Pairs (IsArrow s m.turns path) (before ++ edges_in number node.now edges.now) arrows.new.items) }
    {
        for k in 0..edges.len() {
            let edge = &edges[k];
            let label = self.label(&node.state, edge)?;
            let is_red = self.marks.has(number, k);
            arrows.push(Arrow {
                from: number,
                to: edge.to,
                label,
                is_red,
            })?;
        }
        Ok(())
    }

    /// Adds the edges from a node, if they are shown.
    fn add_step(
        &self,
        number: usize,
        node: &Node,
        step: &Step,
        arrows: &mut Vec<Arrow>,
    ) -> Result<(), AllocError>
        requires main { HasMainRule self.now.resolved.now }
        requires whole { length node.now.state ≡ count_of (shape_in self.now.resolved.now) }
        ensures { let m = self.now.resolved.now in let s = spec_of m.checked.now.spec in
            (path : List (ℕ × ℕ)) → AreMarks path self.now.marks.now → (before : List DrawnEdge) → Pairs (IsArrow s m.turns path) before arrows.old.items
            → OnOk result (Pairs (IsArrow s m.turns path) (before ++ edges_of number node.now step.now) arrows.new.items) }
    {
        match step {
            Step::Edges(edges) => self.add_edges(number, node, edges.as_slice(), arrows),
            Step::Cut | Step::Crowded => Ok(()),
        }
    }

    /// The edges from all nodes.
    fn arrows(&self, nodes: &[Node], steps: &[Step]) -> Result<Vec<Arrow>, AllocError>
        requires main { HasMainRule self.now.resolved.now }
        requires whole { Each (λ (n : Node). length n.state ≡ count_of (shape_in self.now.resolved.now)) nodes.now }
        requires paired { length steps.now ≡ length nodes.now }
        ensures { let m = self.now.resolved.now in let s = spec_of m.checked.now.spec in
            (path : List (ℕ × ℕ)) → AreMarks path self.now.marks.now → IfOk result (λ arrows. AreArrows s m.turns path nodes.now steps.now arrows.items) }
    {
        let mut arrows = Vec::new(self.alloc);
        for number in 0..nodes.len() {
            self.add_step(number, &nodes[number], &steps[number], &mut arrows)?;
        }
        Ok(arrows)
    }
}

/// The edges of a graph of a specification, in order, with what is written at them. Those that are
/// marked are red.
pub(crate) fn arrows(
    alloc: Global,
    checked: &Checked,
    turns: u32,
    graph: &Graph,
    marks: &EdgeMarks,
) -> Result<Vec<Arrow>, AllocError>
    requires whole { Each (λ (n : Node). length n.state ≡ count_of (shape_of (spec_of checked.now.spec))) graph.now.nodes.items }
    requires paired { length graph.now.steps.items ≡ length graph.now.nodes.items }
    ensures { (path : List (ℕ × ℕ)) → AreMarks path marks.now →
        IfOk result (λ arrows. AreArrows (spec_of checked.now.spec) turns path graph.now.nodes.items graph.now.steps.items arrows.items) }
{
    let code = resolve_main(alloc, checked)?;
    let resolved = ResolvedSpecification {
        checked,
        code: &code,
        turns,
    };
    let drawing = Drawing {
        alloc,
        resolved: &resolved,
        marks,
    };
    let arrows = drawing.arrows(graph.nodes.as_slice(), graph.steps.as_slice());
    drop(code);
    arrows
}
