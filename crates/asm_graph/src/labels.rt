//! What is in nodes.
ghost use Rattle.std.specs.Prelude.{◌≡◌, ◌<◌, ◌++◌, ◌∷◌, [], false, true, length, slice_index_or, IfOk, OnOk, codes};
ghost use Rattle.std.specs.List.{flat_map};
ghost use Rattle.asm_state.specs.Signature.{count_of, location_at, state_of};
ghost use Rattle.asm_state.specs.declared.value.Value.TheVariants.{Undef};
ghost use Rattle.asm_syntax.specs.code.Views.{spec_of};
ghost use Rattle.asm_check.specs.Shapes.{shape_of};
ghost use Rattle.asm_graph.specs.Graphs.{state_at};
ghost use Rattle.asm_explore_table.specs.code.StepsMade.{names_said};
ghost use Rattle.asm_graph.specs.Labels.{location_text, node_label, shortened, shown_lines, state_lines, value_text};
ghost use Rattle.asm_graph.specs.code.ShownLocations.{IsOfNames};

use crate::graph::{Node, Step};
use crate::location_text::{is_content, push_content};
use asm_check::Checked;
use asm_state::state::State;
use std::alloc::{AllocError, Global};

/// How many locations of a state are shown.
const MAX_LOCATIONS_SHOWN: usize = 12;

/// What nodes are written by.
#[derive(Clone, Copy)]
pub(crate) struct NodeTexts<'a> {
    pub(crate) checked: &'a Checked,
    /// The functions and locations that are shown; if there are none, all are.
    pub(crate) names: &'a [&'a str],
    /// Of each location whether it is shown.
    pub(crate) shown: &'a [bool],
}

/// Whether the location with this number has a line: it is shown, proper, and isn't undef.
fn has_line(texts: &NodeTexts<'_>, state: &State, n: usize) -> bool
    requires whole { length state.now ≡ count_of (shape_of (spec_of texts.now.checked.now.spec)) }
    requires of_names { IsOfNames texts.now }
    requires in_range { n < length state.now }
    ensures shown { let s = spec_of texts.now.checked.now.spec in let l = location_at (shape_of s) n in result ≡ true →
        shown_lines s (names_said texts.now.names.now) (state_of (shape_of s) state.now) l ≡ (location_text s l ++ (codes " = " ++ value_text s (slice_index_or state.now n Undef))) ∷ [] }
    ensures hidden { let s = spec_of texts.now.checked.now.spec in let l = location_at (shape_of s) n in result ≡ false →
        shown_lines s (names_said texts.now.names.now) (state_of (shape_of s) state.now) l ≡ [] }
{
    texts.shown[n] && is_content(texts.checked, state, n)
}

/// Adds a line for each location that is shown and isn't undef, in their order;
/// `MAX_LOCATIONS_SHOWN` of them are shown.
fn add_state(
    alloc: Global,
    label: &mut Vec<u8>,
    texts: &NodeTexts<'_>,
    state: &State,
) -> Result<(), AllocError>
    requires whole { length state.now ≡ count_of (shape_of (spec_of texts.now.checked.now.spec)) }
    requires of_names { IsOfNames texts.now }
    ensures { let s = spec_of texts.now.checked.now.spec in
        OnOk result (label.new.items ≡ label.old.items ++ flat_map (λ line. codes "\n" ++ line) (shortened (state_lines s (names_said texts.now.names.now) (state_of (shape_of s) state.now)))) }
{
    let checked = texts.checked;
    let mut lines = 0usize;
    for n in 0..checked.signature().count() {
        if has_line(texts, state, n) {
            label.extend_from_slice(b"\n")?;
            if lines >= MAX_LOCATIONS_SHOWN {
                return label.extend_from_slice(b"..");
            }
            push_content(alloc, label, checked, state, n)?;
            lines += 1;
        }
    }
    Ok(())
}

/// What is in a node: its number, and what the locations hold that are shown.
pub(crate) fn label_of_node(
    alloc: Global,
    texts: &NodeTexts<'_>,
    number: usize,
    node: &Node,
    step: &Step,
) -> Result<Vec<u8>, AllocError>
    requires whole { length node.now.state ≡ count_of (shape_of (spec_of texts.now.checked.now.spec)) }
    requires of_names { IsOfNames texts.now }
    ensures { let s = spec_of texts.now.checked.now.spec in
        IfOk result (λ label. label.items ≡ node_label s (names_said texts.now.names.now) number (state_at (shape_of s) node.now) step.now) }
{
    let mut label = format!(in alloc; "{number}")?.into_bytes();
    add_state(alloc, &mut label, texts, &node.state)?;
    match step {
        Step::Crowded => label.extend_from_slice(b"\ntoo many outcomes")?,
        Step::Cut | Step::Edges(_) => {}
    }
    Ok(label)
}
