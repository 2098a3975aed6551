//! What a table of a run has to have room for: found by making the run once.
ghost use Rattle.std.specs.Prelude.{◌≡◌, ◌<◌, ◌≤◌, ◌+◌, ◌^◌, ◌||◌, [], ℕ, false, length, map, max, not, slice_index_or, IfOk, IfSome, OnOk};
ghost use Rattle.asm_state.specs.Operation.{is_same};
ghost use Rattle.asm_state.specs.Signature.{count_of, location_at, state_of};
ghost use Rattle.asm_state.specs.code.Contents.{IsStateOf};
ghost use Rattle.asm_syntax.specs.code.Views.{spec_of};
ghost use Rattle.asm_check.specs.Shapes.{shape_of};
ghost use Rattle.asm_meaning.specs.Declarations.{specification_of};
ghost use Rattle.asm_step.specs.code.Steps.{HasMainRule, shape_in};
ghost use Rattle.asm_explore.specs.RunChoices.{asked_said};
ghost use Rattle.asm_explore_texts.specs.Comments.{lines_of};
ghost use Rattle.asm_explore_table.specs.ChosenTexts.{chosen_lines as lines_of_choices};
ghost use Rattle.asm_explore_table.specs.Rows.{asks, rows_of};
ghost use Rattle.asm_explore_table.specs.Tables.{cell as cell_text, numbered, shown_value};
ghost use Rattle.asm_explore_table.specs.code.Extents.{AreShort, HasRoom, IsExtentOf, IsWidened, width_in};
ghost use Rattle.asm_explore_table.specs.code.StepsMade.{row_said};

use crate::cells::{is_same_value, push_shown};
use crate::changes::note_changes;
use crate::chosen_lines::chosen_lines;
use crate::step_row::{StepRow, step_row};
use asm_check::Checked;
use asm_reader::Picks;
use asm_state::state::State;
use asm_step::ResolvedSpecification;
use std::alloc::{AllocError, Global};

/// How wide a cell is whose value is as before.
const SAME_WIDTH: usize = 1;

/// What the rows of a run have.
#[derive(Drop)]
pub(crate) struct Extent {
    /// Of each location whether it changes.
    pub(crate) changed: Vec<bool>,
    /// How wide its widest cell is.
    pub(crate) widths: Vec<usize>,
    /// Whether some step asks something.
    pub(crate) chooses: bool,
    /// How long the longest line is of what is chosen in a step.
    pub(crate) chosen_width: usize,
    /// How many rows follow that of the first state.
    pub(crate) steps: u64,
}

/// The greatest length of some lines, and this one.
fn longest(most: usize, lines: &[Vec<u8>]) -> usize
    ensures most { most ≤ result }
    ensures lines { AreShort result (lines_of lines.now) }
{
    let mut longest = most;
    for k in 0..lines.len() {
        longest = longest.max(lines[k].len());
    }
    longest
}

/// How wide the cells of the first row are.
fn first_widths(alloc: Global, checked: &Checked, state: &State) -> Result<Vec<usize>, AllocError>
    requires { IsStateOf (shape_of (spec_of checked.now.spec)) state.now }
    ensures whole { IfOk result (λ widths. length widths.items ≡ count_of (shape_of (spec_of checked.now.spec))) }
    ensures wide { let s = spec_of checked.now.spec in IfOk result (λ widths. (n : ℕ) → n < count_of (shape_of s) →
        slice_index_or widths.items n 0 ≡ length (shown_value s (state_of (shape_of s) state.now (numbered s n)))) }
{
    let mut widths = Vec::new(alloc);
    let mut cell = Vec::new(alloc);
    for n in 0..checked.signature().count() {
        cell.clear();
        push_shown(&mut cell, checked, state.content(n))?;
        widths.push(cell.len())?;
    }
    Ok(widths)
}

/// How wide the cell is of the location with this number.
fn cell_width(
    cell: &mut Vec<u8>,
    checked: &Checked,
    before: &State,
    after: &State,
    n: usize,
) -> Result<usize, AllocError>
    requires before { IsStateOf (shape_of (spec_of checked.now.spec)) before.now }
    requires after { IsStateOf (shape_of (spec_of checked.now.spec)) after.now }
    requires within { n < count_of (shape_of (spec_of checked.now.spec)) }
    ensures { let s = spec_of checked.now.spec in let shape = shape_of s in
        IfOk result (λ wide. wide ≡ length (cell_text s (state_of shape before.now) (state_of shape after.now) n)) }
{
    let (old, new) = (before.content(n), after.content(n));
    if is_same_value(old, new) {
        return Ok(SAME_WIDTH);
    }
    cell.clear();
    push_shown(cell, checked, new)?;
    Ok(cell.len())
}

/// Makes room for the cells of a step.
fn widen_for_next(
    alloc: Global,
    checked: &Checked,
    widths: &mut [usize],
    before: &State,
    after: &State,
) -> Result<(), AllocError>
    requires whole { length widths.old ≡ count_of (shape_of (spec_of checked.now.spec)) }
    requires before { IsStateOf (shape_of (spec_of checked.now.spec)) before.now }
    requires after { IsStateOf (shape_of (spec_of checked.now.spec)) after.now }
    ensures whole { length widths.new ≡ length widths.old }
    ensures wide { let s = spec_of checked.now.spec in OnOk result ((n : ℕ) → n < length widths.old →
        slice_index_or widths.new n 0 ≡ max (slice_index_or widths.old n 0) (length (cell_text s (state_of (shape_of s) before.now) (state_of (shape_of s) after.now) n))) }
{
    let mut cell = Vec::new(alloc);
    for n in 0..widths.len() {
        widths[n] = widths[n].max(cell_width(&mut cell, checked, before, after, n)?);
    }
    Ok(())
}

/// So many times false.
fn nothing_changed(alloc: Global, count: usize) -> Result<Vec<bool>, AllocError>
    ensures whole { IfOk result (λ changed. length changed.items ≡ count) }
    ensures none { IfOk result (λ changed. (n : ℕ) → slice_index_or changed.items n false ≡ false) }
{
    let mut changed = Vec::new(alloc);
    for _ in 0..count {
        changed.push(false)?;
    }
    Ok(changed)
}

impl Extent {
    /// That of the first row alone.
    fn of_first(alloc: Global, checked: &Checked, state: &State) -> Result<Extent, AllocError>
        requires { IsStateOf (shape_of (spec_of checked.now.spec)) state.now }
        ensures whole { IfOk result (HasRoom (count_of (shape_of (spec_of checked.now.spec)))) }
        ensures found { let s = spec_of checked.now.spec in IfOk result (λ e. IsExtentOf s (state_of (shape_of s) state.now) e []) }
    {
        let changed = nothing_changed(alloc, checked.signature().count())?;
        let widths = first_widths(alloc, checked, state)?;
        Ok(Extent {
            changed,
            widths,
            chooses: false,
            chosen_width: 0,
            steps: 0,
        })
    }

    /// Makes room for what is chosen in a step.
    fn add_chosen(
        &mut self,
        alloc: Global,
        checked: &Checked,
        row: &StepRow,
    ) -> Result<(), AllocError>
        ensures changed { self.new.changed ≡ self.old.changed }
        ensures widths { self.new.widths ≡ self.old.widths }
        ensures steps { self.new.steps ≡ self.old.steps }
        ensures chooses { OnOk result (self.new.chooses ≡ (self.old.chooses || asks (map asked_said row.now.asked.items))) }
        ensures wider { OnOk result (self.old.chosen_width ≤ self.new.chosen_width) }
        ensures wide { OnOk result (AreShort self.new.chosen_width (lines_of_choices (spec_of checked.now.spec) (map asked_said row.now.asked.items))) }
    {
        if row.asked.is_empty() {
            return Ok(());
        }
        let lines = chosen_lines(alloc, checked, row.asked.as_slice())?;
        self.chooses = true;
        self.chosen_width = longest(self.chosen_width, lines.as_slice());
        Ok(())
    }

    /// Makes room for the cells of a step.
    fn add_cells(
        &mut self,
        alloc: Global,
        checked: &Checked,
        before: &State,
        after: &State,
    ) -> Result<(), AllocError>
        requires whole { HasRoom (count_of (shape_of (spec_of checked.now.spec))) self.old }
        requires before { IsStateOf (shape_of (spec_of checked.now.spec)) before.now }
        requires after { IsStateOf (shape_of (spec_of checked.now.spec)) after.now }
        ensures whole { OnOk result (HasRoom (count_of (shape_of (spec_of checked.now.spec))) self.new) }
        ensures changed { let shape = shape_of (spec_of checked.now.spec) in
            OnOk result ((n : ℕ) → n < count_of shape → slice_index_or self.new.changed.items n false
            ≡ (slice_index_or self.old.changed.items n false || not (is_same (state_of shape before.now (location_at shape n)) (state_of shape after.now (location_at shape n))))) }
        ensures wide { let s = spec_of checked.now.spec in
            OnOk result ((n : ℕ) → n < count_of (shape_of s) → width_in self.new n
            ≡ max (width_in self.old n) (length (cell_text s (state_of (shape_of s) before.now) (state_of (shape_of s) after.now) n))) }
        ensures chooses { self.new.chooses ≡ self.old.chooses }
        ensures chosen { self.new.chosen_width ≡ self.old.chosen_width }
        ensures steps { self.new.steps ≡ self.old.steps }
    {
        note_changes(self.changed.as_mut_slice(), before, after);
        widen_for_next(alloc, checked, self.widths.as_mut_slice(), before, after)
    }

    /// Makes room for the row of a step.
    fn add(
        &mut self,
        alloc: Global,
        checked: &Checked,
        before: &State,
        row: &StepRow,
    ) -> Result<(), AllocError>
        requires whole { HasRoom (count_of (shape_of (spec_of checked.now.spec))) self.old }
        requires steps { self.old.steps < 2 ^ 32 }
        requires before { IsStateOf (shape_of (spec_of checked.now.spec)) before.now }
        requires after { IfSome row.now.next (IsStateOf (shape_of (spec_of checked.now.spec))) }
        ensures whole { OnOk result (HasRoom (count_of (shape_of (spec_of checked.now.spec))) self.new) }
        ensures added { let s = spec_of checked.now.spec in
            OnOk result (IsWidened s self.old (row_said (shape_of s) before.now row.now) self.new) }
    {
        self.steps += 1;
        self.add_chosen(alloc, checked, row)?;
        match &row.next {
            Some(after) => self.add_cells(alloc, checked, before, after),
            None => Ok(()),
        }
    }
}

/// What the rows of the run under a script have, of at most `steps` steps.
pub(crate) fn run_extent<P: Picks>(
    alloc: Global,
    resolved: &ResolvedSpecification<'_>,
    script: &P,
    steps: u32,
) -> Result<Extent, AllocError>
    requires { HasMainRule resolved.now }
    ensures whole { IfOk result (HasRoom (count_of (shape_in resolved.now))) }
    ensures found { let m = resolved.now in let s = spec_of m.checked.now.spec in
        IfOk result (λ e. IsExtentOf s (specification_of s).initial e (rows_of s m.turns (P.script script.now) steps)) }
{
    let checked = resolved.checked;
    let mut state = State::initial(alloc, checked.signature())?;
    let mut extent = Extent::of_first(alloc, checked, &state)?;
    for done in 0..steps {
        let row = step_row(alloc, resolved, script, u64::from(done) + 1, &state)?;
        extent.add(alloc, checked, &state, &row)?;
        match row.into_next() {
            Some(next) => state = next,
            None => return Ok(extent),
        }
    }
    Ok(extent)
}
