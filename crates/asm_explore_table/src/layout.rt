//! Which columns stand beside each other, and where each begins.
ghost use Rattle.std.specs.Prelude.{◌≡◌, ◌≤◌, ◌<◌, ◌+◌, ◌^◌, ◌++◌, ◌∷◌, [], All, Bool, None, false, true, is_some, nat_lt, IfErr, IfOk, OnOk};
ghost use Rattle.std.specs.List.{flat_map};
ghost use Rattle.asm_state.specs.Signature.{count_of};
ghost use Rattle.asm_syntax.specs.code.Views.{spec_of};
ghost use Rattle.asm_check.specs.Shapes.{shape_of};
ghost use Rattle.asm_explore_table.specs.Tables.{numbers_in as locations_of};
ghost use Rattle.asm_explore_table.specs.code.Extents.{HasRoom};
ghost use Rattle.asm_explore_table.specs.code.Layouts.{AreFilled, IsChosenStart, IsFullWith, IsLaid, end_before, end_of, name_end_behind, placed_column, reached_first, start_behind, unplaced, up_to, width_of_steps, with_column};
ghost use Rattle.asm_explore_table.specs.code.StepsMade.{AreBlocks};

use crate::block::{Block, Column};
use crate::extent::Extent;
use crate::heads::{arguments_head, function_at, function_head, is_after};
use asm_check::Checked;
use std::alloc::{AllocError, Global};

/// How wide the column of the steps' numbers is at least, which is the length of its head.
const LEAST_STEP_WIDTH: usize = 4;

/// How wide that of what is chosen is at least, for the same reason.
const LEAST_CHOSEN_WIDTH: usize = 6;

/// What each line of a table begins with has so many bytes.
const MARK: usize = 2;

/// How far a block reaches with some columns.
#[derive(Clone, Copy, Debug)]
struct Reached {
    /// Where the last column ends.
    end: usize,
    /// The function of the last column.
    function: Option<usize>,
    /// Where the name ends of that function.
    name_end: usize,
}

/// A block that is being made.
#[derive(Drop)]
struct Begun {
    block: Block,
    reached: Reached,
}

/// A column before it has a place.
#[derive(Drop)]
struct Unplaced {
    location: usize,
    function: usize,
    /// How long the name of its function is.
    name: usize,
    width: usize,
}

/// The place so many bytes behind another one. It is refused if 64 bits can't hold it: no memory
/// has room for such a line.
fn behind(place: usize, bytes: usize) -> Result<usize, AllocError>
    ensures place { IfOk result (λ n. n ≡ place + bytes) }
    ensures refused { IfErr result (λ e. 2 ^ 64 ≤ place + bytes) }
{
    place.checked_add(bytes).ok_or(AllocError)
}

impl Unplaced {
    /// The column of the location with this number.
    fn of(
        alloc: Global,
        checked: &Checked,
        extent: &Extent,
        n: usize,
    ) -> Result<Unplaced, AllocError>
        requires room { HasRoom (count_of (shape_of (spec_of checked.now.spec))) extent.now }
        requires within { n < count_of (shape_of (spec_of checked.now.spec)) }
        ensures { IfOk result (λ c. c ≡ unplaced (spec_of checked.now.spec) extent.now n) }
    {
        let arguments = arguments_head(alloc, checked, n)?;
        let function = function_at(alloc, checked, n)?;
        let name = function_head(alloc, checked, function)?;
        Ok(Unplaced {
            location: n,
            function,
            name: name.len(),
            width: extent.widths[n].max(arguments.len()),
        })
    }
}

impl Reached {
    /// A block that reaches to here without a column.
    fn up_to(end: usize) -> Reached
        ensures { result ≡ up_to end }
    {
        Reached {
            end,
            function: None,
            name_end: 0,
        }
    }

    /// Where that ends which a column of this function stands behind: the name of a function may
    /// stand above all of its columns.
    fn end_before(&self, function: usize) -> usize
        ensures { result ≡ end_before self.now function }
    {
        if is_after(function, self.function) {
            self.end
        } else {
            self.end.max(self.name_end)
        }
    }

    /// Where a column of this function would begin.
    fn start_of(&self, function: usize) -> Result<usize, AllocError>
        ensures { IfOk result (λ start. start ≡ start_behind self.now function) }
    {
        behind(self.end_before(function), 2)
    }

    /// Where the name of its function would end, above a column that begins here.
    fn name_end_of(&self, column: &Unplaced, start: usize) -> Result<usize, AllocError>
        ensures { IfOk result (λ end. end ≡ name_end_behind self.now start column.now) }
    {
        if is_after(column.function, self.function) {
            Ok(self.name_end)
        } else {
            behind(start, column.name)
        }
    }

    /// How far it would reach with one column more.
    fn with(&self, column: &Unplaced) -> Result<Reached, AllocError>
        ensures { IfOk result (λ reached. reached ≡ with_column self.now column.now) }
    {
        let start = self.start_of(column.function)?;
        let end = behind(start, column.width)?;
        let name_end = self.name_end_of(column, start)?;
        Ok(Reached {
            end,
            function: Some(column.function),
            name_end,
        })
    }

    /// Whether its lines would be longer than this.
    fn is_wider(&self, width: usize) -> Result<bool, AllocError>
        ensures { IfOk result (λ wider. wider ≡ nat_lt width (2 + end_of self.now)) }
    {
        let end = self.end.max(self.name_end);
        Ok(behind(MARK, end)? > width)
    }
}

impl Begun {
    /// A block without columns, whose lines have so many bytes.
    fn new(alloc: Global, chosen: Option<usize>, end: usize) -> Begun
        ensures chosen { result.block.chosen ≡ chosen }
        ensures empty { result.block.columns.items ≡ [] }
        ensures reached { result.reached ≡ up_to end }
    {
        Begun {
            block: Block {
                chosen,
                columns: Vec::new(alloc),
            },
            reached: Reached::up_to(end),
        }
    }

    /// Whether it has a column, and would be wider with this one than that.
    fn is_full_with(&self, column: &Unplaced, width: usize) -> Result<bool, AllocError>
        ensures { IfOk result (λ full. IsFullWith self.now column.now width full) }
    {
        if self.block.columns.is_empty() {
            return Ok(false);
        }
        self.reached.with(column)?.is_wider(width)
    }

    /// The block, once it has all its columns.
    fn into_block(self) -> Block
        ensures { result ≡ self.block }
    {
        let Begun { block, reached: _ } = self;
        block
    }

    /// Adds a column.
    fn add(&mut self, column: &Unplaced) -> Result<(), AllocError>
        ensures chosen { self.new.block.chosen ≡ self.old.block.chosen }
        ensures added { OnOk result (self.new.block.columns.items ≡ self.old.block.columns.items ++ placed_column self.old.reached column.now ∷ []) }
        ensures reached { OnOk result (self.new.reached ≡ with_column self.old.reached column.now) }
    {
        let start = self.reached.start_of(column.function)?;
        let reached = self.reached.with(column)?;
        self.block.columns.push(Column {
            location: column.location,
            start,
        })?;
        self.reached = reached;
        Ok(())
    }
}

/// How wide the column of the steps' numbers is.
pub(crate) fn step_width(alloc: Global, extent: &Extent) -> Result<usize, AllocError>
    ensures { IfOk result (λ width. width ≡ width_of_steps extent.now) }
{
    let last = format!(in alloc; "{}", extent.steps)?;
    Ok(LEAST_STEP_WIDTH.max(last.len()))
}

/// The first block, before it has columns.
fn first_block(alloc: Global, extent: &Extent, width: usize) -> Result<Begun, AllocError>
    requires { width ≡ width_of_steps extent.now }
    ensures chosen { IfOk result (λ begun. is_some begun.block.chosen ≡ extent.now.chooses) }
    ensures empty { IfOk result (λ begun. begun.block.columns.items ≡ []) }
    ensures begins { IfOk result (λ begun. begun.reached ≡ reached_first extent.now begun.block.chosen) }
    ensures start { IfOk result (λ begun. IsChosenStart extent.now begun.block.chosen) }
{
    if !extent.chooses {
        return Ok(Begun::new(alloc, None, width));
    }
    let start = behind(width, 2)?;
    let end = behind(start, LEAST_CHOSEN_WIDTH.max(extent.chosen_width))?;
    Ok(Begun::new(alloc, Some(start), end))
}

/// Ends a block if it is full, and begins the next one.
fn make_room(
    blocks: &mut Vec<Block>,
    begun: &mut Begun,
    is_full: bool,
    next: Begun,
) -> Result<(), AllocError>
    requires empty { next.block.columns.items ≡ [] }
    requires chosen { next.block.chosen ≡ None }
    ensures all { OnOk result (flat_map locations_of (blocks.new.items ++ begun.new.block ∷ []) ≡ flat_map locations_of (blocks.old.items ++ begun.old.block ∷ [])) }
    ensures chosen { (chooses : Bool) → AreBlocks chooses (blocks.old.items ++ begun.old.block ∷ []) →
        OnOk result (AreBlocks chooses (blocks.new.items ++ begun.new.block ∷ [])) }
    ensures kept { is_full ≡ false → OnOk result ((blocks.new.items ≡ blocks.old.items) × (begun.new ≡ begun.old)) }
    ensures ended { is_full ≡ true → OnOk result ((blocks.new.items ≡ blocks.old.items ++ begun.old.block ∷ []) × (begun.new ≡ next)) }
{
    if !is_full {
        return Ok(());
    }
    let ended = std::mem::replace(begun, next);
    blocks.push(ended.into_block())?;
    Ok(())
}

/// The blocks of these columns, each as wide as this or of one column.
pub(crate) fn blocks(
    alloc: Global,
    checked: &Checked,
    columns: &[usize],
    extent: &Extent,
    width: usize,
) -> Result<Vec<Block>, AllocError>
    requires room { HasRoom (count_of (shape_of (spec_of checked.now.spec))) extent.now }
    requires within { All (λ n. n < count_of (shape_of (spec_of checked.now.spec))) columns.now }
    ensures all { IfOk result (λ blocks. flat_map locations_of blocks.items ≡ columns.now) }
    ensures chosen { IfOk result (λ blocks. AreBlocks extent.now.chooses blocks.items) }
    ensures filled { IfOk result (λ blocks. AreFilled blocks.items) }
    ensures laid { IfOk result (λ blocks. All (IsLaid (spec_of checked.now.spec) extent.now width) blocks.items) }
{
    let steps = step_width(alloc, extent)?;
    let mut blocks = Vec::new(alloc);
    let mut begun = first_block(alloc, extent, steps)?;
    for k in 0..columns.len() {
        let column = Unplaced::of(alloc, checked, extent, columns[k])?;
        let is_full = begun.is_full_with(&column, width)?;
        make_room(
            &mut blocks,
            &mut begun,
            is_full,
            Begun::new(alloc, None, steps),
        )?;
        begun.add(&column)?;
    }
    blocks.push(begun.into_block())?;
    Ok(blocks)
}
