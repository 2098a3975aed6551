//! A block of columns.

/// A column: the number of its location, and where it begins in a line.
#[derive(Clone, Copy, Debug)]
pub(crate) struct Column {
    pub(crate) location: usize,
    pub(crate) start: usize,
}

/// Columns that stand beside each other.
#[derive(Debug, Drop)]
pub(crate) struct Block {
    /// Where the column begins of what is chosen, if the block has it.
    pub(crate) chosen: Option<usize>,
    pub(crate) columns: Vec<Column>,
}
