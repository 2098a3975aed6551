//! The columns of a page.
ghost use Rattle.std.specs.Prelude.{◌≡◌, ◌<◌, ◌≤◌, All, length, IfOk};
ghost use Rattle.asm_state.specs.Signature.{count_of};
ghost use Rattle.asm_syntax.specs.code.Views.{spec_of};
ghost use Rattle.asm_check.specs.Shapes.{shape_of};
ghost use Rattle.asm_explore_table.specs.Pages.{more_of_function as more_columns_of, page_columns as columns_in_page};

use crate::heads::{function_at, is_after};
use asm_check::Checked;
use std::alloc::{AllocError, Global};

/// Browsers let no head stand above more columns.
const MOST_SPANNED: usize = 1000;

/// A column: the number of its location, and whether a head begins above it.
#[derive(Clone, Copy, Debug)]
pub(crate) struct PageColumn {
    pub(crate) location: usize,
    pub(crate) is_first: bool,
}

/// The columns of the locations with these numbers.
pub(crate) fn page_columns(
    alloc: Global,
    checked: &Checked,
    numbers: &[usize],
) -> Result<Vec<PageColumn>, AllocError>
    requires { All (λ n. n < count_of (shape_of (spec_of checked.now.spec))) numbers.now }
    ensures are { IfOk result (λ columns. columns.items ≡ columns_in_page (spec_of checked.now.spec) numbers.now) }
    ensures within { IfOk result (λ columns. All (λ c. c.location < count_of (shape_of (spec_of checked.now.spec))) columns.items) }
{
    let mut columns = Vec::new(alloc);
    let mut before = None;
    let mut spanned = 0;
    for k in 0..numbers.len() {
        let location = numbers[k];
        let function = function_at(alloc, checked, location)?;
        let is_first = !is_after(function, before) || spanned >= MOST_SPANNED;
        columns.push(PageColumn { location, is_first })?;
        before = Some(function);
        spanned = if is_first { 1 } else { spanned + 1 };
    }
    Ok(columns)
}

/// How many columns follow before the next head.
pub(crate) fn more_of_function(columns: &[PageColumn]) -> usize
    ensures more { result ≡ more_columns_of columns.now }
    ensures few { result ≤ length columns.now }
{
    for k in 0..columns.len() {
        if columns[k].is_first {
            return k;
        }
    }
    columns.len()
}
