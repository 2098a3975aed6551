//! What every production reads with. A production is a method, in the file of its kind: `names.rt`,
//! `terms.rt`, `rules.rt`, `contents.rt` or `items.rt`.
//!
//! The cursor is a field of its own, so a step of it can't change the text, and its contract needn't
//! say so. That of a production does, since productions take the whole parser.

use crate::cursor::Cursor;
use std::alloc::Global;

/// A text, and its tokens that are still to be read.
#[derive(Drop)]
pub(crate) struct Parser<'a> {
    pub alloc: Global,
    pub text: &'a [u8],
    pub tokens: Cursor<'a>,
}
