//! Sentences that are put together.
use std::alloc::AllocError;

/// No more bytes of a name are shown.
const MAX_SHOWN: usize = 60;

/// A name, as text. Of a long one the front is shown.
pub(crate) fn shown(bytes: &[u8]) -> &str {
    let (front, _) = bytes.split_at(bytes.len().min(MAX_SHOWN));
    str::from_utf8(front).unwrap_or("?")
}

/// Adds what is listed, as in `a, b or c`.
pub(crate) fn push_list(out: &mut String, parts: &[&str], last: &str) -> Result<(), AllocError> {
    let mut left = parts.len();
    for part in parts {
        out.push_str(part)?;
        left = left.saturating_sub(1);
        if left == 1 {
            write!(out, " {last} ")?;
        }
        if left > 1 {
            out.push_str(", ")?;
        }
    }
    Ok(())
}

/// Adds a number with what it counts, as in `1 argument` and `2 arguments`.
pub(crate) fn push_count(out: &mut String, count: usize, one: &str) -> Result<(), AllocError> {
    match count {
        0 => write!(out, "no {one}s"),
        1 => write!(out, "1 {one}"),
        _ => write!(out, "{count} {one}s"),
    }
}
