//! How far random runs are.

/// How far random runs are.
#[derive(Clone, Copy, Debug, PartialEq, Eq)]
pub struct RandomProgress {
    /// This many runs are made.
    pub runs: u32,
    /// This many steps are made in them.
    pub steps: u64,
}
