//! What is said of a run beside its rows.

/// What is said of a run beside its rows.
#[derive(Clone, Copy, Debug)]
pub struct RunWords<'t> {
    /// The name of the specification's file; `-` is standard input.
    pub name: &'t str,
    /// How it ends, in a line.
    pub end: &'t [u8],
    /// If a condition isn't true, why: a line behind the first.
    pub because: &'t [Vec<u8>],
    /// A call of `asm` that makes it.
    pub command: &'t [u8],
    /// The assignments by which it ends.
    pub assignments: &'t [Vec<u8>],
    /// The lines of its script that name no choice of it.
    pub unmet: &'t [Vec<u8>],
    /// Whether it ends by a fault.
    pub is_fault: bool,
}
