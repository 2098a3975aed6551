//! Runs of specifications, from bytes to bytes.
use asm_limits::run_limits::{DEFAULTS, Limits};

mod beginnings;
mod ends;
mod refusals;
mod shown;
mod sinks;
mod writers;

const LIMITS: Limits = Limits {
    steps: 1,
    ..DEFAULTS
};
