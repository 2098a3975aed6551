//! The options whose values are numbers.
use asm_limits::run_limits::NumberOption;
use asm_limits::{number_option, run_limits};

/// Of `Settings::steps`.
pub(crate) const STEPS: NumberOption = NumberOption {
    default: Some("1000000"),
    help: "Look at runs of at most N steps: 0 to 1000000",
    ..run_limits::STEPS
};

/// Of `RandomSettings::steps`.
pub(crate) const RANDOM_STEPS: NumberOption = NumberOption {
    default: Some("1000"),
    help: "Make at most N steps in each run: 0 to 1000000",
    ..run_limits::STEPS
};

/// Of `RunSettings::steps`.
pub(crate) const RUN_STEPS: NumberOption = NumberOption {
    default: Some("1000"),
    help: "Make at most N steps, else as many as the script says: 0 to 1000000",
    ..run_limits::STEPS
};

/// Of `Settings::turns` and `RandomSettings::turns`.
pub(crate) const TURNS: NumberOption = NumberOption {
    help: "An iterate or while that would go on after N turns is a fault: 1 to 1000000",
    ..run_limits::TURNS
};

/// Of `RunSettings::turns`.
pub(crate) const RUN_TURNS: NumberOption = NumberOption {
    help: "An iterate or while that goes on after N turns is a fault (see below): 1 to 1000000",
    ..run_limits::TURNS
};

/// Of `Settings::workers`.
pub(crate) const WORKERS: NumberOption = NumberOption {
    help: "List outcomes on N threads; the output is the same for every N: 1 to 32",
    ..run_limits::WORKERS
};

/// Of `Settings::states`.
pub(crate) const STATES: NumberOption =
    number_option!("states", "Reach at most N states", 1 to 100_000_000, Some("1000000"));

/// Of `Settings::outcomes`.
pub(crate) const OUTCOMES: NumberOption = number_option!(
    "outcomes",
    "End the search if a rule has more than N outcomes",
    1 to 1_000_000,
    Some("10000")
);

/// Of `RandomSettings::outcomes`.
pub(crate) const RANDOM_OUTCOMES: NumberOption = NumberOption {
    help: "See no deadlock if a rule has more than N outcomes: 1 to 1000000",
    ..OUTCOMES
};

/// Of `RandomSettings::runs`.
pub(crate) const RUNS: NumberOption =
    number_option!("runs", "Make at most N runs", 1 to 1_000_000, Some("1000"));

/// Of `ShowSettings::width`.
pub(crate) const WIDTH: NumberOption =
    number_option!("width", "Write lines of at most N bytes", 40 to 10_000, Some("100"));
