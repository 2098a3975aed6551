//! The limits of a run, and the options that give them.
ghost use Rattle.std.specs.Prelude.{◌≡◌, true, [], ◌∷◌, map};
ghost use Rattle.asm_limits.specs.Limits as spec;
ghost use Rattle.asm_limits.specs.Limits.{limit_options, options_with_defaults};
ghost use Rattle.asm_limits.specs.code.NumberOptions.{as_option};

/// The numbers that an option takes.
#[derive(Clone, Copy, Debug)]
pub struct Bounds {
    /// The least of them.
    pub least: u32,
    /// The greatest of them.
    pub most: u32,
}

impl Bounds {
    /// Whether a number is one of them.
    pub fn contains(self, number: u32) -> bool
        ensures { result ≡ spec.is_within self number }
    {
        self.least <= number && number <= self.most
    }
}

/// An option whose value is a number.
#[derive(Clone, Copy, Debug)]
pub struct NumberOption {
    /// Its name, without the dashes before it.
    pub name: &'static str,
    /// The numbers that it takes.
    pub bounds: Bounds,
    /// What stands for its value if it is left out. An option without it can't be left out.
    pub default: Option<&'static str>,
    /// What `--help` says of it.
    pub help: &'static str,
}

/// An option: its name, what `--help` says of it, the least and the greatest of its numbers, and
/// what stands for it if it is left out.
#[macro_export]
macro_rules! number_option {
    ($name:literal, $help:literal, $least:literal to $most:literal, $default:expr) => {
        $crate::run_limits::NumberOption {
            name: $name,
            bounds: $crate::run_limits::Bounds {
                least: $least,
                most: $most,
            },
            default: $default,
            help: concat!($help, ": ", $least, " to ", $most),
        }
    };
}

/// Of `Limits::steps`.
pub const STEPS: NumberOption =
    number_option!("steps", "Make at most N steps", 0 to 1_000_000, None);

/// Of `Limits::turns`.
pub const TURNS: NumberOption = number_option!(
    "turns",
    "End the run if an iterate or while would go on after N turns",
    1 to 1_000_000,
    Some("1000")
);

/// Of `Limits::workers`.
pub const WORKERS: NumberOption = number_option!(
    "workers",
    "Share each step among at most N workers",
    1 to 32,
    Some("1")
);

/// Of `Limits::cut`.
pub const CUT: NumberOption = number_option!(
    "cut",
    "Put at most N elements of a forall into one piece of work",
    1 to 4096,
    Some("64")
);

/// Of `Limits::rounds`.
pub const ROUNDS: NumberOption =
    number_option!("rounds", "Cut work into pieces at most N times", 0 to 64, Some("4"));

/// The options that give the limits but the steps. Each may be left out.
pub fn options_with_defaults() -> [NumberOption; 4]
    ensures { map as_option result ≡ options_with_defaults }
{
    [TURNS, WORKERS, CUT, ROUNDS]
}

/// How far a run goes, and how its work is cut for workers. None of `workers`, `cut` and `rounds`
/// shows in the trace.
#[derive(Clone, Copy, Debug, PartialEq, Eq)]
pub struct Limits {
    /// How many steps are made at most, as `STEPS` allows.
    pub steps: u32,
    /// How many turns exhaust an `iterate`, as `TURNS` allows.
    pub turns: u32,
    /// How many workers share the work of a step, as `WORKERS` allows.
    pub workers: u32,
    /// How many elements of a `forall` are one piece of work, as `CUT` allows.
    pub cut: u32,
    /// How many times work is cut into pieces, as `ROUNDS` allows.
    pub rounds: u32,
}

/// The limits of no step, with what stands for each other option that is left out.
pub const DEFAULTS: Limits = Limits {
    steps: 0,
    turns: 1000,
    workers: 1,
    cut: 64,
    rounds: 4,
};

/// Each of `DEFAULTS` is in its range, and is what stands for its option if that is left out, which
/// only the steps can't be.
pub fn defaults_law()
    ensures range { spec.are_in_range DEFAULTS ≡ true }
    ensures texts { map spec.default_value limit_options ≡ spec.default_values DEFAULTS }
{}

impl Limits {
    /// Whether each number is in its range.
    pub fn are_in_range(&self) -> bool
        ensures { result ≡ spec.are_in_range self.now }
    {
        STEPS.bounds.contains(self.steps)
            && TURNS.bounds.contains(self.turns)
            && WORKERS.bounds.contains(self.workers)
            && CUT.bounds.contains(self.cut)
            && ROUNDS.bounds.contains(self.rounds)
    }
}
