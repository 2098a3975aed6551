//! What the tasks of a pool stand for.
ghost use Rattle.std.specs.Prelude.{ℕ};

/// Tasks, each with a number. A worker runs them with its hand, one after another.
pub trait Job {
    /// What a worker has for itself, and each run may change.
    type Hand;

    /// What a run returns.
    type Out;

    /// The job has a task with this number.
    ghost has_task: { Self → ℕ → Type 0 };

    /// Tasks may be run with this hand.
    ghost takes_hand: { Self → Self.Hand → Type 0 };

    /// A run of the task with the hand before may return the out and leave the hand after.
    ghost runs: { Self → ℕ → Self.Hand → Self.Out → Self.Hand → Type 0 };

    /// Runs a task.
    fn run(&self, task: usize, hand: &mut Self::Hand) -> Self::Out
        requires task { has_task self.now task }
        requires hand { takes_hand self.now hand.old }
        ensures hand { takes_hand self.now hand.new }
        ensures run { runs self.now task hand.old result hand.new };
}
