//! Counts of outcomes and states.
ghost use Rattle.std.specs.Prelude.{◌<◌};

/// How many states are stepped from at once at least, if there are as many.
pub(crate) const MIN_BATCH: usize = 16;

/// Counts of outcomes and states.
#[derive(Drop)]
pub(crate) struct Counts {
    /// How many outcomes of steps were followed.
    pub outcomes: usize,
    /// The most outcomes of a step.
    pub widest: usize,
    /// How many states were stepped from at once, the last time.
    batch: usize,
}

impl Counts {
    /// Nothing is counted yet.
    pub(crate) fn new() -> Counts {
        Counts {
            outcomes: 0,
            widest: 0,
            batch: 0,
        }
    }

    /// Counts the outcomes of a step.
    pub(crate) fn count(&mut self, outcomes: usize) {
        self.outcomes = self.outcomes.saturating_add(outcomes);
        if outcomes > self.widest {
            self.widest = outcomes;
        }
    }

    /// Takes the outcomes of a step back, which are to be counted again.
    pub(crate) fn uncount(&mut self, outcomes: usize) {
        self.outcomes = self.outcomes.saturating_sub(outcomes);
    }

    /// How many states are stepped from at once next, at most `most`: twice as many as the last
    /// time. So one batch of states with many outcomes isn't followed by a longer one.
    pub(crate) fn next_batch(&self, most: usize) -> usize
        ensures { 0 < result }
    {
        self.batch.saturating_mul(2).min(most).max(MIN_BATCH)
    }

    /// Notes that `states` states were stepped from at once.
    pub(crate) fn stepped(&mut self, states: usize) {
        self.batch = states;
    }
}
