//! Lines on standard error that tell how far a search is.
use crate::buffered_writer::BufferedWriter;
use asm_explore::{Progress, Watch};
use asm_random::RandomProgress;
use asm_run::sink::Sink;
use std::fmt::Write;
use std::time::{Clock, Duration};

/// How many seconds it takes at least from one line to the next.
const MIN_SECONDS_BETWEEN: u64 = 2;

/// When lines are told, by the clock.
#[derive(Clone, Copy)]
struct Times {
    /// When the search began.
    first: Duration,
    /// When the last line was told, or the search began.
    last: Duration,
}

/// Tells how far a search is, a line every two seconds.
#[derive(Drop)]
pub(crate) struct ProgressLines<'a, C, E> {
    clock: &'a C,
    err: &'a mut E,
    is_terminal: bool,
    /// None before the search, and if no line is asked for or the clock can't be read.
    times: Option<Times>,
}

impl<'a, C: Clock, E: Sink> ProgressLines<'a, C, E> {
    /// Lines by this clock, to this sink, which is a terminal or isn't.
    pub(crate) fn new(clock: &'a C, err: &'a mut E, is_terminal: bool) -> ProgressLines<'a, C, E> {
        ProgressLines {
            clock,
            err,
            is_terminal,
            times: None,
        }
    }

    /// The search begins. Lines are told if they are asked for, and on a terminal.
    pub(crate) fn begin(&mut self, are_asked_for: bool) {
        if !are_asked_for && !self.is_terminal {
            return;
        }
        if let Ok(now) = self.clock.monotonic() {
            self.times = Some(Times {
                first: now,
                last: now,
            });
        }
    }

    /// Since when the search goes on, if a line is due.
    fn due(&mut self) -> Option<Duration> {
        let times = self.times?;
        let Ok(now) = self.clock.monotonic() else {
            return None;
        };
        if now.saturating_sub(times.last).as_secs() < MIN_SECONDS_BETWEEN {
            return None;
        }
        self.times = Some(Times {
            first: times.first,
            last: now,
        });
        Some(now.saturating_sub(times.first))
    }
}

/// How many in a second, if there were `count` in this time.
fn a_second(count: u64, time: Duration) -> u64 {
    let whole = time.as_secs().saturating_mul(1000);
    let milliseconds = whole.saturating_add(u64::from(time.subsec_millis()));
    count.saturating_mul(1000) / milliseconds.max(1)
}

impl<C: Clock, E: Sink> Watch<Progress> for ProgressLines<'_, C, E> {
    fn tell(&mut self, progress: Progress) {
        let Some(time) = self.due() else {
            return;
        };
        let states = progress.states;
        let depth = progress.depth;
        let rate = a_second(states as u64, time);
        let megabytes = progress.bytes / 1_000_000;
        let mut out = BufferedWriter::new(&mut *self.err);
        let _ = writeln!(
            out,
            "asm-explore: {states} states, depth {depth}, {rate} states a second, {megabytes} MB"
        )
        .and_then(|()| out.hand_on());
    }
}

impl<C: Clock, E: Sink> Watch<RandomProgress> for ProgressLines<'_, C, E> {
    fn tell(&mut self, progress: RandomProgress) {
        let Some(time) = self.due() else {
            return;
        };
        let runs = progress.runs;
        let steps = progress.steps;
        let rate = a_second(steps, time);
        let mut out = BufferedWriter::new(&mut *self.err);
        let _ = writeln!(
            out,
            "asm-explore: {runs} runs, {steps} steps, {rate} steps a second"
        )
        .and_then(|()| out.hand_on());
    }
}
