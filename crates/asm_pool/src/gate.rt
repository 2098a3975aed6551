//! Calls between a worker's steps, by which a test holds it.

/// What a worker calls between its steps.
pub trait Gate {
    /// The task is taken, and not run yet.
    fn taken(&self, task: usize);

    /// The task has been run.
    fn done(&self, task: usize);
}

/// A gate that holds nobody.
#[derive(Clone, Copy, Debug)]
pub struct NoGate;

impl Gate for NoGate {
    fn taken(&self, _task: usize) {}

    fn done(&self, _task: usize) {}
}
