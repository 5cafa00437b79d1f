//! What may hold up the polls of a job.

/// Is asked before each poll of a job, and told after each. The worker calls it while it has no job locked.
pub trait Gate {
    /// Whether the job with this number may be polled now. `false` uses up the worker's turn without a poll.
    fn ready(&self, job: usize) -> bool;

    /// The job with this number was polled.
    fn polled(&self, job: usize);
}

/// Holds up nothing.
#[derive(Clone, Copy, Debug)]
pub struct OpenGate;

impl Gate for OpenGate {
    fn ready(&self, _job: usize) -> bool {
        true
    }

    fn polled(&self, _job: usize) {}
}
