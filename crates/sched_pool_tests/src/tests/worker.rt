//! One worker with the jobs of its share, played step by step.
use sched_pool_worker::{Finish, Gate, OpenGate, Station, Work, Worked, work_through};

mod gates;
mod jobs;
mod plays;
mod rows;

fn after(turns: u64, finish: Finish) -> Worked {
    Worked { turns, finish }
}
