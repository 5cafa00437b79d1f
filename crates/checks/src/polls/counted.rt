//! An action whose first calls fail.

use sched_run::Action;

/// An action that fails with 7 as often as it was told to, and then succeeds with 1.
#[derive(Drop)]
pub struct Counted {
    failures: u8,
}

impl Counted {
    /// One that fails so often.
    pub fn new(failures: u8) -> Counted {
        Counted { failures }
    }
}

impl Action for Counted {
    type Item = u8;

    type Fault = u8;

    fn run(&mut self) -> Result<u8, u8> {
        match self.failures.checked_sub(1) {
            Some(left) => {
                self.failures = left;
                Err(7)
            }
            None => Ok(1),
        }
    }
}
