//! What each kind of task shows.

use sched_driver::Driver;
use sched_run::{Draws, Effect, Fallback, Ran, Repeat, Retry, RetryOr};
use sched_time::Moment;

/// What a task shows of its driver, its tickets and its runs.
pub trait Shown {
    /// The driver.
    fn driver(&self) -> &Driver;

    /// How many tickets it was granted.
    fn granted(&self) -> u64;

    /// The moments at which runs were begun.
    fn begun(&self) -> &[Moment];

    /// The finished runs.
    fn runs(&self) -> &[Ran];
}

impl<X: Effect, D: Draws> Shown for Retry<X, D> {
    fn driver(&self) -> &Driver {
        Retry::driver(self)
    }

    fn granted(&self) -> u64 {
        Retry::granted(self)
    }

    fn begun(&self) -> &[Moment] {
        Retry::begun(self)
    }

    fn runs(&self) -> &[Ran] {
        self.effect().runs()
    }
}

impl<X: Effect, D: Draws, F: Fallback<X>> Shown for RetryOr<X, D, F> {
    fn driver(&self) -> &Driver {
        RetryOr::driver(self)
    }

    fn granted(&self) -> u64 {
        RetryOr::granted(self)
    }

    fn begun(&self) -> &[Moment] {
        RetryOr::begun(self)
    }

    fn runs(&self) -> &[Ran] {
        self.effect().runs()
    }
}

impl<X: Effect> Shown for Repeat<X> {
    fn driver(&self) -> &Driver {
        Repeat::driver(self)
    }

    fn granted(&self) -> u64 {
        0
    }

    fn begun(&self) -> &[Moment] {
        Repeat::begun(self)
    }

    fn runs(&self) -> &[Ran] {
        self.effect().runs()
    }
}
