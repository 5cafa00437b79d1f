use crate::drivers::Driver;
use std::sync::{Mutex, MutexGuard, Wait};

/// A driver that threads share under one lock. Whoever enters finds a driver that keeps its law, whoever was there
/// before.
#[derive(Drop)]
pub struct DriverCell {
    driver: Mutex<Driver>,
}

/// The lock of a `DriverCell`, held: the driver's calls are made through it, and dropping it lets the next one enter.
pub type Guard<'a> = MutexGuard<'a, Driver>;

impl DriverCell {
    /// Puts the driver under a lock. It takes no memory.
    pub fn new(driver: Driver) -> DriverCell {
        DriverCell {
            driver: Mutex::new(driver),
        }
    }

    /// Waits for the lock, and gives the driver until the guard is dropped.
    pub fn enter(&self, rt: &impl Wait) -> Guard<'_> {
        self.driver.lock(rt)
    }

    /// The driver, out of its lock.
    pub fn into_driver(self) -> Driver {
        self.driver.into_inner()
    }
}
