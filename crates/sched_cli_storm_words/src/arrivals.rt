//! The moments of requests, as the lines of a file spell them.
use crate::faults::StormFault;
use crate::numbers::number_in;
use sched_storm::{MAX_REQUESTS, MAX_UNTIL};
use std::alloc::{AllocError, Global};
use std::str;

// A line with so many bytes is too long.
const LONG: usize = 32;

const SOME_WANTED: &str = "expected 1 to 1048576 lines, got none";

/// Moments that are read from lines.
#[derive(Debug, Drop)]
pub struct ArrivalLines {
    moments: Vec<u64>,
    /// The greatest moment so far.
    last: u64,
    /// What was read of the line that is not at its end.
    line: Vec<u8>,
}

impl ArrivalLines {
    /// Before the first line.
    pub fn new(alloc: Global) -> ArrivalLines {
        ArrivalLines {
            moments: Vec::new(alloc),
            last: 0,
            line: Vec::new(alloc),
        }
    }

    /// These bytes follow. `Bad`, with the number of the line and what is wanted, where a line spells no moment or one
    /// before that of the line before it, or where there are too many.
    pub fn read(&mut self, alloc: Global, bytes: &[u8]) -> Result<(), StormFault> {
        for byte in bytes {
            if *byte == b'\n' {
                self.end_line(alloc)?;
            } else {
                self.keep(*byte)?;
                if self.line.len() >= LONG {
                    return Err(self.fault(alloc));
                }
            }
        }
        Ok(())
    }

    /// No bytes follow: all moments. `Bad` as before, and where there are none.
    pub fn into_moments(self, alloc: Global) -> Result<Vec<u64>, StormFault> {
        let mut lines = self;
        if !lines.line.is_empty() {
            lines.end_line(alloc)?;
        }
        if lines.moments.is_empty() {
            return Err(StormFault::bad(alloc, SOME_WANTED));
        }
        Ok(lines.moments)
    }

    // The line is at its end.
    fn end_line(&mut self, alloc: Global) -> Result<(), StormFault> {
        let Some(moment) = moment_in(&self.line, self.last) else {
            return Err(self.fault(alloc));
        };
        if self.moments.len() as u64 >= MAX_REQUESTS {
            return Err(self.fault(alloc));
        }
        self.add(moment)?;
        self.last = moment;
        self.line.clear();
        Ok(())
    }

    // This byte of the line follows.
    fn keep(&mut self, byte: u8) -> Result<(), AllocError> {
        self.line.push(byte)?;
        Ok(())
    }

    // This moment follows.
    fn add(&mut self, moment: u64) -> Result<(), AllocError> {
        self.moments.push(moment)?;
        Ok(())
    }

    // What is wrong with the line.
    fn fault(&self, alloc: Global) -> StormFault {
        match self.reason(alloc) {
            Ok(why) => StormFault::Bad(why),
            Err(_) => StormFault::NoMemory,
        }
    }

    fn reason(&self, alloc: Global) -> Result<String, AllocError> {
        let number = (self.moments.len() as u64).saturating_add(1);
        if number > MAX_REQUESTS {
            return format!(in alloc; "line {number}: expected at most 1048576 lines, got one more");
        }
        let last = self.last;
        match str::from_utf8(&self.line) {
            Ok(line) => {
                format!(in alloc;
                    "line {number}: expected milliseconds from {last} to 7200000, got '{}'",
                    line.escape_debug()
                )
            }
            Err(_) => {
                format!(in alloc;
                    "line {number}: expected milliseconds from {last} to 7200000, got no text"
                )
            }
        }
    }
}

// The moment that a line spells, from this one on.
fn moment_in(line: &[u8], from: u64) -> Option<u64> {
    let Ok(word) = str::from_utf8(line) else {
        return None;
    };
    let moment = number_in(word)?;
    if moment < from || moment > MAX_UNTIL {
        return None;
    }
    Some(moment)
}
