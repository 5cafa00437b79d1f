ghost use Rattle.std.specs.Prelude.{◌≡◌, ◌<◌, Some, None, IsSome};
ghost use Rattle.sched_cli_plan.specs.Failures.{next_count};

use crate::streams::{Sink, Source};
use std::io;
use std::io::{ErrorKind, Read, Write};

/// A reader or a writer with a count of its failed calls, modulo 2^64, and the error of the last one.
#[derive(Debug, Drop)]
pub struct Counted<T> {
    inner: T,
    failures: u64,
    last: Option<io::Error>,
    ghost known: { 0 < failures → IsSome last },
}

impl<T> Counted<T> {
    ghost use Rattle.sched_cli_plan.specs.Counted.{inner_of, failures_of, last_of};

    /// The stream, with a count of 0.
    pub fn new(inner: T) -> Self
        ensures inner { inner_of result ≡ inner }
        ensures counts { failures_of result ≡ 0 }
        ensures last { last_of result ≡ None }
    {
        Counted {
            inner,
            failures: 0,
            last: None,
        }
    }

    /// How many of its calls have failed, modulo 2^64.
    pub fn failures(&self) -> u64
        ensures { result ≡ failures_of self.now }
    {
        self.failures
    }

    /// The error of the last call that failed; of a write that took no byte one of the kind `WriteZero`.
    pub fn last_error(&self) -> Option<io::Error>
        ensures value { result ≡ last_of self.now }
        ensures known { 0 < failures_of self.now → IsSome result }
    {
        self.last
    }

    /// The stream itself.
    pub fn into_inner(self) -> T
        ensures { result ≡ inner_of self }
    {
        self.inner
    }

    fn count_failure(&mut self, error: io::Error)
        ensures inner { inner_of self.new ≡ inner_of self.old }
        ensures counts { failures_of self.new ≡ next_count (failures_of self.old) }
        ensures last { last_of self.new ≡ Some error }
    {
        self.last = Some(error);
        self.failures = self.failures.wrapping_add(1);
    }
}

impl<R: Read> Source for Counted<R> {
    ghost use Rattle.sched_cli_plan.specs.Counted.{inner_of, failures_of};

    ghost left = { λ c. R.remaining (inner_of c) };

    ghost failures = { failures_of };

    fn read(&mut self, buf: &mut [u8]) -> io::Result<usize> {
        let answer = self.inner.read(buf);
        if let Err(error) = answer {
            self.count_failure(error);
        }
        answer
    }
}

impl<W: Write> Sink for Counted<W> {
    ghost use Rattle.sched_cli_plan.specs.Counted.{inner_of, failures_of};

    ghost taken = { λ c. W.contents (inner_of c) };

    ghost failures = { failures_of };

    fn write(&mut self, buf: &[u8]) -> io::Result<usize> {
        let answer = self.inner.write(buf);
        match answer {
            Ok(taken) if taken > 0 || buf.is_empty() => {}
            Ok(_) => self.count_failure(io::Error::from(ErrorKind::WriteZero)),
            Err(error) => self.count_failure(error),
        }
        answer
    }
}
