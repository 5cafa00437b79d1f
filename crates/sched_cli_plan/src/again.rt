ghost use Rattle.std.specs.Prelude.{◌≡◌, Some};

use crate::streams::Source;
use std::io;
use std::io::Read;

/// A text that is there as a whole, to be read again. No read of it fails.
#[derive(Debug, Drop)]
pub struct Given<'a> {
    rest: &'a [u8],
}

impl<'a> Given<'a> {
    ghost use Rattle.sched_cli_plan.specs.Again.{rest_of};

    /// All of the text is left.
    pub fn new(text: &'a [u8]) -> Self
        ensures { rest_of result ≡ text.now }
    {
        Given { rest: text }
    }
}

impl Source for Given<'_> {
    ghost use Rattle.sched_cli_plan.specs.Again.{rest_of};

    ghost left = { λ g. Some (rest_of g) };

    ghost failures = { λ _. 0 };

    fn read(&mut self, buf: &mut [u8]) -> io::Result<usize> {
        self.rest.read(buf)
    }
}
