ghost use Rattle.std.specs.Prelude.{◌≡◌, ℕ, List, Option};
ghost use Rattle.std.specs.Io.{ReadsAtMost, WritesAtMost};
ghost use Rattle.std.specs.Io.KnownBytes.{ReadConsumes, WriteAppends};
ghost use Rattle.sched_cli_plan.specs.Failures.{count_after_read, count_after_write};

use std::io;

/// What bytes are read from: a reader that also keeps count of its failed reads.
pub trait Source {
    // The bytes that are left to read, where they are known.
    ghost left: { Self → Option (List ℕ) };

    // How many reads have failed, modulo 2^64.
    ghost failures: { Self → ℕ };

    /// Puts some bytes at the front of `buf` and answers how many: none only at the end of the input, or where `buf`
    /// has no room. A failed read takes no byte, and is counted.
    fn read(&mut self, buf: &mut [u8]) -> io::Result<usize>
        ensures bound { ReadsAtMost result buf.new }
        ensures bytes { ReadConsumes (left self.old) (left self.new) result buf.new }
        ensures counts { failures self.new ≡ count_after_read result (failures self.old) };
}

/// What bytes are written to: a writer that also keeps count of its failed writes.
pub trait Sink {
    // The bytes taken so far, where they are known.
    ghost taken: { Self → Option (List ℕ) };

    // How many writes have failed, modulo 2^64.
    ghost failures: { Self → ℕ };

    /// Takes some bytes from the front of `buf` and answers how many. A failed write takes none. A write that takes
    /// none of a `buf` that has some is counted as failed too.
    fn write(&mut self, buf: &[u8]) -> io::Result<usize>
        ensures bound { WritesAtMost result buf.now }
        ensures bytes { WriteAppends (taken self.old) (taken self.new) result buf.now }
        ensures counts { failures self.new ≡ count_after_write result buf.now (failures self.old) };
}
