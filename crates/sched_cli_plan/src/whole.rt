ghost use Rattle.std.specs.Prelude.{◌≡◌, MatchResult, string_bytes};
ghost use Rattle.std.specs.Io.KnownBytes.{Appends};
ghost use Rattle.sched_cli_plan.specs.Whole.{IsWholeInput, StopsReading, WritesAllBut, StopsWriting, count_of_reads};
ghost use Rattle.sched_cli_plan.specs.Whole.{count_of_writes};

use crate::faults::PrintFault;
use crate::streams::{Sink, Source};
use std::alloc::Global;

/// The most bytes that an input may have.
pub const MAX_INPUT: usize = 1048576;

// The most bytes that are read, and the most reads: an input may be seen to be too long by one byte.
const MAX_READS: usize = MAX_INPUT + 1;

// The most bytes of one read, and the fewest that are written before the last ones.
const CHUNK: usize = 8192;

/// Reads an input to its end, in at most 1,048,577 reads that take at most as many bytes.
///
/// Refused with `ReadFailed` at the first read that fails, `TooLong` where the input has more than 1,048,576 bytes, and
/// `NoMemory`.
pub fn read_all<R: Source>(alloc: Global, reader: &mut R) -> Result<Vec<u8>, PrintFault>
    ensures bytes { MatchResult result
        (λ bytes. IsWholeInput (R.left reader.old) (R.left reader.new) bytes.items)
        (λ fault. StopsReading fault (R.left reader.old) (R.left reader.new)) }
    ensures counts { R.failures reader.new ≡ count_of_reads result (R.failures reader.old) }
{
    let mut bytes = Vec::new(alloc);
    let mut chunk = [0; CHUNK];
    for _ in 0..MAX_READS {
        let room = CHUNK.min(MAX_READS - bytes.len());
        let taken = match reader.read(&mut chunk[..room]) {
            Ok(0) => return Ok(bytes),
            Ok(taken) => taken,
            Err(_) => return Err(PrintFault::ReadFailed),
        };
        if bytes.extend_from_slice(&chunk[..taken]).is_err() {
            return Err(PrintFault::NoMemory);
        }
        if bytes.len() > MAX_INPUT {
            return Err(PrintFault::TooLong);
        }
    }
    unreachable!()
}

/// Writes what is pending once it fills a write of 8,192 bytes or more, and keeps none of it then. Refused with
/// `WriteFailed` at the first write that fails or takes no byte; then exactly a front of it was written.
pub fn put_long<W: Sink>(writer: &mut W, pending: &mut String) -> Result<(), PrintFault>
    ensures bytes { MatchResult result
        (λ _. WritesAllBut (W.taken writer.old) (W.taken writer.new)
        (string_bytes pending.old) (string_bytes pending.new))
        (λ fault. StopsWriting fault (W.taken writer.old) (W.taken writer.new) (string_bytes pending.old)) }
    ensures counts { W.failures writer.new ≡ count_of_writes result (W.failures writer.old) }
{
    if pending.len() >= CHUNK {
        put_all(writer, pending.as_bytes())?;
        pending.clear();
    }
    Ok(())
}

/// Writes all of `bytes`. Refused with `WriteFailed` at the first write that fails or takes no byte;
/// then exactly a front of `bytes` was written.
pub fn put_all<W: Sink>(writer: &mut W, bytes: &[u8]) -> Result<(), PrintFault>
    ensures bytes { MatchResult result
        (λ _. Appends (W.taken writer.old) (W.taken writer.new) bytes.now)
        (λ fault. StopsWriting fault (W.taken writer.old) (W.taken writer.new) bytes.now) }
    ensures counts { W.failures writer.new ≡ count_of_writes result (W.failures writer.old) }
{
    let mut rest = bytes;
    while !rest.is_empty() {
        match writer.write(rest) {
            Ok(0) | Err(_) => return Err(PrintFault::WriteFailed),
            Ok(taken) => rest = &rest[taken..],
        }
    }
    Ok(())
}
