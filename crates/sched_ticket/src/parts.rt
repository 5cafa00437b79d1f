//! Parts: what passes stand for that are split without being counted.
ghost use Rattle.std.specs.Prelude.{◌≡◌};
ghost use Rattle.sched_ticket.specs.Parts.{part};

/// All parts, which the first pass has.
pub const ALL_PARTS: u64 = 4611686018427387904;

/// How many parts a split gives, where the pass has more.
const PART: u64 = 1048576;

/// How many parts a split gives of so many: 2^20 where there are more, or else one.
pub fn given(parts: u64) -> u64
    ensures { result ≡ part parts }
{
    if parts > PART { PART } else { 1 }
}
