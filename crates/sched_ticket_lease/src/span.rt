//! Numbers that follow one another.
ghost use Rattle.std.specs.Prelude.{◌<◌, ◌≤◌};

/// The numbers from `first` up to `end`, which is not one of them.
#[derive(Clone, Copy, Debug, Drop)]
pub struct Span {
    pub first: u64,
    pub end: u64,
    pub ghost some: { first < end },
}

impl Span {
    ghost use Rattle.std.specs.Prelude.{MatchBool};
    ghost use Rattle.sched_ticket_lease.specs.Spans.{IsApart, Meets, IsIn, IsNotIn};

    /// Whether it has one of the numbers from `first` up to `end`.
    pub(crate) fn meets(&self, first: u64, end: u64) -> bool
        ensures { MatchBool result (Meets self.now first end) (IsApart self.now first end) }
    {
        self.first < end && first < self.end
    }

    /// Whether it has this number.
    pub(crate) fn has(&self, number: u64) -> bool
        ensures { MatchBool result (IsIn self.now number) (IsNotIn self.now number) }
    {
        self.first <= number && number < self.end
    }
}
