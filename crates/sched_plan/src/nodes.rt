use sched_time::Millis;

/// Which value of a step a gate tests.
#[derive(Clone, Copy, Debug, PartialEq, Eq)]
pub enum Side {
    Input,
    Output,
}

/// How a gate compares a number with its bound.
#[derive(Clone, Copy, Debug, PartialEq, Eq)]
pub enum Test {
    Below,
    AtLeast,
    Equal,
}

/// What is made of the outputs so far.
#[derive(Clone, Copy, Debug, PartialEq, Eq)]
pub enum Fold {
    /// The sum of the numbers.
    Sum,
    /// How many there are.
    Count,
    /// The greatest of the numbers, 0 where there is none.
    Max,
    /// All of them, in order.
    List,
}

/// What a schedule over one plan makes of that plan. Durations are in milliseconds.
#[derive(Clone, Copy, Debug, PartialEq, Eq)]
pub enum One {
    /// The plan, but done where the test of the value has not this result. It fails where the value is no number.
    Gate {
        side: Side,
        want: bool,
        test: Test,
        bound: Millis,
    },
    /// The plan's decisions, with what is made of its outputs at the earlier events at which it went on.
    Gather(Fold),
    /// Each delay made longer by this much.
    Add(Millis),
    /// This delay instead of each.
    Set(Millis),
    /// Each delay, but at most this one.
    Cap(Millis),
    /// Each delay made longer by the output, where that is a number.
    AddOut,
    /// Each delay times a ratio between `least` and `most` thousandths, which the random word of the lane picks.
    Jitter {
        lane: usize,
        least: u64,
        most: u64,
    },
    /// The plan, but done once this much time has passed since the first event.
    Within(Millis),
    /// The plan, but done where it would go on later than this much time after the first event.
    EndsBy(Millis),
    /// The plan, begun anew at the first event at which this much time has passed since it last began.
    Renew(Millis),
    /// The plan, begun anew at each event that comes at least this much time after the event before it.
    RenewIdle(Millis),
    /// The plan's decisions, with the first part of its output; nothing where that is no pair.
    First,
    /// The plan's decisions, with the second part of its output; nothing where that is no pair.
    Second,
    /// The plan's decisions, with nothing as output.
    Nothing,
}

/// What a schedule over two plans makes of them.
#[derive(Clone, Copy, Debug, PartialEq, Eq)]
pub enum Two {
    /// Goes on while both do, at the later start.
    Meet,
    /// Goes on while one does, at the earlier start.
    Join,
    /// The first plan until it is done, then the second.
    Follow,
    /// The second plan, whose inputs are the first one's outputs; goes on while both do, at the later start.
    Feed,
}
