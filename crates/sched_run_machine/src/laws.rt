//! What holds of the definitions, on every history. Each function does nothing: its contract is a law.
ghost use Rattle.sched_run_machine.specs.Laws.{DeadlinesEndLaterStarts, NoneBeginsLate};

/// By a deadline a schedule answers as it does without one, but is done where it plans a start past the deadline.
pub fn deadlines_end_later_starts()
    ensures { DeadlinesEndLaterStarts }
{}

/// A poll past the deadline of a task begins no run but the first.
pub fn none_begins_past_a_deadline()
    ensures { NoneBeginsLate }
{}
