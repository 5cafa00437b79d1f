use super::is_told;
use sched_cli::{PoolFault, PrintFault, WordsFault};
use std::alloc::Global;
use std::process::Abort;

fn tells(rt: &impl Abort, alloc: Global, fault: &WordsFault, line: &str, status: u8) {
    is_told(rt, fault.to_string(alloc), fault.status(), (line, status));
}

#[test]
fn each_fault_of_a_command_line_has_its_line_and_status(rt: HostRuntime) {
    let alloc = rt.alloc();
    let bad = WordsFault::bad(alloc, "why");
    tells(&rt, alloc, &bad, "zsched: bad command line\nwhy", 2);
    let usage = "Usage: zsched plan\n";
    let help = String::from_str(alloc, usage).expect(&rt, "there is memory");
    tells(&rt, alloc, &WordsFault::Help(help), usage, 0);
    tells(&rt, alloc, &WordsFault::NoMemory, "zsched: no memory", 5);
}

// Each fault of printing a pool, its line and its status.
const FAULTS: [(PoolFault, &str, u8); 12] = [
    (
        PoolFault::Print(PrintFault::ReadFailed),
        "zsched: read failed",
        4,
    ),
    (
        PoolFault::Print(PrintFault::TooLong),
        "zsched: input too long",
        3,
    ),
    (PoolFault::Print(PrintFault::NotJson), "zsched: not JSON", 3),
    (
        PoolFault::Print(PrintFault::NotAPlan),
        "zsched: not a plan",
        3,
    ),
    (
        PoolFault::Print(PrintFault::OutOfRange),
        "zsched: number out of range",
        3,
    ),
    (PoolFault::Print(PrintFault::TooDeep), "zsched: too deep", 3),
    (
        PoolFault::Print(PrintFault::TooMany),
        "zsched: too many nodes",
        3,
    ),
    (
        PoolFault::Print(PrintFault::NoMemory),
        "zsched: no memory",
        5,
    ),
    (PoolFault::NotStarted, "zsched: worker not started", 7),
    (
        PoolFault::Print(PrintFault::WriteFailed),
        "zsched: write failed",
        4,
    ),
    (PoolFault::Unfinished, "zsched: not finished", 6),
    (PoolFault::Mixed, "zsched: jobs mixed up", 8),
];

#[test]
fn each_fault_of_printing_a_pool_has_its_line_and_status(rt: HostRuntime) {
    for (fault, line, status) in &FAULTS {
        is_told(
            &rt,
            fault.to_string(rt.alloc()),
            fault.status(),
            (line, *status),
        );
    }
}
