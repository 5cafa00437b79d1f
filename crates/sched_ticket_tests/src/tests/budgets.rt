//! Budgets that count their passes. The tests in C call those that go by parts.
ghost use Rattle.std.specs.Prelude.{◌≡◌, IfOk};
ghost use Rattle.sched_ticket.specs.Held.{IsOf};

use sched_ticket::{Budget, Pass, PassesOut, TicketFault};
use std::process::Abort;

// The budget that was made, and its first pass.
fn made(rt: &impl Abort, made: Result<(Budget, Pass), TicketFault>) -> (Budget, Pass)
    requires { IfOk made (λ r. IsOf r.0 r.1) }
    ensures { IsOf result.0 result.1 }
{
    made.expect(rt, "there is memory")
}

// Another pass, split off this one.
fn part_of(rt: &impl Abort, budget: &Budget, pass: &mut Pass) -> Pass
    requires { IsOf budget.now pass.old }
    ensures of { IsOf budget.now pass.new }
    ensures part { IsOf budget.now result }
{
    pass.split(budget).expect(rt, "a further pass is left")
}

// Asserts that the pass stands for all passes, with so many tickets.
fn closes(rt: &impl Abort, budget: Budget, pass: Pass, tickets: u64)
    requires { IsOf budget pass }
{
    let count = budget.close(pass).ok();
    assert_eq!(rt; count, Some(tickets));
}

// Asserts that the two passes stand for all passes, with so many tickets.
fn closes_with_both(rt: &impl Abort, budget: Budget, a: Pass, b: Pass, tickets: u64)
    requires a { IsOf budget a }
    requires b { IsOf budget b }
{
    let all = a.join(b, &budget);
    assert_eq!(rt; all.count(), tickets);
    closes(rt, budget, all, tickets);
}

// Hands budget and pass back, where another pass is alive or was dropped.
fn stays_open(rt: &impl Abort, budget: Budget, pass: Pass) -> (Budget, Pass)
    requires { IsOf budget pass }
    ensures { (result.0 ≡ budget) × IsOf result.0 result.1 }
{
    let Err((budget, pass, PassesOut)) = budget.close(pass) else {
        panic!(rt; "another pass is out");
    };
    (budget, pass)
}

// Asserts what a draw is given.
fn draws(rt: &impl Abort, budget: &Budget, pass: &mut Pass, want: Option<u64>)
    requires { IsOf budget.now pass.old }
    ensures { IsOf budget.now pass.new }
{
    assert_eq!(rt; pass.draw(budget), want);
}

// Asserts what comes of a limit that is raised to this.
fn raises(
    rt: &impl Abort,
    budget: &Budget,
    pass: &mut Pass,
    to: u64,
    want: Result<u64, TicketFault>,
)
    requires { IsOf budget.now pass.old }
    ensures { IsOf budget.now pass.new }
{
    assert_eq!(rt; pass.raise(budget, to), want);
}

#[test]
fn two_tickets(rt: HostRuntime) {
    let (budget, mut first) = made(&rt, Budget::new(rt.alloc(), 2));
    let mut second = part_of(&rt, &budget, &mut first);
    draws(&rt, &budget, &mut first, Some(0));
    draws(&rt, &budget, &mut second, Some(1));
    draws(&rt, &budget, &mut first, None);
    let (budget, first) = stays_open(&rt, budget, first);
    closes_with_both(&rt, budget, first, second, 2);
}

// A refused pass stays refused, and uses a number up: of three tickets two are drawn.
#[test]
fn a_limit_that_rises(rt: HostRuntime) {
    let (budget, mut first) = made(&rt, Budget::rising(rt.alloc(), 1));
    let mut second = part_of(&rt, &budget, &mut first);
    draws(&rt, &budget, &mut first, Some(0));
    draws(&rt, &budget, &mut first, None);
    raises(&rt, &budget, &mut second, 3, Ok(3));
    draws(&rt, &budget, &mut second, Some(2));
    draws(&rt, &budget, &mut first, None);
    let too_large = Err(TicketFault::LimitTooLarge);
    raises(&rt, &budget, &mut second, 4294967297, too_large);
    closes_with_both(&rt, budget, first, second, 2);
}

// Whether each of so many splits succeeded, with the parts dropped.
fn split_times(budget: &Budget, pass: &mut Pass, times: u64) -> bool
    requires { IsOf budget.now pass.old }
    ensures { IsOf budget.now pass.new }
{
    let mut each = true;
    for _ in 0..times {
        each &= pass.split(budget).is_ok();
    }
    each
}

// Asserts that the pass is not split any more.
fn is_whole(rt: &impl Abort, budget: &Budget, pass: &mut Pass)
    requires { IsOf budget.now pass.old }
    ensures { IsOf budget.now pass.new }
{
    let fault = pass.split(budget).err();
    assert_eq!(rt; fault, Some(TicketFault::TooManyPasses));
}

#[test]
fn counts_passes(rt: HostRuntime) {
    let (budget, mut pass) = made(&rt, Budget::new(rt.alloc(), 9));
    assert!(rt; split_times(&budget, &mut pass, 65535));
    is_whole(&rt, &budget, &mut pass);
    draws(&rt, &budget, &mut pass, Some(0));
    stays_open(&rt, budget, pass);
}
