//! Retries by a budget that they refer to by an `Arc`, and many by one pass of a quota.
ghost use Rattle.sched_ticket_quota.specs.Held.{IsOf};

use super::*;
use std::sync::Arc;

// A quota of so many tickets and thousandths of a ticket for each request, in each second, and its first pass.
fn quota(rt: &impl Abort, alloc: Global, reserve: u64, share: u64) -> (Quota, QuotaPass)
    ensures { IsOf result.0 result.1 }
{
    let terms = Terms {
        reserve,
        share,
        period: Millis::from(1000),
    };
    Quota::new(alloc, moment(rt, 0), terms).expect(rt, "the terms are in range")
}

// What a retry drew its tickets by.
fn drawing_of<X: Effect, D: Draws>(retry: Retry<X, D>) -> D {
    let (_, _, drawing) = retry.into_parts();
    drawing
}

// The pass has so many tickets, and its budget, to which nothing else refers, is closed with them.
fn assert_closes(rt: &impl Abort, drawing: OnBudget<Arc<Budget>>, tickets: u64) {
    let (pass, budget) = drawing.into_parts();
    assert_eq!(rt; pass.count(), tickets);
    let budget = Arc::into_inner(budget).expect(rt, "no other refers to it");
    assert_eq!(rt; budget.close(pass).ok(), Some(tickets));
}

// A retry of an effect that fails each time, by the one ticket of a budget that no other refers to.
fn with_its_budget(rt: &impl Abort, alloc: Global) -> Retry<Scripted, OnBudget<Arc<Budget>>> {
    let (budget, pass) = budget(rt, alloc, 1);
    let budget = Arc::new(alloc, budget).expect(rt, "there is memory");
    let drawing = OnBudget::new(pass, budget);
    let effect = scripted(rt, alloc, &[Err(7)]);
    Retry::new(alloc, effect, driver(rt, alloc, Plan::recurs(9)), drawing)
}

// It outlives the function that made it, and its budget is closed in another one.
#[test]
fn retry_by_an_arc(rt: HostRuntime) {
    let retry = finish(&rt, with_its_budget(&rt, rt.alloc()));
    assert_eq!(rt; retry.over(), Some(How::BudgetRefused));
    assert_eq!(rt; retry.granted(), 1);
    assert_closes(&rt, drawing_of(retry), 1);
}

// A retry of an effect that fails once, polled twice at this moment. Answers whether it has won, and what drew.
fn retried<R, D: Draws>(rt: &R, drawing: D, at: u64) -> (bool, D)
where
    R: RandomSource + AllocGlobal + Abort,
{
    let alloc = rt.alloc();
    let effect = scripted(rt, alloc, &[Err(7), Ok(1)]);
    let mut retry = Retry::new(alloc, effect, driver(rt, alloc, Plan::recurs(1)), drawing);
    poll(rt, &mut retry, at);
    poll(rt, &mut retry, at);
    let won = retry.over() == Some(How::Won);
    (won, drawing_of(retry))
}

// A worker makes a request each 10 ms, and a hundred in each of the thousand seconds, where each adds a tenth of a
// ticket to one that is there: the first, the tenth, the twentieth and so on to the hundredth are retried.
#[test]
fn retries_of_a_worker(rt: HostRuntime) {
    let (quota, pass) = quota(&rt, rt.alloc(), 1, 100);
    let mut drawing = OnQuota::new(pass, &quota);
    let mut won: u64 = 0;
    for turn in 0..100_000u64 {
        let at = turn.saturating_mul(10);
        drawing.deposit(moment(&rt, at));
        let (wins, drew) = retried(&rt, drawing, at);
        drawing = drew;
        if wins {
            won = won.saturating_add(1);
        }
    }
    assert_eq!(rt; won, 11_000);
    assert_eq!(rt; drawing.granted(), 11_000);
}
