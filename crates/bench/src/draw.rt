//! Draws tickets of one budget with several threads: `bench draw [THREADS] [DRAWS] [rising] [parts]`, by default with 2
//! threads and 1,000 draws each. The budget keeps its limit, or with `rising` may raise it; it counts its passes, or
//! with `parts` goes by parts. It prints what was drawn.
ghost use Rattle.std.specs.Prelude.{◌≡◌, ◌*◌, ◌≤◌, false, All, IfOk, IfSome};
ghost use Rattle.sched_ticket.specs.Held.{IsOf};

use sched_ticket::{Budget, Pass, TicketFault};
use std::alloc::{AllocError, AllocGlobal, Global};
use std::rt::Runtime;
use std::thread::{Threads, map_vec};
use std::{env, io};

pub fn bench<R: Runtime + Threads + AllocGlobal + Sync>(rt: &R) -> io::Result<()> {
    let mut words = env::args(rt)?.skip(2);
    let threads = words
        .next()
        .and_then(|word| word.as_str().parse().ok())
        .unwrap_or(2);
    let draws = words
        .next()
        .and_then(|word| word.as_str().parse().ok())
        .unwrap_or(1000);
    let mut kind = Kind {
        rises: false,
        by_parts: false,
    };
    for word in words {
        kind.rises |= word.as_str() == "rising";
        kind.by_parts |= word.as_str() == "parts";
    }
    let count = if threads == 1 {
        draw_alone(rt.alloc(), kind, draws)
    } else {
        draw_beside(rt, rt.alloc(), kind, threads, draws)
    };
    match count {
        Ok(Some(count)) => println!(rt; "{threads} threads, {draws} draws each: {count} tickets"),
        Ok(None) => println!(rt; "a pass is missing"),
        Err(fault) => println!(rt; "{fault:?}"),
    }
}

/// Whether a budget's limit may rise, and whether it goes by parts.
#[derive(Clone, Copy, Drop)]
struct Kind {
    rises: bool,
    by_parts: bool,
}

/// A budget of so many tickets.
fn budget_of(alloc: Global, kind: Kind, limit: u64) -> Result<(Budget, Pass), TicketFault>
    ensures of { IfOk result (λ r. IsOf r.0 r.1) }
    ensures limit { IfOk result (λ r. (r.0.terms.limit ≡ limit) × (r.0.terms.rises ≡ kind.rises)) }
{
    match (kind.rises, kind.by_parts) {
        (false, false) => Budget::new(alloc, limit),
        (true, false) => Budget::rising(alloc, limit),
        (false, true) => Budget::by_parts(alloc, limit),
        (true, true) => Budget::rising_by_parts(alloc, limit),
    }
}

/// This thread draws so many tickets. It answers how many the budget gave out.
fn draw_alone(alloc: Global, kind: Kind, draws: u64) -> Result<Option<u64>, TicketFault>
    ensures { IfOk result (λ o. IfSome o (λ n. kind.rises ≡ false → n ≤ draws)) }
{
    let (budget, pass) = budget_of(alloc, kind, draws)?;
    let pass = draw_times(&budget, pass, draws);
    Ok(budget.close(pass).ok())
}

/// Each thread draws so many tickets. It answers how many the budget gave out.
fn draw_beside<R: Threads + Sync>(
    rt: &R,
    alloc: Global,
    kind: Kind,
    threads: u64,
    draws: u64,
) -> Result<Option<u64>, TicketFault>
    ensures { IfOk result (λ o. IfSome o (λ n. kind.rises ≡ false → n ≤ threads * draws)) }
{
    let (budget, mut first) = budget_of(alloc, kind, threads.saturating_mul(draws))?;
    let passes = split_off(alloc, &budget, &mut first, threads)?;
    let Ok(passes) = draw_each(rt, &budget, passes, draws) else {
        return Err(TicketFault::NoMemory);
    };
    let all = join_all(&budget, first, passes);
    Ok(budget.close(all).ok())
}

/// One pass for each thread.
fn split_off(
    alloc: Global,
    budget: &Budget,
    first: &mut Pass,
    threads: u64,
) -> Result<Vec<Pass>, TicketFault>
    requires { IsOf budget.now first.old }
    ensures of { IsOf budget.now first.new }
    ensures passes { IfOk result (λ v. All (IsOf budget.now) v.items) }
{
    let mut passes = Vec::new(alloc);
    for _ in 0..threads {
        let part = first.split(budget)?;
        if passes.push(part).is_err() {
            return Err(TicketFault::NoMemory);
        }
    }
    Ok(passes)
}

/// Each pass draws in a thread of its own.
fn draw_each<R: Threads + Sync>(
    rt: &R,
    budget: &Budget,
    passes: Vec<Pass>,
    draws: u64,
) -> Result<Vec<Pass>, AllocError>
    requires { All (IsOf budget.now) passes.items }
    ensures { IfOk result (λ v. All (IsOf budget.now) v.items) }
{
    map_vec(rt, passes, &|pass: Pass| draw_times(budget, pass, draws))
}

/// Draws so many tickets, if there are so many.
fn draw_times(budget: &Budget, mut pass: Pass, draws: u64) -> Pass
    requires { IsOf budget.now pass }
    ensures { IsOf budget.now result }
{
    for _ in 0..draws {
        if pass.draw(budget).is_none() {
            break;
        }
    }
    pass
}

fn join_all(budget: &Budget, mut first: Pass, mut passes: Vec<Pass>) -> Pass
    requires first { IsOf budget.now first }
    requires passes { All (IsOf budget.now) passes.items }
    ensures { IsOf budget.now result }
{
    while let Some(pass) = passes.pop() {
        first = first.join(pass, budget);
    }
    first
}
