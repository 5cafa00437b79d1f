//! A leased pass of many leases.
ghost use Rattle.std.specs.Prelude.{◌≤◌};

use sched_ticket_lease::{Grant, GrantFault, Leased, NotBack, Ticket};
use sched_time::{Millis, Moment};
use std::process::Abort;

fn at(millis: u64) -> Moment
    requires { millis ≤ 4611686018427387903 }
{
    match Moment::new(millis) {
        Some(moment) => moment,
        None => unreachable!(),
    }
}

// One ticket of the window 7, which ends at 1600.
fn takes(rt: &impl Abort, leased: &mut Leased, number: u64, want: Result<(), GrantFault>) {
    let taken = leased.granted(Grant {
        window: 7,
        first: number,
        tickets: 1,
        until: at(1600),
    });
    assert_eq!(rt; taken, want, "{number}");
}

fn draws(rt: &impl Abort, leased: &mut Leased, number: u64) {
    let drawn = leased.draw(at(0)).ok();
    assert_eq!(rt; drawn.map(|ticket| ticket.number), Some(number));
}

fn comes_back(rt: &impl Abort, leased: &mut Leased, number: u64, want: Result<(), NotBack>) {
    let back = leased.hand_back(Ticket { window: 7, number });
    assert_eq!(rt; back, want, "{number}");
}

// No list grows with the leases of a window: of 2000 ranges apart from one another the last 1024 come back, and none of
// the others is granted again.
#[test]
fn ranges_without_end(rt: HostRuntime) {
    let mut leased = Leased::new(rt.alloc(), Millis::from(1600));
    for range in 0..2000_u32 {
        let number = u64::from(range) * 2;
        takes(&rt, &mut leased, number, Ok(()));
        draws(&rt, &mut leased, number);
    }
    comes_back(&rt, &mut leased, 975 * 2, Err(NotBack::NotOut));
    comes_back(&rt, &mut leased, 976 * 2, Ok(()));
    for number in [0, 975 * 2, 976 * 2] {
        takes(&rt, &mut leased, number, Err(GrantFault::HeldAlready));
    }
    assert_eq!(rt; leased.drawn(), 1999);
}
