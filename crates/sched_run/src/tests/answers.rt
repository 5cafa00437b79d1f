//! Runs that are futures.
use super::*;
use futures::Future;
use futures::task::Context;

// An answer that comes at a later poll, and asks for that.
#[derive(Drop)]
struct Answer {
    pending_polls: u64,
    outcome: Result<Code, Code>,
}

impl Future for Answer {
    type Output = Result<Code, Code>;

    fn poll(&mut self, cx: &mut Context<'_>) -> Poll<Result<Code, Code>> {
        if self.pending_polls > 0 {
            self.pending_polls -= 1;
            return cx.yield_now();
        }
        Poll::Ready(self.outcome)
    }
}

// A server whose answers come at their third poll: 503, and then 200.
#[derive(Drop)]
struct Server {
    asked: u64,
}

impl FutureAction for Server {
    type Item = Code;

    type Fault = Code;

    type Run = Answer;

    fn start(&mut self) -> Answer {
        self.asked = self.asked.saturating_add(1);
        Answer {
            pending_polls: 2,
            outcome: if self.asked < 2 {
                Err(Code(Millis::from(503)))
            } else {
                Ok(Code(Millis::from(200)))
            },
        }
    }
}

// A run that is pending goes on at the next poll. One that ends is listed once, and the next is started at its time.
fn runs_twice<R, X: Effect, D: Draws>(rt: &R, mut retry: Retry<X, D>)
where
    R: RandomSource + AllocGlobal + Abort,
{
    for at in [1, 2, 3, 103, 104] {
        assert!(rt; !poll(rt, &mut retry, at), "it goes on at {at}");
    }
    assert!(rt; poll(rt, &mut retry, 105), "it is over");
    assert_eq!(rt; retry.over(), Some(How::Won));
    assert_moments(rt, retry.begun(), &[1, 103]);
    assert_eq!(rt; retry.effect().runs().len(), 2);
}

#[test]
fn run_is_a_future(rt: HostRuntime) {
    let alloc = rt.alloc();
    let call = FutureCall::new(alloc, Server { asked: 0 });
    let driver = driver(&rt, alloc, Plan::spaced(100));
    runs_twice(&rt, Retry::new(alloc, call, driver, Unlimited::new()));
}
