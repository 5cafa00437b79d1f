//! The system's clock and its random words, for real and by sources that fail.
use super::moment;
use rand_core::Rng;
use sched_task::{Clock, SystemClock, SystemWords, TimeSource};
use std::cell::Cell;
use std::io;
use std::process::Abort;
use std::random::RandomSource;
use std::time::{self, Duration, Instant};

// Reads these milliseconds, one after the other, and fails at `None` and past the last one. It adds up what it slept
// for.
#[derive(Drop)]
struct Readings<'a> {
    millis: &'a [Option<u64>],
    read: Cell<usize>,
    slept: Cell<u64>,
}

impl<'a> Readings<'a> {
    fn new(millis: &'a [Option<u64>]) -> Readings<'a> {
        Readings {
            millis,
            read: Cell::new(0),
            slept: Cell::new(0),
        }
    }
}

impl<'a> time::Clock for Readings<'a> {
    fn monotonic(&self) -> io::Result<Duration> {
        let at = self.read.get();
        self.read.set(at.saturating_add(1));
        match self.millis.get(at).copied().flatten() {
            Some(millis) => Ok(Duration::from_millis(millis)),
            None => Err(io::Error::from_raw_os_error(5)),
        }
    }

    fn since_1970(&self) -> io::Result<Duration> {
        Err(io::Error::from_raw_os_error(5))
    }

    fn sleep(&self, duration: Duration) {
        let millis = u64::try_from(duration.as_millis()).unwrap_or(u64::MAX);
        self.slept.set(self.slept.get().saturating_add(millis));
    }
}

fn clock_by<S: TimeSource>(rt: &impl Abort, source: S) -> SystemClock<S> {
    SystemClock::new(source).expect(rt, "its source tells the time")
}

// A clock that was made at 1000 tells 5, then 7; it keeps 7 while its source goes back or fails.
#[test]
fn a_clock_never_goes_back(rt: HostRuntime) {
    let readings = [
        Some(1000),
        Some(1005),
        Some(1007),
        Some(900),
        None,
        Some(1006),
        Some(1010),
    ];
    let source = Readings::new(&readings);
    let mut clock = clock_by(&rt, &source);
    for want in [5, 7, 7, 7, 7, 10, 10] {
        assert_eq!(rt; clock.now().get(), want);
    }
    assert_eq!(rt; source.slept.get(), 0);
}

// It sleeps from 20 to 50, wakes at 45 and says so; 40 is over by then, and is not slept for.
#[test]
fn a_clock_tells_when_it_woke(rt: HostRuntime) {
    let readings = [Some(100), Some(120), Some(145), Some(146), Some(147), None];
    let source = Readings::new(&readings);
    let mut clock = clock_by(&rt, &source);
    for (until, woke, slept) in [(50, 45, 30), (40, 46, 30), (60, 47, 43)] {
        let told = clock.wait_until(moment(&rt, until)).get();
        assert_eq!(rt; (until, told, source.slept.get()), (until, woke, slept));
    }
}

#[test]
fn a_clock_whose_source_fails_is_not_made(rt: HostRuntime) {
    let source = Readings::new(&[None, Some(1)]);
    assert!(rt; SystemClock::new(&source).is_err());
}

// A copy counts from the same moment, and a reading past the last moment is the last moment.
#[test]
fn a_copy_has_the_same_start(rt: HostRuntime) {
    let readings = [
        Some(0),
        Some(4611686018427387902),
        Some(4611686018427387904),
    ];
    let source = Readings::new(&readings);
    let mut clock = clock_by(&rt, &source);
    let mut copy = clock.copy();
    assert_eq!(rt; clock.now().get(), 4611686018427387902);
    assert_eq!(rt; copy.now().get(), 4611686018427387903);
}

#[test]
fn the_systems_clock_waits_20_milliseconds(rt: HostRuntime) {
    let before = Instant::now(&rt).expect(&rt, "the system tells the time");
    let mut clock = clock_by(&rt, &rt);
    assert!(rt; clock.now().get() < 20, "the clock begins at 0");
    let woke = clock.wait_until(moment(&rt, 20)).get();
    let passed = before.elapsed(&rt).expect(&rt, "the system tells the time");
    assert!(rt;
        woke >= 20 && u128::from(woke) <= passed.as_millis(),
        "woke at {woke}"
    );
    assert!(rt; clock.now().get() >= woke);
}

// Gives this byte and the ones after it.
struct Bytes(u8);

impl RandomSource for Bytes {
    fn fill_bytes(&self, buf: &mut [u8]) -> io::Result<()> {
        let mut next = self.0;
        for byte in buf.iter_mut() {
            *byte = next;
            next = next.wrapping_add(1);
        }
        Ok(())
    }
}

// Has no random bytes.
struct Exhausted;

impl RandomSource for Exhausted {
    fn fill_bytes(&self, _buf: &mut [u8]) -> io::Result<()> {
        Err(io::Error::from_raw_os_error(5))
    }
}

fn words_by(rt: &impl Abort, source: &impl RandomSource) -> SystemWords {
    SystemWords::new(source).expect(rt, "there are random bytes")
}

// By hand, for the state 03020100, 07060504, 0b0a0908, 0f0e0d0c of the bytes 0 to 15: the first and last words add up
// to 12100e0c, which turned left by 7 is 08070609, and 03020100 more is 0b090709.
#[test]
fn the_systems_bytes_seed_its_words(rt: HostRuntime) {
    let mut words = words_by(&rt, &Bytes(0));
    assert_eq!(rt; words.next_u32(), 0x0b09_0709);
    assert!(rt; SystemWords::new(&Exhausted).is_err());
    let mut one = words_by(&rt, &rt);
    let mut other = words_by(&rt, &rt);
    assert!(rt;
        one.next_u64() != other.next_u64(),
        "two seeds of the system"
    );
}
