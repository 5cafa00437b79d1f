//! The throttle as a machine: first runs and retries are refused with a probability that grows as fewer requests are
//! accepted. Its word counts one window; a call has the word that the window before was closed with.
ghost use Rattle.std.specs.Prelude.{◌≡◌, ◌-◌, ◌<◌, ◌≤◌, not, true, false};
ghost use Rattle.sched_limit.specs.Window.{is_open_to};
ghost use Rattle.sched_limit.specs.Throttle.{window_at, is_throttled, asks_in, accepted_in, closed_in, asks_throttle};
ghost use Rattle.sched_limit.specs.Turns.{has_closed, moment_in};

use crate::refusal::Refusal;
use crate::refuses::Refuses;
use crate::throttle::Throttle;
use crate::window;
use crate::window::{
    LAST_WINDOW, MAX_COUNT, accepts_at, counted, is_open_to, requests_at, window_of,
};
use sched_limit_word::{Call, Machine};
use sched_time::{FAR, Moment};

impl Throttle {
    /// The window of a moment, from 1 on.
    pub fn window_at(&self, now: Moment) -> u64
        ensures window { result ≡ window_at self.now now }
        ensures some { 0 < result }
        ensures few { result < 8388608 }
    {
        (now.get().saturating_sub(self.start) / self.period + 1).min(LAST_WINDOW)
    }

    /// The same. Where it is the one that is guessed, nothing is divided.
    #[inline(always)]
    pub fn window_near(&self, now: Moment, guess: u64) -> u64
        ensures window { result ≡ window_at self.now now }
        ensures some { 0 < result }
        ensures few { result < 8388608 }
    {
        let since = now.get().saturating_sub(self.start);
        if let Some(end) = guess.checked_mul(self.period) {
            if since < end && end - since <= self.period && guess <= LAST_WINDOW {
                return guess;
            }
        }
        self.window_at(now)
    }

    /// Whether the word takes no counts of the window of this moment, since a later one has begun.
    pub fn is_late(&self, now: Moment, word: u64) -> bool
        ensures { result ≡ not (is_open_to (window_at self.now now) word) }
    {
        !is_open_to(self.window_near(now, window_of(word)), word)
    }

    /// Whether the window before that of this moment is closed, by this word of it.
    #[inline(always)]
    #[tactic(auto, using(crate::proofs::Throttles::has_closed_shut))]
    pub fn has_closed(&self, now: Moment, word: u64) -> bool
        ensures closed { result ≡ has_closed self.now now word }
        ensures shut { result ≡ true → is_open_to (window_at self.now now - 1) word ≡ false }
    {
        let next = window_of(word) + 1;
        window::is_closed(word) && self.window_near(now, next) == next
    }

    /// A moment of the window that this word counts, or of the one after it where that is closed.
    pub fn moment_of(&self, word: u64) -> Moment
        ensures { result ≡ moment_in self.now word }
    {
        let ahead = if window::is_closed(word) {
            window_of(word)
        } else {
            window_of(word).saturating_sub(1)
        };
        let millis = self.start.saturating_add(ahead.saturating_mul(self.period));
        let Some(moment) = Moment::new(millis.min(FAR)) else {
            unreachable!()
        };
        moment
    }

    /// Whether one of so many requests is refused, of which so many were accepted.
    fn is_throttled(&self, requests: u64, accepts: u64, random: u32) -> bool
        requires requests { requests ≤ 2097150 }
        requires accepts { accepts ≤ 2097150 }
        ensures { result ≡ is_throttled self.now requests accepts random }
    {
        let asked = 1000 * requests;
        let allowed = self.ratio as u64 * accepts;
        if asked <= allowed {
            return false;
        }
        random as u64 * (requests + 1) * 1000 < (asked - allowed) * 4294967296
    }

    /// Whether one that asks in this window is refused, where the window before counts as this word says.
    fn asks(&self, window: u64, random: u32, before: u64, word: u64) -> bool
        requires { 0 < window }
        ensures { result ≡ asks_throttle self.now window random before word }
    {
        let requests = requests_at(window, word) + requests_at(window - 1, before);
        let accepts = accepts_at(window, word) + accepts_at(window - 1, before);
        self.is_throttled(requests, accepts, random)
    }
}

/// The word after one more request of this window.
fn asks_in(window: u64, word: u64) -> u64
    requires { window < 8388608 }
    ensures { result ≡ asks_in window word }
{
    let requests = (requests_at(window, word) + 1).min(MAX_COUNT);
    counted(window, 0, requests, accepts_at(window, word))
}

/// The word after one more accept in this window.
fn accepted_in(window: u64, word: u64) -> u64
    requires { window < 8388608 }
    ensures { result ≡ accepted_in window word }
{
    let accepts = (accepts_at(window, word) + 1).min(MAX_COUNT);
    counted(window, 0, requests_at(window, word), accepts)
}

/// The word after this window takes no more counts.
fn closed_in(window: u64, word: u64) -> u64
    requires { window < 8388608 }
    ensures { result ≡ closed_in window word }
{
    counted(
        window,
        1,
        requests_at(window, word),
        accepts_at(window, word),
    )
}

impl Machine for Throttle {
    ghost use Rattle.sched_limit.specs.Throttle.{throttle_next};
    ghost use Rattle.sched_limit_word.specs.Tokens.{no_tokens};

    ghost first = { λ t. 0 };

    ghost next = { throttle_next };

    ghost tokens = { λ t. no_tokens };

    fn first(&self) -> u64 {
        0
    }

    #[inline(always)]
    fn next(&self, call: Call, word: u64) -> u64 {
        match call {
            Call::Admit(now, _, _) => {
                let window = self.window_near(now, window_of(word));
                if is_open_to(window, word) {
                    asks_in(window, word)
                } else {
                    word
                }
            }
            Call::Succeeded(now, _, _) => {
                let window = self.window_near(now, window_of(word));
                if is_open_to(window, word) {
                    accepted_in(window, word)
                } else {
                    word
                }
            }
            Call::Closed(now) => {
                let window = self.window_near(now, window_of(word) + 1) - 1;
                if is_open_to(window, word) {
                    closed_in(window, word)
                } else {
                    word
                }
            }
            Call::Draw(_, _, _) => word,
            Call::Failed(_, _) => word,
            Call::Ended(_) => word,
            Call::Returned(_, _) => word,
            Call::OpenedByHand(_, _) => word,
            Call::ClosedByHand(_) => word,
        }
    }
}

impl Refuses for Throttle {
    ghost use Rattle.sched_limit.specs.Holds.{no_holds};
    ghost use Rattle.sched_limit.specs.Honest.{free_honest};
    ghost use Rattle.sched_limit.specs.Throttle.{throttle_refusal};

    ghost refusal = { throttle_refusal };

    ghost generation = { λ t word. 0 };

    ghost worth = { λ t drawn. 0 };

    ghost holds = { λ t. no_holds };

    ghost honest = { λ t. free_honest _ };

    #[inline(always)]
    fn refusal(&self, call: Call, word: u64) -> Option<Refusal> {
        match call {
            Call::Admit(now, random, before) => {
                let window = self.window_near(now, window_of(word));
                if !is_open_to(window, word) {
                    Some(Refusal::RacesLost)
                } else if self.asks(window, random, before, word) {
                    Some(Refusal::Throttled)
                } else {
                    None
                }
            }
            Call::Succeeded(_, _, _) => None,
            Call::Closed(_) => None,
            Call::Draw(_, _, _) => None,
            Call::Failed(_, _) => None,
            Call::Ended(_) => None,
            Call::Returned(_, _) => None,
            Call::OpenedByHand(_, _) => None,
            Call::ClosedByHand(_) => None,
        }
    }

    fn generation(&self, _word: u64) -> u64 {
        0
    }

    fn worth(&self, _drawn: Option<u64>) -> u64 {
        0
    }
}
