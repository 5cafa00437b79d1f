//! A leased pass: what one holder has of a limit that a store keeps.
ghost use Rattle.std.specs.Prelude.{◌≡◌, ℕ, [], ◌<◌, ◌≤◌, IfOk, IfErr, IfSome, IfNone, MatchBool, min, max, length};
ghost use Rattle.std.specs.Prelude.{◌⊎◌};
ghost use Rattle.sched_ticket_lease.specs.Spans.{weight};
ghost use Rattle.sched_ticket_lease.specs.Requests.{since_then};
ghost use Rattle.sched_ticket_lease.specs.Holders.{IsNew, Remembers, Draws, DrawsNone, IsFree, IsHeld, Holds};
ghost use Rattle.sched_ticket_lease.specs.Holders.{HoldsNone, Takes, TakesNone};
ghost use Rattle.sched_ticket_lease.specs.Holders.{HandsBack, HandsNone, Lends, CountsRequests, TellsRequests};

use crate::requests::Requests;
use crate::spans::Spans;
use crate::ticket::{Grant, GrantFault, NoTicket, NotBack, Ticket};
use sched_time::{FAR, Millis, Moment};
use std::alloc::{AllocError, Global};
use std::marker::Model;

/// The most spans of tickets that are kept of those that are out. Tickets of the spans before them are not taken back.
const MAX_SPANS: usize = 1024;

/// What one holder, a thread or a process, has of a limit that a store keeps: tickets of one window, which it may draw
/// until the window ends, and those that it drew, which may come back. It has no clock and no store: its owner hands
/// over what the store answered. Contracts see it as a `Holder`.
#[derive(Drop)]
pub struct Leased {
    window: u64,
    /// When the window ends.
    until: Moment,
    /// Until then the store is left alone.
    ask_at: Moment,
    /// The tickets that may be drawn.
    at_hand: Spans,
    /// Those that were drawn, and not handed back.
    out: Spans,
    /// Where the numbers of those end that were forgotten.
    floor: u64,
    /// How many tickets of all windows were drawn, and not handed back.
    drawn: u64,
    requests: Requests,
}

impl Model for Leased {
    ghost use Rattle.sched_ticket_lease.specs.Holders.{Holder, IsHolder};

    ghost Value = { Holder };

    ghost view = { λ l. record {
      window = l.window;
      until = l.until;
      ask_at = l.ask_at;
      at_hand = l.at_hand;
      out = l.out;
      floor = l.floor;
      drawn = l.drawn;
      requests = l.requests;
    } };

    ghost invariant = { λ l. IsHolder l.at_hand l.out };
}

impl Leased {
    /// A holder that has nothing, of a limit whose windows are so long: 0 where there are none. Until it is granted
    /// something it takes them to begin at moment 0.
    pub fn new(alloc: Global, period: Millis) -> Leased
        ensures new { IsNew result }
        ensures period { result.requests.period ≡ period }
        ensures border { result.requests.border ≡ 0 }
    {
        Leased {
            window: 0,
            until: moment(FAR),
            ask_at: moment(0),
            at_hand: Spans::new(alloc),
            out: Spans::new(alloc),
            floor: 0,
            drawn: 0,
            requests: Requests::new(alloc, period),
        }
    }

    /// Draws one of the tickets at hand, at the moment `now`.
    pub fn draw(&mut self, now: Moment) -> Result<Ticket, NoTicket>
        ensures ok { IfOk result (λ t. Draws now self.old t self.new) }
        ensures err { IfErr result (λ why. DrawsNone now self.old why × (self.new ≡ self.old)) }
    {
        if now.get() < self.until.get() {
            match self.at_hand.move_next(&mut self.out) {
                Ok(Some(number)) => {
                    self.floor = trim(&mut self.out, self.floor);
                    self.drawn = self.drawn.saturating_add(1);
                    return Ok(Ticket {
                        window: self.window,
                        number,
                    });
                }
                Ok(None) => (),
                Err(_) => return Err(NoTicket::NoMemory),
            }
        }
        Err(if now.get() < self.ask_at.get() {
            NoTicket::AskAt(self.ask_at)
        } else {
            NoTicket::LeaseWanted
        })
    }

    /// Takes what the store granted. With tickets, the store may be asked again once they are used up; without, once
    /// the window is over.
    pub fn granted(&mut self, grant: Grant) -> Result<(), GrantFault>
        ensures ok { IfOk result (λ _. Takes self.old grant self.new) }
        ensures err { IfErr result (λ why. TakesNone self.old grant why × (self.new ≡ self.old)) }
    {
        let Grant {
            window,
            first,
            tickets,
            until,
        } = grant;
        if tickets > u64::MAX - first {
            return Err(GrantFault::TooLarge);
        }
        if window < self.window {
            return Err(GrantFault::Backwards);
        }
        if let Err(fault) = self.hold(window, first, first + tickets, until) {
            return Err(fault);
        }
        self.ask_at = next_ask(tickets, until);
        self.requests.set_border(until);
        Ok(())
    }

    // Holds the numbers from `first` up to `end` of this window.
    fn hold(&mut self, window: u64, first: u64, end: u64, until: Moment) -> Result<(), GrantFault>
        requires order { first ≤ end }
        requires on { self.old.window ≤ window }
        ensures ok { IfOk result (λ _. Holds self.old window first end until self.new) }
        ensures err { IfErr result (λ why. HoldsNone self.old window first end why × (self.new ≡ self.old)) }
    {
        if window == self.window {
            self.add(first, end, until)
        } else {
            self.turn(window, first, end, until)
        }
    }

    // Adds the numbers from `first` up to `end` of its window.
    fn add(&mut self, first: u64, end: u64, until: Moment) -> Result<(), GrantFault>
        requires { first ≤ end }
        ensures ok { IfOk result (λ _. Holds self.old self.old.window first end until self.new) }
        ensures err { IfErr result (λ why. HoldsNone self.old self.old.window first end why × (self.new ≡ self.old)) }
    {
        if self.overlaps(first, end) {
            return Err(GrantFault::HeldAlready);
        }
        match self.at_hand.add(first, end) {
            Ok(()) => {
                self.until = earlier(self.until, until);
                Ok(())
            }
            Err(_) => Err(GrantFault::NoMemory),
        }
    }

    // Comes to a later window, of which it has the numbers from `first` up to `end` alone.
    fn turn(&mut self, window: u64, first: u64, end: u64, until: Moment) -> Result<(), GrantFault>
        requires order { first ≤ end }
        requires later { self.old.window < window }
        ensures ok { IfOk result (λ _. Holds self.old window first end until self.new) }
        ensures err { IfErr result (λ why. HoldsNone self.old window first end why × (self.new ≡ self.old)) }
    {
        match self.at_hand.set(first, end) {
            Ok(()) => {
                self.out.clear();
                self.floor = 0;
                self.window = window;
                self.until = until;
                Ok(())
            }
            Err(_) => Err(GrantFault::NoMemory),
        }
    }

    // Whether it has, or had, one of the numbers from `first` up to `end`.
    fn overlaps(&self, first: u64, end: u64) -> bool
        ensures { MatchBool result (IsHeld self.now first end) (IsFree self.now first end) }
    {
        if first >= end {
            return false;
        }
        if first < self.floor {
            return true;
        }
        if self.at_hand.overlaps(first, end) {
            return true;
        }
        self.out.overlaps(first, end)
    }

    /// Leaves the store alone until this moment.
    pub fn leave_alone(&mut self, until: Moment)
        ensures { self.new ≡ record self.old { ask_at = until } }
    {
        self.ask_at = until;
    }

    /// Hands a ticket back that was drawn of it, and not used: it may be drawn again.
    pub fn hand_back(&mut self, ticket: Ticket) -> Result<(), NotBack>
        ensures ok { IfOk result (λ _. HandsBack self.old ticket self.new) }
        ensures err { IfErr result (λ why. HandsNone self.old ticket why × (self.new ≡ self.old)) }
    {
        if ticket.window != self.window {
            return Err(NotBack::NotOut);
        }
        match self.out.move_number(ticket.number, &mut self.at_hand) {
            Ok(true) => {
                self.floor = trim(&mut self.out, self.floor);
                self.drawn = self.drawn.saturating_sub(1);
                Ok(())
            }
            Ok(false) => Err(NotBack::NotOut),
            Err(_) => Err(NotBack::NoMemory),
        }
    }

    /// Gives up to so many tickets of one range to another holder, which takes them as if the store had granted them.
    /// `None` where none is at hand, or `most` is 0.
    pub fn lend(&mut self, most: u64) -> Option<Grant>
        ensures some { IfSome result (λ grant. Lends most self.old grant self.new) }
        ensures none { IfNone result ((most ≡ 0) ⊎ (self.old.at_hand ≡ [])) }
        ensures kept { IfNone result (self.new ≡ self.old) }
    {
        if most == 0 {
            return None;
        }
        let span = self.at_hand.take_up_to(most)?;
        Some(Grant {
            window: self.window,
            first: span.first,
            tickets: span.end - span.first,
            until: self.until,
        })
    }

    /// Counts so many requests at the moment `now`.
    pub fn count_requests(&mut self, now: Moment, requests: u64) -> Result<(), AllocError>
        ensures ok { IfOk result (λ _. CountsRequests now requests self.old self.new) }
        ensures err { IfErr result (λ _. self.new ≡ self.old) }
    {
        self.requests.count(now, requests)
    }

    /// The requests to tell the store, whose present window began at the moment `since`: those that were counted from
    /// then on, and not told. None is told again, and none of those before.
    pub fn tell(&mut self, since: Moment) -> u64
        ensures { TellsRequests since result self.old self.new }
    {
        self.requests.tell(since)
    }

    /// How many requests were counted, and not told.
    pub fn untold(&self) -> u64
        ensures { result ≡ min (since_then 0 self.now.requests.slices) 18446744073709551615 }
    {
        self.requests.untold()
    }

    /// How many tickets of all windows were drawn with it, and not handed back.
    pub fn drawn(&self) -> u64
        ensures { result ≡ self.now.drawn }
    {
        self.drawn
    }

    /// How many tickets are at hand, of its window.
    pub fn at_hand(&self) -> u64
        ensures { result ≡ min (weight (λ _. 1) self.now.at_hand) 18446744073709551615 }
    {
        self.at_hand.count()
    }
}

// Forgets the first of the spans where they are too many, and answers where the numbers end that are forgotten.
fn trim(out: &mut Spans, floor: u64) -> u64
    requires { length out.old ≤ 1025 }
    ensures kept { Remembers (λ q. weight q out.old) floor out.new result }
    ensures few { length out.new ≤ 1024 }
{
    if out.len() <= MAX_SPANS {
        return floor;
    }
    floor.max(out.forget_one().end)
}

// When the store may be asked again that granted so many tickets of a window that ends then.
fn next_ask(tickets: u64, until: Moment) -> Moment
    ensures used_up { 0 < tickets → result ≡ 0 }
    ensures over { tickets ≡ 0 → result ≡ until }
{
    if tickets > 0 { moment(0) } else { until }
}

// The earlier of two moments.
fn earlier(one: Moment, other: Moment) -> Moment
    ensures { result ≡ min one other }
{
    if one.get() < other.get() { one } else { other }
}

// A moment that is not past the last.
fn moment(millis: u64) -> Moment
    requires { millis ≤ 4611686018427387903 }
    ensures { result ≡ millis }
{
    let Some(moment) = Moment::new(millis) else {
        unreachable!()
    };
    moment
}
