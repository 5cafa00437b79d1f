//! The pass: the right to count requests and to draw tickets of a quota, and what was drawn with it.
ghost use Rattle.std.specs.Prelude.{◌≡◌, ℕ, ◌+◌, ◌-◌, ◌*◌, ◌/◌, ◌<◌, ◌≤◌, ◌%◌, ◌⊎◌, List, [], ◌∷◌, length, min, max};
ghost use Rattle.std.specs.Prelude.{true, false};
ghost use Rattle.std.specs.Prelude.{IfOk, IfErr, OnOk, OnErr, None, Some};
ghost use Rattle.sched_ticket_quota.specs.Windows.{window_of, first_of, window_at, end_of};
ghost use Rattle.sched_ticket_quota.specs.Windows.{word_of, terms_of, allowed, room_of, back_in, floor_of};
ghost use Rattle.sched_ticket_quota.specs.Windows.{own_numbers, left_of, carried_to};
ghost use Rattle.sched_ticket_quota.specs.View.{fresh_view, with_reading, with_change, with_opening, with_ticket};
ghost use Rattle.sched_ticket_quota.specs.View.{next_ticket, carried_by, note_for, with_note};
ghost use Rattle.sched_ticket_quota.specs.View.{without_part, part_of, joined_view};
ghost use Rattle.sched_ticket_quota.specs.Steps.{IsLater, IsSound, IsNoLater};
ghost use Rattle.sched_ticket_quota.specs.Held.{IsOf};
ghost use Rattle.sched_ticket_quota.specs.Whole.{IsWhole};
ghost use Rattle.sched_ticket_quota.specs.Calls.{Meets, Opens, Turned, Counted, DepositedOf, Deposited, Tried};
ghost use Rattle.sched_ticket_quota.specs.Calls.{Drew, DrawRefused, Won, WonNone, Told, RefusesChange, HasReviewed};
ghost use Rattle.sched_ticket_quota.specs.Calls.{HandedBack, KeptTicket, Hands, NotHanded, Joined};

use crate::fault::{NotBack, QuotaFault, Refusal, WeightTooLarge};
use crate::quota::{
    DRAWS, HALF, LAST_WINDOW, MAX_RESERVE, MAX_SHARE, NUMBERS, PAST, Quota, REQUESTS, RETURNS,
    SHARES, TERMS, word_of,
};
use crate::rule::{
    Ask, Change, Count, Find, Glance, Lapse, Learn, Merge, Note, Open, Part, Read, Recall, Return,
    Review, Win,
};
use crate::view::View;
use sched_ticket::parts::{ALL_PARTS, given};
use sched_time::{FAR, Moment};
use std::marker::Model;
use std::mem;

pub(crate) type Seat = atomic_table::Seat<u8, View>;

/// How many races with other draws one draw loses before it gives up.
pub const MAX_TRIES: u64 = 64;

/// What is known of a window: as one look at its requests and one at its tickets showed.
#[derive(Clone, Copy, Debug, PartialEq, Eq, Drop)]
pub struct Usage {
    /// Which window it is, from 0 on, the one in which the quota was made.
    pub window: u64,
    /// The requests that were counted in it.
    pub asked: u64,
    /// The tickets that it has given out, without those handed back.
    pub given: u64,
    /// The tickets that it may yet give for the requests counted.
    pub left: u64,
    /// When the next window begins. If that is further off than a period, a call whose clock was ahead opened this one,
    /// or the 4294967296 requests of the window before were all counted, and those past them did.
    pub next: Moment,
}

/// The right to count requests and to draw tickets of one quota. Contracts see it as its quota and what it has of it.
/// A pass that is dropped keeps what it has, so its quota cannot be closed.
#[derive(Drop)]
pub struct Pass {
    pub(crate) seat: Seat,
    pub(crate) granted: u64,
    /// The parts that it stands for.
    pub(crate) weight: u64,
    /// The word of requests after the last one that it counted.
    told: u64,
    /// The window that the quota was made in, counted from moment 0.
    start: u64,
    /// Before this moment the window is not over that it has seen.
    until: u64,
    /// Its latest ticket, which may be handed back.
    latest: Option<u64>,
}

impl Model for Pass {
    ghost use Rattle.sched_ticket_quota.specs.Held.{Held, IsKnown};

    ghost Value = { Held };

    ghost view = { λ p. record { table = p.seat.table_id; start = p.start; has = p.seat.me.0; latest = p.latest } };

    ghost invariant = { λ p. IsKnown p.seat.me p.granted p.weight p.told p.start p.until p.latest };
}

impl Pass {
    pub(crate) fn of_seat(seat: Seat, weight: u64, told: u64, start: u64) -> Pass
        requires bare { seat.me.1 ≡ [] }
        requires new { let v = seat.me.0 in
            v ≡ record (fresh_view v.terms v.current v.seen told v.found v.back weight)
            { carries = v.carries; past = v.past; noted = v.noted } }
        requires live { (0 < weight) × (weight ≤ 4611686018427387904) }
        ensures of { (result.table ≡ seat.table_id) × (result.start ≡ start) × (result.has ≡ seat.me.0) }
        ensures latest { result.latest ≡ None }
    {
        Pass {
            seat,
            granted: 0,
            weight,
            told,
            start,
            until: 0,
            latest: None,
        }
    }

    /// How many tickets were drawn with this pass, and with those joined into it, and not handed back.
    pub fn granted(&self) -> u64
        ensures { result ≡ length self.now.has.tickets }
    {
        self.granted
    }

    /// Counts a request in the window of `now`, or in the latest one where that is later.
    /// Past the last window nothing is counted.
    pub fn deposit(&mut self, quota: &Quota, now: Moment)
        requires { IsOf quota.now self.old }
        ensures of { IsOf quota.now self.new }
        ensures counted { Deposited quota.now now self.old.has self.new.has }
        ensures tickets { self.new.has.tickets ≡ self.old.has.tickets }
        ensures latest { self.new.latest ≡ self.old.latest }
    {
        self.turn(quota, now);
        self.count(quota, 1);
    }

    /// Counts so many requests at once, as `deposit` counts one: a dear request as several, or what was put by till a
    /// success. Their numbers follow one another, also into the next window where they are past the 4294967296 of one.
    /// `WeightTooLarge` where they are more than the pass has parts: one that was split off the first has 1,048,576.
    pub fn deposit_of(
        &mut self,
        quota: &Quota,
        now: Moment,
        weight: u64,
    ) -> Result<(), WeightTooLarge>
        requires { IsOf quota.now self.old }
        ensures of { IsOf quota.now self.new }
        ensures counted { OnOk result (DepositedOf quota.now now weight self.old.has self.new.has) }
        ensures light { OnOk result (weight ≤ self.old.has.weight) }
        ensures err { IfErr result (λ _. (self.old.has.weight < weight) × (self.new ≡ self.old)) }
        ensures tickets { self.new.has.tickets ≡ self.old.has.tickets }
        ensures latest { self.new.latest ≡ self.old.latest }
    {
        if weight > self.weight {
            return Err(WeightTooLarge);
        }
        self.turn(quota, now);
        self.count(quota, weight);
        Ok(())
    }

    /// Counts so many requests, unless they are past the last window.
    fn count(&mut self, quota: &Quota, weight: u64)
        requires of { IsOf quota.now self.old }
        requires light { weight ≤ self.old.has.weight }
        ensures of { IsOf quota.now self.new }
        ensures counted { Counted weight self.old.has self.new.has }
        ensures tickets { self.new.has.tickets ≡ self.old.has.tickets }
        ensures latest { self.new.latest ≡ self.old.latest }
    {
        if self.told < (LAST_WINDOW + 1) * NUMBERS {
            let request = quota
                .table
                .shared
                .fetch_add::<Count>(&mut self.seat, REQUESTS, weight);
            self.told = request + weight;
        }
    }

    /// A ticket of the window of `now`, or of the latest one where that is later; of a quota that carries first one
    /// that the window before left of its share. `WindowOut` where none is left of those and so many were given of the
    /// window's own as the terms in force allow for its requests, with the moment at which the next window begins, and
    /// `RacesLost` where other draws came first 64 times in this call. A pass that was refused may draw again.
    pub fn draw(&mut self, quota: &Quota, now: Moment) -> Result<u64, Refusal>
        requires { IsOf quota.now self.old }
        ensures of { IsOf quota.now self.new }
        ensures ok { IfOk result (λ t. Drew quota.now now self.old.has t self.new.has) }
        ensures err { IfErr result (λ why. DrawRefused quota.now now self.old.has why self.new.has) }
        ensures gained { IfOk result (λ t. self.new.has.tickets ≡ t ∷ self.old.has.tickets) }
        ensures latest { IfOk result (λ t. self.new.latest ≡ Some t) }
        ensures kept { IfErr result (λ _. self.new.has.tickets ≡ self.old.has.tickets) }
        ensures still { OnErr result (self.new.latest ≡ self.old.latest) }
    {
        self.turn(quota, now);
        let ticket = win(quota, &mut self.seat)?;
        self.granted += 1;
        self.latest = Some(ticket);
        Ok(ticket)
    }

    /// Hands back the latest ticket that was drawn with this pass, or with one joined into it since, as of a retry that
    /// is cancelled while it waits, so that any pass may draw one more in its window. Where that window is over the
    /// ticket is given up, and no other is drawn for it. `NoTicket` where none was drawn since one was handed back, and
    /// `RacesLost` where other tickets came back first 64 times in this call; the tickets stay then.
    pub fn hand_back(&mut self, quota: &Quota) -> Result<(), NotBack>
        requires { IsOf quota.now self.old }
        ensures of { IsOf quota.now self.new }
        ensures ok { OnOk result (Hands self.old self.new) }
        ensures err { IfErr result (λ why. NotHanded self.old why self.new) }
    {
        let Some(ticket) = self.latest else {
            return Err(NotBack::NoTicket);
        };
        if !give_back(quota, &mut self.seat, ticket) {
            return Err(NotBack::RacesLost);
        }
        self.latest = None;
        self.granted -= 1;
        Ok(())
    }

    /// Sets the reserve and the share, which each draw of any pass goes by from now on, also in the present window. The
    /// period stays. Terms that no quota is made with are refused, as `Quota::new` refuses them, and nothing changes.
    pub fn set_terms(&mut self, quota: &Quota, reserve: u64, share: u64) -> Result<(), QuotaFault>
        requires { IsOf quota.now self.old }
        ensures of { IsOf quota.now self.new }
        ensures ok { OnOk result ((reserve ≤ 4294967296) × (share ≤ 1000000)) }
        ensures changed { OnOk result (self.new.has ≡ with_change self.old.has (word_of reserve share)) }
        ensures latest { self.new.latest ≡ self.old.latest }
        ensures err { IfErr result (λ e. RefusesChange reserve share e × (self.new ≡ self.old)) }
    {
        if reserve > MAX_RESERVE {
            return Err(QuotaFault::ReserveTooLarge);
        }
        if share > MAX_SHARE {
            return Err(QuotaFault::ShareTooLarge);
        }
        let word = word_of(reserve, share);
        quota
            .table
            .shared
            .store::<Change>(&mut self.seat, TERMS, word);
        Ok(())
    }

    /// A new pass without tickets, for another thread. `TooManyPasses` where this pass has one part, which it keeps:
    /// the first pass has 2^62, and a split gives 2^20 where there are more, or else one. Tickets and requests stay.
    pub fn split(&mut self, quota: &Quota) -> Result<Pass, QuotaFault>
        requires { IsOf quota.now self.old }
        ensures of { IsOf quota.now self.new }
        ensures ok { IfOk result (λ p. IsOf quota.now p × (p.has ≡ part_of self.old.has) × (p.latest ≡ None)) }
        ensures kept { OnOk result ((1 < self.old.has.weight) × (self.new.has ≡ without_part self.old.has)) }
        ensures latest { self.new.latest ≡ self.old.latest }
        ensures err { IfErr result
            (λ e. (e ≡ QuotaFault.TooManyPasses) × (self.old.has.weight ≡ 1) × (self.new ≡ self.old)) }
    {
        if self.weight == 1 {
            return Err(QuotaFault::TooManyPasses);
        }
        let parts = given(self.weight);
        let seat = quota.table.shared.split_seat::<Part>(&mut self.seat);
        self.weight -= parts;
        Ok(Pass::of_seat(seat, parts, self.told, self.start))
    }

    /// One pass with what both have. It may hand back the latest ticket of the other, where that may, or else its own.
    pub fn join(mut self, other: Pass, quota: &Quota) -> Pass
        requires this { IsOf quota.now self }
        requires that { IsOf quota.now other }
        ensures of { IsOf quota.now result }
        ensures joined { Joined self other result }
        ensures sound { IsSound result.has }
    {
        self.take_in(other, quota);
        self
    }

    /// Joins another pass into this one, as `join` does.
    #[inline(always)]
    pub fn take_in(&mut self, other: Pass, quota: &Quota)
        requires this { IsOf quota.now self.old }
        requires that { IsOf quota.now other }
        ensures of { IsOf quota.now self.new }
        ensures joined { Joined self.old other self.new }
        ensures sound { IsSound self.new.has }
    {
        if other.latest.is_some() {
            let this = mem::replace(self, other);
            self.take_rest(this, quota);
        } else {
            self.take_rest(other, quota);
        }
    }

    /// Joins another pass into this one, which may then hand back its own latest ticket.
    fn take_rest(&mut self, other: Pass, quota: &Quota)
        requires this { IsOf quota.now self.old }
        requires that { IsOf quota.now other }
        ensures of { IsOf quota.now self.new }
        ensures joined { self.new.has ≡ joined_view self.old.has other.has }
        ensures latest { self.new.latest ≡ self.old.latest }
        ensures sound { IsSound self.new.has }
    {
        let Pass {
            seat,
            granted,
            weight,
            told,
            ..
        } = other;
        quota.table.shared.join_seat::<Merge>(&mut self.seat, seat);
        quota.table.shared.load::<Learn>(&mut self.seat, DRAWS);
        self.granted += granted;
        self.weight += weight;
        self.told = self.told.max(told);
    }

    /// The number of tickets that were given out, where this pass is the whole: it has all parts of the quota.
    /// Otherwise it is one of several, of which another is alive or was dropped, and it comes back as it was.
    pub fn total(mut self, quota: &Quota) -> Result<u64, Pass>
        requires { IsOf quota.now self }
        ensures granted { IfOk result (λ n. n ≡ length self.has.tickets) }
        ensures whole { OnOk result (IsWhole quota.now.terms self.has) }
        ensures err { IfErr result (λ p. (p ≡ self) × (self.has.weight < 4611686018427387904)) }
    {
        if self.weight < ALL_PARTS {
            return Err(self);
        }
        quota.table.shared.load::<Learn>(&mut self.seat, DRAWS);
        Ok(self.granted)
    }

    /// What was asked of the window of `now`, or of the latest one where that is later, what it has given of its own
    /// and what it has left by the terms in force, also of what was carried to it, each as of one moment in this call,
    /// and when the next window begins.
    pub fn seen(&mut self, quota: &Quota, now: Moment) -> Usage
        requires { IsOf quota.now self.old }
        ensures of { IsOf quota.now self.new }
        ensures told { Told quota.now now self.old.has self.new.has result }
        ensures latest { self.new.latest ≡ self.old.latest }
    {
        self.turn(quota, now);
        let back = quota.table.shared.load::<Recall>(&mut self.seat, RETURNS);
        let drawn = quota.table.shared.load::<Find>(&mut self.seat, DRAWS);
        let requests = quota.table.shared.load::<Read>(&mut self.seat, REQUESTS);
        let terms = quota.table.shared.load::<Glance>(&mut self.seat, TERMS);
        let asked = requests % NUMBERS;
        let base = requests - asked;
        let carried = carried(quota, &mut self.seat, terms, requests, drawn);
        let next = drawn.max(base - carried);
        let room = room(quota, terms, requests, back);
        Usage {
            window: requests / NUMBERS,
            asked,
            given: (next.max(base) - base).saturating_sub(back_in(back, requests / NUMBERS)),
            left: (base + room).saturating_sub(next),
            next: end_of(quota, requests / NUMBERS),
        }
    }

    /// Comes to the window of `now`, where that is not over yet.
    #[inline(always)]
    fn turn(&mut self, quota: &Quota, now: Moment)
        requires { IsOf quota.now self.old }
        ensures of { IsOf quota.now self.new }
        ensures turned { Turned quota.now now self.old.has self.new.has }
        ensures tickets { self.new.has.tickets ≡ self.old.has.tickets }
        ensures weight { self.new.has.weight ≡ self.old.has.weight }
        ensures latest { self.new.latest ≡ self.old.latest }
        ensures live { 0 < self.new.has.weight }
    {
        if now.get() < self.until {
            return;
        }
        let window = (now.get() / quota.terms.period.get())
            .saturating_sub(quota.start)
            .min(LAST_WINDOW);
        let latest = reach(quota, &mut self.seat, window);
        self.until = end_of(quota, latest).get();
    }
}

/// Comes to this window, and answers the latest one. Who opens it notes before how many requests the one before had,
/// where that is the latest: those that are counted until it is open are not noted.
#[cold]
#[inline(never)]
fn reach(quota: &Quota, seat: &mut Seat, window: u64) -> u64
    requires of { (seat.old.table_id ≡ quota.now.table) × (seat.old.me.0.terms ≡ quota.now.terms)
        × (seat.old.me.0.carries ≡ quota.now.carries) }
    requires live { 0 < seat.old.me.0.weight }
    requires known { window ≤ 2999999999 }
    ensures seat { (seat.new.table_id ≡ seat.old.table_id) × (seat.new.me.1 ≡ seat.old.me.1) }
    ensures window { result ≡ window_of seat.new.me.0.seen }
    ensures reached { Meets window seat.old.me.0 seat.new.me.0 ⊎ Opens window seat.old.me.0 seat.new.me.0 }
{
    let requests = quota.table.shared.load::<Read>(seat, REQUESTS);
    if window <= requests / NUMBERS {
        return requests / NUMBERS;
    }
    note(quota, seat, window, requests);
    let found = quota
        .table
        .shared
        .fetch_max::<Open>(seat, REQUESTS, window * NUMBERS);
    found.max(window * NUMBERS) / NUMBERS
}

/// Where the quota carries and these are the requests of the window before this one, notes for all how many they are.
fn note(quota: &Quota, seat: &mut Seat, window: u64, requests: u64)
    requires of { seat.old.table_id ≡ quota.now.table }
    requires live { 0 < seat.old.me.0.weight }
    requires seen { (seat.old.me.0.seen ≡ requests) × (seat.old.me.0.carries ≡ quota.now.carries) }
    requires known { window ≤ 2999999999 }
    ensures seat { (seat.new.table_id ≡ seat.old.table_id) × (seat.new.me.1 ≡ seat.old.me.1) }
    ensures noted { seat.new.me.0 ≡ with_note seat.old.me.0 (note_for window seat.old.me.0) }
{
    if quota.carries && requests / NUMBERS + 1 == window {
        let noted = window * NUMBERS + requests % NUMBERS;
        quota.table.shared.fetch_max::<Note>(seat, PAST, noted);
    }
}

/// When this window ends.
fn end_of(quota: &Quota, window: u64) -> Moment
    ensures { result ≡ end_of quota.now.terms quota.now.start window }
{
    if window >= LAST_WINDOW {
        capped(FAR)
    } else {
        capped((quota.start + window + 1).saturating_mul(quota.terms.period.get()))
    }
}

/// The moment at so many milliseconds, or the last one.
fn capped(millis: u64) -> Moment
    ensures { result ≡ min millis 4611686018427387903 }
{
    let Some(moment) = Moment::new(millis.min(FAR)) else {
        unreachable!()
    };
    moment
}

/// What a word counts of a window: tickets that were handed back there, or requests of the window before.
fn back_in(back: u64, window: u64) -> u64
    ensures { result ≡ back_in back window }
{
    if back / NUMBERS == window {
        back % NUMBERS
    } else {
        0
    }
}

/// How many tickets a window of so many requests may give, by the terms of this word.
fn allowed(_quota: &Quota, terms: u64, asked: u64) -> u64
    requires { asked < 4294967296 }
    ensures { result ≡ allowed (terms_of _quota.now.terms terms) asked }
{
    (terms / SHARES + terms % SHARES * asked / 1000).min(NUMBERS)
}

/// How many numbers of a window are of tickets that are drawn there.
fn own_numbers(quota: &Quota) -> u64
    ensures { result ≡ own_numbers quota.now.carries }
{
    if quota.carries { HALF } else { NUMBERS }
}

/// How many numbers of its own the latest window may deal, by the words of the terms, the requests and those handed
/// back.
fn room(quota: &Quota, terms: u64, requests: u64, back: u64) -> u64
    ensures { result ≡ room_of quota.now.carries (terms_of quota.now.terms terms) requests back }
{
    (allowed(quota, terms, requests % NUMBERS) + back_in(back, requests / NUMBERS)).min(own_numbers(
        quota,
    ))
}

/// What a window of so many requests that has dealt so many tickets leaves of its share, by the terms of this word.
fn left(quota: &Quota, terms: u64, asked: u64, dealt: u64) -> u64
    requires { asked < 4294967296 }
    ensures { result ≡ left_of (terms_of quota.now.terms terms) asked dealt }
{
    (terms % SHARES * asked / 1000)
        .min(allowed(quota, terms, asked).saturating_sub(dealt))
        .min(HALF)
}

/// How many tickets the latest window may draw of the share of the one before. How many requests that had is read only
/// where draws have not come to the latest.
fn carried(quota: &Quota, seat: &mut Seat, terms: u64, requests: u64, drawn: u64) -> u64
    requires of { seat.old.table_id ≡ quota.now.table }
    ensures seat { (seat.new.table_id ≡ seat.old.table_id) × (seat.new.me.1 ≡ seat.old.me.1) }
    ensures same { let v = seat.old.me.0 in let u = seat.new.me.0 in
        (u ≡ record v { past = u.past; reviews = u.reviews }) × (v.reviews ≤ u.reviews) }
    ensures reviewed { quota.now.carries ≡ true → 2147483648 ≤ first_of (window_of requests) - drawn →
        seat.old.me.0.reviews < seat.new.me.0.reviews }
    ensures carried { result ≡
        carried_to quota.now.carries (terms_of quota.now.terms terms) requests seat.new.me.0.past drawn }
    ensures within { result ≤ first_of (window_of requests) }
{
    if !quota.carries {
        return 0;
    }
    let base = requests - requests % NUMBERS;
    let before = base.saturating_sub(drawn);
    if before < HALF {
        return before;
    }
    let past = quota.table.shared.load::<Review>(seat, PAST);
    let asked = back_in(past, requests / NUMBERS);
    left(quota, terms, asked, drawn.saturating_sub(base - NUMBERS))
}

/// Whether this number is past those that the latest window may deal. How many tickets were handed back is read only
/// where the requests alone allow no more.
fn is_out(quota: &Quota, seat: &mut Seat, terms: u64, requests: u64, ticket: u64) -> bool
    requires of { seat.old.table_id ≡ quota.now.table }
    requires small { requests ≤ 17496587906427387904 }
    ensures seat { (seat.new.table_id ≡ seat.old.table_id) × (seat.new.me.1 ≡ seat.old.me.1) }
    ensures same { let v = seat.old.me.0 in let u = seat.new.me.0 in
        (u ≡ record v { back = u.back; recalls = u.recalls }) × (v.back ≤ u.back) × (v.recalls ≤ u.recalls) }
    ensures out { result ≡ true → (seat.old.me.0.recalls < seat.new.me.0.recalls)
        × (floor_of quota.now.carries (terms_of quota.now.terms terms) requests seat.new.me.0.back ≤ ticket) }
    ensures room { result ≡ false →
        ticket < floor_of quota.now.carries (terms_of quota.now.terms terms) requests seat.new.me.0.back }
{
    let base = requests - requests % NUMBERS;
    if ticket < base + allowed(quota, terms, requests % NUMBERS).min(own_numbers(quota)) {
        return false;
    }
    let back = quota.table.shared.load::<Recall>(seat, RETURNS);
    ticket >= base + room(quota, terms, requests, back)
}

/// Draws the next ticket of those carried to the latest window, or else of its own, if there is room for it.
fn win(quota: &Quota, seat: &mut Seat) -> Result<u64, Refusal>
    requires of { (seat.old.table_id ≡ quota.now.table) × (seat.old.me.0.terms ≡ quota.now.terms)
        × (seat.old.me.0.carries ≡ quota.now.carries) }
    requires live { 0 < seat.old.me.0.weight }
    ensures seat { (seat.new.table_id ≡ seat.old.table_id) × (seat.new.me.1 ≡ seat.old.me.1) }
    ensures ok { IfOk result (λ t. Won quota.now.terms seat.old.me.0 t seat.new.me.0) }
    ensures err { IfErr result (λ why. WonNone quota.now seat.old.me.0 why seat.new.me.0) }
{
    let mut drawn = quota.table.shared.load::<Find>(seat, DRAWS);
    for _ in 0..MAX_TRIES {
        let requests = quota.table.shared.load::<Read>(seat, REQUESTS);
        let terms = quota.table.shared.load::<Glance>(seat, TERMS);
        let carried = carried(quota, seat, terms, requests, drawn);
        let ticket = drawn.max(requests - requests % NUMBERS - carried);
        if is_out(quota, seat, terms, requests, ticket) {
            return Err(Refusal::WindowOut(end_of(quota, requests / NUMBERS)));
        }
        let found = quota
            .table
            .shared
            .compare_exchange::<Win>(seat, DRAWS, drawn, ticket + 1);
        if found == drawn {
            return Ok(ticket);
        }
        drawn = found;
    }
    Err(Refusal::RacesLost)
}

/// Hands this ticket back, the latest one, unless 64 others come before it.
fn give_back(quota: &Quota, seat: &mut Seat, ticket: u64) -> bool
    requires of { (seat.old.table_id ≡ quota.now.table) × (seat.old.me.0.terms ≡ quota.now.terms) }
    requires live { 0 < seat.old.me.0.weight }
    requires small { ticket < 17496587910722355200 }
    requires has { (others : List ℕ) × (seat.old.me.0.tickets ≡ ticket ∷ others) }
    ensures seat { (seat.new.table_id ≡ seat.old.table_id) × (seat.new.me.1 ≡ seat.old.me.1) }
    ensures handed { result ≡ true → HandedBack seat.old.me.0 seat.new.me.0 }
    ensures kept { result ≡ false → KeptTicket seat.old.me.0 seat.new.me.0 }
{
    let window = ticket / NUMBERS;
    let mut back = quota.table.shared.load::<Ask>(seat, RETURNS);
    for _ in 0..MAX_TRIES {
        if back / NUMBERS > window {
            quota.table.shared.load::<Lapse>(seat, RETURNS);
            return true;
        }
        let next = back.max(window * NUMBERS) + 1;
        let found = quota
            .table
            .shared
            .compare_exchange::<Return>(seat, RETURNS, back, next);
        if found == back {
            return true;
        }
        back = found;
    }
    false
}
