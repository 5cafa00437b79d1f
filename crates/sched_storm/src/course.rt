//! The course of a storm: its events, one after another.
ghost use Rattle.std.specs.Prelude.{◌≡◌, ◌≢◌, ℕ, ◌+◌, ◌*◌, ◌/◌, ◌<◌, ◌≤◌, true, false, List, Option, Some, None};
ghost use Rattle.std.specs.Prelude.{vec_len, IsTrue, IfOk, IfSome, OnOk};
ghost use Rattle.sched_plan.specs.declared.history.Event.{Event};
ghost use Rattle.sched_storm.specs.Drivers.{MayFail};
ghost use Rattle.sched_storm.specs.Clients.{plans_of, Meet};
ghost use Rattle.sched_storm.specs.Plays.{Stage, begins, retries, succeeds, fails};
ghost use Rattle.sched_storm.specs.Turns.{kind_of};
ghost use Rattle.sched_storm.specs.Keys.{Holds};
ghost use Rattle.sched_storm.specs.Arrivals.{AreArrivals, comes_at};
ghost use Rattle.sched_storm.specs.Plays.{first};
ghost use Rattle.sched_storm.specs.Turns.{turn_if};
ghost use Rattle.sched_storm.specs.Storms.{ReportsOn};
ghost use Rattle.sched_storm.specs.Report.{AddsUp};
ghost use Rattle.sched_storm.specs.Course.{client_of, answer_to, begins_now, slot_of, Drives, IsReady, HasAnswered};
ghost use Rattle.sched_storm.specs.Course.{Rests, IsPlaced, IsDriven};
ghost use Rattle.sched_storm.specs.Course.{IsCounted, Stands, StandsFirst, StandsAfter, IsOver};

use crate::agenda::Agenda;
use crate::clients::Clients;
use crate::drivers::Drivers;
use crate::reporter::Reporter;
use crate::storm::Storm;
use crate::tickets::Drawn;
use crate::turns::{Kind, Turn};
use rand_core::SeedableRng;
use rand_xoshiro::Xoshiro128PlusPlus;
use sched_storm_limit::Stand;
use sched_storm_report::{Busy, Ends, Failure, Happening, Report, Tally};
use sched_task::four_words;
use sched_time::NoMemory;
use std::alloc::Global;

/// A storm that is played: how its peer, its tickets and its requests stand after the events so far.
#[derive(Drop)]
pub(crate) struct Course<'a> {
    pub(crate) storm: Storm,
    /// The moments at which its requests come; by its rates where there are none.
    pub(crate) arrivals: &'a [u64],
    pub(crate) clients: Clients,
    words: Xoshiro128PlusPlus,
    /// How many requests came.
    requests: u64,
    /// When the next one comes, if there is one.
    comes: u64,
    /// How many calls began.
    calls: u64,
    /// What the peer's replicas have taken.
    busy: Busy,
    drawn: Drawn,
    limit: Stand,
    drivers: Drivers,
    /// What is due of the requests that came.
    agenda: Agenda,
    pub(crate) reporter: Reporter,
}

impl<'a> Course<'a> {
    /// Before the first event, of which nothing is due yet. Its report is of one population, or of all.
    pub(crate) fn new(
        alloc: Global,
        storm: Storm,
        arrivals: &'a [u64],
        clients: Clients,
        agenda: Agenda,
        of: Option<u64>,
    ) -> Course<'a>
        requires arrivals { AreArrivals arrivals.now }
        requires nothing { Holds agenda (λ _. None) }
        requires clients { Meet storm clients }
        ensures stands { Stands result None }
        ensures storm { result.storm ≡ storm }
        ensures arrivals { result.arrivals.now ≡ arrivals.now }
        ensures clients { result.clients ≡ clients }
        ensures of { result.reporter.of ≡ of }
    {
        let parameters = storm.parameters();
        Course {
            storm,
            arrivals,
            clients,
            words: Xoshiro128PlusPlus::seed_from_u64(parameters.words),
            requests: 0,
            comes: storm.comes_at(arrivals, 0),
            calls: 0,
            busy: Busy::NONE,
            drawn: Drawn::NONE,
            limit: Stand::new(alloc, storm.draws(), parameters.words),
            drivers: Drivers::new(alloc),
            agenda,
            reporter: Reporter {
                tally: Tally::new(alloc, parameters.window),
                of,
                events: 0,
            },
        }
    }

    /// Plays all events, and tells whether the storm was cut: whether one call more was to begin than it may make.
    pub(crate) fn run(&mut self, alloc: Global) -> Result<bool, NoMemory>
        requires { Stands self.old None }
        ensures over { IfOk result (IsOver self.new) }
        ensures storm { self.new.storm ≡ self.old.storm }
        ensures arrivals { self.new.arrivals.now ≡ self.old.arrivals.now }
        ensures clients { self.new.clients ≡ self.old.clients }
        ensures of { OnOk result (self.new.reporter.of ≡ self.old.reporter.of) }
    {
        let mut next = self.take_next();
        while let Some(turn) = next {
            let is_full = self.is_full(turn)?;
            if is_full {
                return Ok(true);
            }
            let after = self.step(alloc, turn)?;
            next = self.next_after(turn, after)?;
        }
        Ok(false)
    }

    // Whether one call more would begin than may.
    fn is_full(&self, turn: Turn) -> Result<bool, NoMemory>
        requires near { turn.at ≤ 7200000 }
        ensures yes { IfOk result (λ full. full ≡ true →
            IsTrue (begins_now (client_of self.now turn.request) self.now turn)
            × (self.now.calls ≡ self.now.storm.calls)) }
        ensures no { IfOk result (λ full. full ≡ false →
            IsTrue (begins_now (client_of self.now turn.request) self.now turn) →
            self.now.calls ≢ self.now.storm.calls) }
    {
        if self.calls != self.storm.parameters().calls {
            return Ok(false);
        }
        self.begins_call(turn)
    }

    // Whether a call begins where this is due.
    fn begins_call(&self, turn: Turn) -> Result<bool, NoMemory>
        requires near { turn.at ≤ 7200000 }
        ensures { IfOk result (λ yes.
            yes ≡ begins_now (client_of self.now turn.request) self.now turn) }
    {
        match turn.kind {
            Kind::Begins => {
                let client = self.clients.at(self.storm.population_of(turn.request));
                client.storm.admits(&self.limit, turn)
            }
            Kind::Retries => Ok(true),
            Kind::Succeeds | Kind::Fails(_) => Ok(false),
        }
    }

    /// The report of the events so far.
    pub(crate) fn into_report(self, is_cut: bool) -> Result<Report, NoMemory>
        requires { IsOver self is_cut }
        ensures reports { IfOk result
            (ReportsOn self.entry.arrivals.now self.entry.storm (plans_of self.entry.clients) self.entry.reporter.of) }
        ensures adds_up { self.entry.reporter.of ≡ None →
            IfOk result (AddsUp self.entry.arrivals.now self.entry.storm) }
        ensures windows { IfOk result (λ r.
            vec_len r.windows ≤ self.entry.storm.until / self.entry.storm.window + 1) }
    {
        let Course {
            storm,
            reporter,
            ..
        } = self;
        let ends = Ends {
            trouble: storm.end_of_trouble(),
            is_cut,
        };
        let report = reporter.tally.into_report(&storm.peer(), ends)?;
        Ok(report)
    }

    // What is next after an event: what is due of the same request, where that is at the same moment, and else what is
    // least due of all.
    fn next_after(&mut self, turn: Turn, after: Option<Turn>) -> Result<Option<Turn>, NoMemory>
        requires { StandsAfter turn.at turn.request self.old after }
        ensures first { IfOk result (StandsFirst self.new) }
        ensures storm { self.new.storm ≡ self.old.storm }
        ensures arrivals { self.new.arrivals.now ≡ self.old.arrivals.now }
        ensures clients { self.new.clients ≡ self.old.clients }
        ensures events { self.new.reporter ≡ self.old.reporter }
    {
        let Some(next) = after else {
            return Ok(self.take_next());
        };
        if next.at == turn.at {
            return Ok(after);
        }
        self.agenda.add(next)?;
        Ok(self.take_next())
    }

    // Takes what is least due out of the agenda, or the next request where it comes before that.
    #[inline(always)]
    fn take_next(&mut self) -> Option<Turn>
        requires { Stands self.old None }
        ensures first { StandsFirst self.new result }
        ensures storm { self.new.storm ≡ self.old.storm }
        ensures arrivals { self.new.arrivals.now ≡ self.old.arrivals.now }
        ensures clients { self.new.clients ≡ self.old.clients }
        ensures events { self.new.reporter ≡ self.old.reporter }
    {
        let first = self.next_request();
        match self.agenda.pop_before(first) {
            Some(turn) => Some(turn),
            None => first,
        }
    }

    // The next request, where one comes until the end.
    fn next_request(&self) -> Option<Turn>
        requires { self.now.comes ≡ comes_at self.now.arrivals.now self.now.storm self.now.requests }
        ensures { result ≡ turn_if self.now.requests (first self.now.arrivals.now self.now.storm self.now.requests) }
    {
        if self.requests < self.storm.all_requests(self.arrivals)
            && self.comes <= self.storm.parameters().until
        {
            Some(Turn {
                at: self.comes,
                request: self.requests,
                kind: Kind::Begins,
            })
        } else {
            None
        }
    }

    // Plays what is due, and answers what is due of its request from then on.
    fn step(&mut self, alloc: Global, turn: Turn) -> Result<Option<Turn>, NoMemory>
        requires first { StandsFirst self.old (Some turn) }
        requires room { IsTrue (begins_now (client_of self.old turn.request) self.old turn) →
            self.old.calls < self.old.storm.calls }
        ensures after { IfOk result (StandsAfter turn.at turn.request self.new) }
        ensures storm { self.new.storm ≡ self.old.storm }
        ensures arrivals { self.new.arrivals.now ≡ self.old.arrivals.now }
        ensures clients { self.new.clients ≡ self.old.clients }
        ensures of { OnOk result (self.new.reporter.of ≡ self.old.reporter.of) }
        ensures events { OnOk result (self.new.reporter.events ≡ self.old.reporter.events + 1) }
    {
        let next = self.play(alloc, turn)?;
        Ok(next)
    }

    // Plays what is due, and answers what is due of its request from then on.
    fn play(&mut self, alloc: Global, turn: Turn) -> Result<Option<Turn>, NoMemory>
        requires ready { IsReady self.old turn.at turn.request }
        requires placed { IsPlaced self.old turn }
        requires may { IsDriven self.old turn }
        ensures answered { (what : Stage) → kind_of what ≡ turn.kind →
            Drives (client_of self.old turn.request).plan (slot_of self.old turn.request) turn.at what →
            IfOk result (HasAnswered
            (answer_to (client_of self.old turn.request) self.old turn.request turn.at what)
            turn.at turn.request self.old self.new) }
        ensures rests { OnOk result (Rests turn.at turn.request self.old self.new) }
        ensures counts { OnOk result (IsCounted turn.kind self.old self.new) }
        ensures storm { self.new.storm ≡ self.old.storm }
        ensures arrivals { self.new.arrivals.now ≡ self.old.arrivals.now }
        ensures clients { self.new.clients ≡ self.old.clients }
    {
        match turn.kind {
            Kind::Begins => self.begin(turn),
            Kind::Retries => self.retry(turn),
            Kind::Succeeds => self.win(turn),
            Kind::Fails(failure) => self.fail(alloc, turn, failure),
        }
    }

    // The next request comes, and begins its first call.
    fn begin(&mut self, turn: Turn) -> Result<Option<Turn>, NoMemory>
        requires ready { IsReady self.old turn.at turn.request }
        requires placed { turn.request ≡ self.old.requests }
        ensures answered { IfOk result (HasAnswered
            (answer_to (client_of self.old turn.request) self.old turn.request turn.at begins)
            turn.at turn.request self.old self.new) }
        ensures rests { OnOk result (Rests turn.at turn.request self.old self.new) }
        ensures counts { OnOk result (IsCounted Kind.Begins self.old self.new) }
        ensures storm { self.new.storm ≡ self.old.storm }
        ensures arrivals { self.new.arrivals.now ≡ self.old.arrivals.now }
        ensures clients { self.new.clients ≡ self.old.clients }
    {
        let client = self.clients.at(self.storm.population_of(turn.request));
        self.drivers.add()?;
        self.drawn = client.storm.count(self.drawn, turn.at);
        self.requests += 1;
        self.comes = self.storm.comes_at(self.arrivals, self.requests);
        let is_admitted = client.storm.admit(&mut self.limit, turn)?;
        if !is_admitted {
            self.reporter
                .tell(&self.storm, turn, Happening::Refused, self.busy)?;
            return Ok(None);
        }
        let called = client.storm.call(self.calls, &mut self.busy, turn.at);
        self.calls += 1;
        self.reporter
            .tell(&self.storm, turn, Happening::Request, self.busy)?;
        Ok(
            client
                .storm
                .turn_by(called.ends, turn.request, Kind::after(called.how)),
        )
    }

    // A retry begins.
    fn retry(&mut self, turn: Turn) -> Result<Option<Turn>, NoMemory>
        requires ready { IsReady self.old turn.at turn.request }
        requires placed { turn.request < self.old.requests }
        ensures answered { (h : List Event) →
            Drives (client_of self.old turn.request).plan (slot_of self.old turn.request) turn.at (retries h) →
            IfOk result (HasAnswered
            (answer_to (client_of self.old turn.request) self.old turn.request turn.at (retries h))
            turn.at turn.request self.old self.new) }
        ensures rests { OnOk result (Rests turn.at turn.request self.old self.new) }
        ensures counts { OnOk result (IsCounted Kind.Retries self.old self.new) }
        ensures storm { self.new.storm ≡ self.old.storm }
        ensures arrivals { self.new.arrivals.now ≡ self.old.arrivals.now }
        ensures clients { self.new.clients ≡ self.old.clients }
    {
        let client = self.clients.at(self.storm.population_of(turn.request));
        let called = client.storm.call(self.calls, &mut self.busy, turn.at);
        self.calls += 1;
        self.reporter
            .tell(&self.storm, turn, Happening::Retry, self.busy)?;
        Ok(
            client
                .storm
                .turn_by(called.ends, turn.request, Kind::after(called.how)),
        )
    }

    // A call succeeds, and its request is won.
    fn win(&mut self, turn: Turn) -> Result<Option<Turn>, NoMemory>
        requires ready { IsReady self.old turn.at turn.request }
        requires placed { turn.request < self.old.requests }
        ensures answered { IfOk result (HasAnswered
            (answer_to (client_of self.old turn.request) self.old turn.request turn.at succeeds)
            turn.at turn.request self.old self.new) }
        ensures rests { OnOk result (Rests turn.at turn.request self.old self.new) }
        ensures counts { OnOk result (IsCounted Kind.Succeeds self.old self.new) }
        ensures storm { self.new.storm ≡ self.old.storm }
        ensures arrivals { self.new.arrivals.now ≡ self.old.arrivals.now }
        ensures clients { self.new.clients ≡ self.old.clients }
    {
        let client = self.clients.at(self.storm.population_of(turn.request));
        client.storm.tell_succeeded(&mut self.limit, turn)?;
        self.drivers.end(turn.request);
        let began = self.storm.comes_at(self.arrivals, turn.request);
        self.reporter
            .tell(&self.storm, turn, Happening::Won { began }, self.busy)?;
        Ok(None)
    }

    // A call fails: its driver is asked, and a ticket drawn where it goes on.
    fn fail(
        &mut self,
        alloc: Global,
        turn: Turn,
        failure: Failure,
    ) -> Result<Option<Turn>, NoMemory>
        requires ready { IsReady self.old turn.at turn.request }
        requires placed { turn.request < self.old.requests }
        requires may { MayFail (client_of self.old turn.request).plan (slot_of self.old turn.request) turn.at }
        ensures answered { (h : List Event) →
            Drives (client_of self.old turn.request).plan (slot_of self.old turn.request) turn.at (fails failure h) →
            IfOk result (HasAnswered
            (answer_to (client_of self.old turn.request) self.old turn.request turn.at (fails failure h))
            turn.at turn.request self.old self.new) }
        ensures rests { OnOk result (Rests turn.at turn.request self.old self.new) }
        ensures counts { OnOk result (IsCounted (Kind.Fails failure) self.old self.new) }
        ensures storm { self.new.storm ≡ self.old.storm }
        ensures arrivals { self.new.arrivals.now ≡ self.old.arrivals.now }
        ensures clients { self.new.clients ≡ self.old.clients }
    {
        let client = self.clients.at(self.storm.population_of(turn.request));
        client.storm.tell_failed(&mut self.limit, turn);
        let words = four_words(&mut self.words);
        let start = self
            .drivers
            .fail(alloc, &client.plan, turn.request, turn.at, words, failure)?;
        let is_granted = client.storm.ask(&mut self.limit, turn, failure, &start)?;
        let after = client.storm.next(is_granted, self.drawn, turn, start);
        client.storm.tell_ended(&mut self.limit, turn, after.then)?;
        self.drivers.keep_if(turn.request, after.next.is_some());
        self.drawn = after.drawn;
        let what = Happening::Failed {
            failure,
            then: after.then,
        };
        self.reporter.tell(&self.storm, turn, what, self.busy)?;
        Ok(after.next)
    }
}
