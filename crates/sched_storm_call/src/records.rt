//! What C gives of a storm, and what it is told.
ghost use Rattle.std.specs.Prelude.{◌≡◌, ◌≤◌, ◌↔◌, IsTrue, IsSome, IfSome};
ghost use Rattle.sched_storm_call.specs.Told.{IsGiven, HasItsBrownOut, IsFlightGiven, IsAdaptiveGiven, IsBreakerGiven};
ghost use Rattle.sched_storm_call.specs.Told.{IsThrottleGiven, AreDrawsGiven};
ghost use Rattle.sched_storm_call.specs.Told.{ArePopulationsGiven, IsOnSome, AreDrawsOf, IsOf, down_of, slow_of};
ghost use Rattle.sched_storm_call.specs.Told.{population_given, others_of, of_given, parameters_of, room_of};
ghost use Rattle.sched_storm_call.specs.Told.{window_told, totals_told};
ghost use Rattle.sched_storm_call.specs.Plays.{AreSized};

use sched_handle::Handle;
use sched_limit::{Adaptive, Breaker, Bucket, InFlight, Throttle};
use sched_storm::{
    BrownOut, Draws, Limit, Others, Parameters, Phase, Population, Rates, Report, Span, Storm,
    Window,
};
use sched_ticket_quota::Terms;
use sched_time::{Millis, Moment};

/// A population of clients beside the first one.
#[repr(C)]
#[derive(Clone, Copy)]
pub struct PopulationGiven {
    pub share: u64,
    pub patience: u64,
    pub limited: u64,
}

/// The policies of a storm's populations: a further handle that is empty stands for the policy of the first.
#[repr(C)]
pub struct Policies {
    pub first: Handle,
    pub second: Handle,
    pub third: Handle,
    pub fourth: Handle,
}

/// The parameters of a storm.
#[repr(C)]
#[derive(Clone, Copy)]
pub struct StormGiven {
    pub rate: u64,
    pub together: u64,
    pub seconds: u64,
    pub capacity: u64,
    pub patience: u64,
    pub queue: u64,
    pub outage_from: u64,
    pub outage_to: u64,
    pub slow_from: u64,
    pub slow_to: u64,
    pub slow_percent: u64,
    pub window: u64,
    pub until: u64,
    pub calls: u64,
    pub words: u64,
    pub draws_on: u64,
    pub limit: u64,
    pub reserve: u64,
    pub share: u64,
    pub period: u64,
    pub bucket_capacity: u64,
    pub bucket_floor: u64,
    pub bucket_debit: u64,
    pub bucket_credit: u64,
    pub bucket_refund: u64,
    pub cost: u64,
    pub late_cost: u64,
    pub least: u64,
    pub most: u64,
    pub first: u64,
    pub backoff: u64,
    pub failures: u64,
    pub results: u64,
    pub probes: u64,
    pub deadline: u64,
    pub ratio: u64,
    pub open_count: u64,
    pub open_times: [u64; 64],
    pub replicas: u64,
    pub down: u64,
    pub phase_count: u64,
    pub phases: [Phase; 16],
    pub second: PopulationGiven,
    pub third: PopulationGiven,
    pub fourth: PopulationGiven,
    pub of: u64,
}

/// The parameters of a storm, after the size in bytes that C gives of this struct.
#[repr(C)]
#[derive(Clone, Copy)]
pub struct SizedStorm {
    pub size: usize,
    pub storm: StormGiven,
}

// The size of it.
const STORM_SIZE: usize = 1176;

/// A window of a storm.
#[repr(C)]
#[derive(Clone, Copy)]
pub struct WindowTold {
    pub from: u64,
    pub requests: u64,
    pub won: u64,
    pub retries: u64,
    pub succeeded: u64,
    pub refused: u64,
    pub shed: u64,
    pub late: u64,
    pub waiting: u64,
}

/// What a storm comes to in all: of so many windows.
#[repr(C)]
#[derive(Clone, Copy)]
pub struct TotalsTold {
    pub windows: u64,
    pub requests: u64,
    pub won: u64,
    pub lost: u64,
    pub denied: u64,
    pub open: u64,
    pub calls: u64,
    pub hundredths: u64,
    pub most_calls: u64,
    pub most_from: u64,
    pub tickets: u64,
    pub p50: u64,
    pub p99: u64,
    pub slowest: u64,
    pub recovered: u64,
    pub recovers: bool,
    pub cut: bool,
}

/// What a storm comes to in all, after the size in bytes that C gives of this struct.
#[repr(C)]
#[derive(Clone, Copy)]
pub struct SizedTotals {
    pub size: usize,
    pub totals: TotalsTold,
}

// The size of it.
const TOTALS_SIZE: usize = 136;

/// Whether the structs of a storm and of totals have their sizes.
pub(crate) fn are_sized(storm: usize, totals: usize) -> bool
    ensures { IsTrue result ↔ AreSized storm totals }
{
    storm == STORM_SIZE && totals == TOTALS_SIZE
}

impl PopulationGiven {
    // Whether it says if its retries draw on what those of the first population draw on.
    fn is_given(self) -> bool
        ensures { IsTrue result ↔ (self.limited ≤ 1) }
    {
        self.limited <= 1
    }

    fn population(self) -> Population
        ensures { result ≡ population_given self }
    {
        Population {
            share: self.share,
            patience: self.patience,
            is_limited: self.limited == 1,
        }
    }
}

impl StormGiven {
    /// The storm, or `None` where a parameter is outside its range.
    pub(crate) fn storm(&self) -> Option<Storm>
        ensures in_range { IsSome result ↔ IsGiven self.now }
        ensures value { IfSome result (IsOf self.now) }
    {
        let draws = self.draws()?;
        if !self.has_its_brown_out() || !self.are_populations_given() || !self.is_on_some() {
            return None;
        }
        Storm::new(self.parameters(draws))
    }

    /// The population, from 0, that the report is on; none where it is on all requests.
    pub(crate) fn of(&self) -> Option<u64>
        ensures { result ≡ of_given self.now.of }
    {
        if self.of == 0 {
            None
        } else {
            Some(self.of - 1)
        }
    }

    fn parameters(&self, draws: Draws) -> Parameters
        ensures { result ≡ parameters_of self.now draws }
    {
        Parameters {
            rate: self.rate,
            rates: Rates {
                count: self.phase_count as usize,
                phases: self.phases,
            },
            together: self.together,
            seconds: self.seconds,
            capacity: self.capacity,
            patience: self.patience,
            queue: self.queue,
            replicas: self.replicas,
            outage: Span {
                from: self.outage_from,
                to: self.outage_to,
            },
            down: self.down(),
            slow: self.slow(),
            window: self.window,
            until: self.until,
            calls: self.calls,
            words: self.words,
            draws,
            others: self.others(),
        }
    }

    fn others(&self) -> Others
        ensures { result ≡ others_of self.now }
    {
        Others {
            second: self.second.population(),
            third: self.third.population(),
            fourth: self.fourth.population(),
        }
    }

    fn are_populations_given(&self) -> bool
        ensures { IsTrue result ↔ ArePopulationsGiven self.now }
    {
        self.second.is_given() && self.third.is_given() && self.fourth.is_given()
    }

    // Whether the report is on all requests, or on those of a population that there is.
    fn is_on_some(&self) -> bool
        ensures { IsTrue result ↔ IsOnSome self.now }
    {
        match self.of {
            0 | 1 => true,
            2 => self.second.share > 0,
            3 => self.third.share > 0,
            4 => self.fourth.share > 0,
            _ => false,
        }
    }

    // How many replicas refuse calls in the outage: all, where none is told.
    fn down(&self) -> u64
        ensures { result ≡ down_of self.now }
    {
        if self.down == 0 {
            self.replicas
        } else {
            self.down
        }
    }

    // Whether there is a brown-out, or no moment of one.
    fn has_its_brown_out(&self) -> bool
        ensures { IsTrue result ↔ HasItsBrownOut self.now }
    {
        self.slow_percent > 0 || (self.slow_from == 0 && self.slow_to == 0)
    }

    fn slow(&self) -> Option<BrownOut>
        ensures { result ≡ slow_of self.now }
    {
        if self.slow_percent == 0 {
            return None;
        }
        Some(BrownOut {
            span: Span {
                from: self.slow_from,
                to: self.slow_to,
            },
            percent: self.slow_percent,
        })
    }

    fn draws(&self) -> Option<Draws>
        ensures given { IsSome result ↔ AreDrawsGiven self.now }
        ensures value { IfSome result (AreDrawsOf self.now) }
    {
        match self.draws_on {
            0 => Some(Draws::Nothing),
            1 => Some(Draws::Budget(self.limit)),
            2 => Some(Draws::Quota(Terms {
                reserve: self.reserve,
                share: self.share,
                period: Millis::new(self.period)?,
            })),
            3 => self.bucket(),
            4 => self.in_flight(),
            5 => self.breaker(),
            6 => self.throttle(),
            7 => self.adaptive(),
            _ => None,
        }
    }

    fn bucket(&self) -> Option<Draws>
        requires { self.now.draws_on ≡ 3 }
        ensures given { IsSome result ↔ (self.now.bucket_refund ≤ 1) }
        ensures value { IfSome result (AreDrawsOf self.now) }
    {
        if self.bucket_refund > 1 {
            return None;
        }
        let bucket = Bucket {
            capacity: self.bucket_capacity,
            floor: self.bucket_floor,
            debit: self.bucket_debit,
            credit: self.bucket_credit,
            refund: self.bucket_refund == 1,
        };
        let limit = Limit::Bucket {
            bucket,
            cost: self.cost,
            late: self.late_cost,
        };
        Some(Draws::Limited(limit))
    }

    fn in_flight(&self) -> Option<Draws>
        requires { self.now.draws_on ≡ 4 }
        ensures given { IsSome result ↔ IsFlightGiven self.now }
        ensures value { IfSome result (AreDrawsOf self.now) }
    {
        let least = word_of(self.least)?;
        let share = word_of(self.share)?;
        let most = word_of(self.most)?;
        let in_flight = InFlight { least, share, most };
        Some(Draws::Limited(Limit::InFlight(in_flight)))
    }

    fn adaptive(&self) -> Option<Draws>
        requires { self.now.draws_on ≡ 7 }
        ensures given { IsSome result ↔ IsAdaptiveGiven self.now }
        ensures value { IfSome result (AreDrawsOf self.now) }
    {
        let least = word_of(self.least)?;
        let most = word_of(self.most)?;
        let first = word_of(self.first)?;
        let backoff = word_of(self.backoff)?;
        let adaptive = Adaptive::new(least, most, first, backoff)?;
        Some(Draws::Limited(Limit::Adaptive(adaptive)))
    }

    fn breaker(&self) -> Option<Draws>
        requires { self.now.draws_on ≡ 5 }
        ensures given { IsSome result ↔ IsBreakerGiven self.now }
        ensures value { IfSome result (AreDrawsOf self.now) }
    {
        if self.open_count == 0 {
            return None;
        }
        let failures = word_of(self.failures)?;
        let deadline = Millis::new(self.deadline)?;
        let now = Moment::new(0)?;
        let last = self.open_count - 1;
        let breaker = Breaker::new(now, failures, self.probes, deadline, self.open_times, last)?;
        if self.results == 0 {
            return Some(Draws::Limited(Limit::Breaker(breaker)));
        }
        let breaker = breaker.by_results(word_of(self.results)?)?;
        Some(Draws::Limited(Limit::Breaker(breaker)))
    }

    fn throttle(&self) -> Option<Draws>
        requires { self.now.draws_on ≡ 6 }
        ensures given { IsSome result ↔ IsThrottleGiven self.now }
        ensures value { IfSome result (AreDrawsOf self.now) }
    {
        let ratio = word_of(self.ratio)?;
        let period = Millis::new(self.period)?;
        let now = Moment::new(0)?;
        let throttle = Throttle::new(now, ratio, period)?;
        Some(Draws::Limited(Limit::Throttle(throttle)))
    }
}

// The number as one of 32 bits.
fn word_of(number: u64) -> Option<u32>
    ensures some { IsSome result ↔ (number ≤ 4294967295) }
    ensures value { IfSome result (λ word. word ≡ number) }
{
    if number <= 4294967295 {
        Some(number as u32)
    } else {
        None
    }
}

/// The most windows that the storm has.
pub(crate) fn room_of(storm: &Storm) -> usize
    ensures { result ≡ room_of storm.now }
{
    let parameters = storm.parameters();
    (parameters.until / parameters.window) as usize + 1
}

impl WindowTold {
    /// A window, as C is told of it.
    pub(crate) fn of(window: &Window) -> WindowTold
        ensures { result ≡ window_told window.now }
    {
        let counts = window.counts;
        WindowTold {
            from: window.from,
            requests: counts.requests,
            won: counts.won,
            retries: counts.retries,
            succeeded: counts.succeeded,
            refused: counts.refused,
            shed: counts.shed,
            late: counts.late,
            waiting: window.waiting,
        }
    }
}

impl TotalsTold {
    /// Totals of a report, as C is told of them: 0 in the place of what there is none of.
    pub(crate) fn of(report: &Report) -> TotalsTold
        ensures { result ≡ totals_told report.now }
    {
        let totals = &report.totals;
        let counts = totals.counts;
        TotalsTold {
            windows: report.windows.len() as u64,
            requests: counts.requests,
            won: counts.won,
            lost: totals.lost,
            denied: totals.denied,
            open: totals.open,
            calls: totals.calls,
            hundredths: totals.hundredths,
            most_calls: totals.most_calls,
            most_from: totals.most_from,
            tickets: totals.tickets,
            p50: totals.p50.unwrap_or(0),
            p99: totals.p99.unwrap_or(0),
            slowest: totals.slowest.unwrap_or(0),
            recovered: totals.recovered.unwrap_or(0),
            recovers: totals.recovered.is_some(),
            cut: totals.is_cut,
        }
    }
}
