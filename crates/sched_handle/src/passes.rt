//! Calls on passes.
ghost use Rattle.std.specs.Prelude.{◌≡◌, true, false, Some, None, is_some, IfOk, IfErr, IfSome, IfNone};
ghost use Rattle.std.specs.Borrow.{LendsIfOk, sem};
ghost use Rattle.sched_ticket_draws.specs.contracts.drawing.Drawing.{the_row as drawing_row};
ghost use Rattle.sched_handle.specs.Drawing.{Draws, Deposits, HandsBack, SetsTerms, Parted, NoSplit, Raises, Sees};
ghost use Rattle.sched_handle.specs.Held.{IsOther};
ghost use Rattle.sched_handle.specs.Passes.{MakesBudget, terms_of, MakesQuota, MakesUnlimited, OnPass, Splits};
ghost use Rattle.sched_handle.specs.Passes.{CountsTickets, Closes, drawing_of, draw_alike, DrawOnOne, Joins};
ghost use Rattle.sched_handle.specs.contracts.held.Held.{the_row as held_row};
ghost use Rattle.sched_handle.specs.declared.held.Held.TheVariants as what;
ghost use Rattle.sched_handle.specs.declared.held.Kind.TheVariants as kind;

use crate::drawing;
use crate::held::Held;
use crate::replies::Usage;
use crate::status::Status;
use sched_ticket_draws::{Drawing, Draws, OnBudget, OnQuota, Unlimited};
use sched_ticket_quota::{MAX_RESERVE, MAX_SHARE, Terms};
use sched_time::{Millis, Moment};
use std::alloc::Global;
use std::mem;

impl Held {
    /// A budget of `limit` tickets by parts, and its first pass.
    pub fn fixed(alloc: Global, limit: u64) -> Result<Box<Held>, Status>
        ensures { MakesBudget limit false result }
    {
        let pass = OnBudget::fixed(alloc, limit)?;
        Held::Pass(Drawing::Budget(pass)).boxed(alloc)
    }

    /// A budget by parts whose limit is `limit` and may rise, and its first pass.
    pub fn rising(alloc: Global, limit: u64) -> Result<Box<Held>, Status>
        ensures { MakesBudget limit true result }
    {
        let pass = OnBudget::rising(alloc, limit)?;
        Held::Pass(Drawing::Budget(pass)).boxed(alloc)
    }

    /// A quota of `reserve` tickets and `share` thousandths of a ticket for each request, in each window of `period`
    /// milliseconds, that carries or does not, and its first pass. The window of `now` is open, and windows are counted
    /// from it on.
    #[tactic(auto, using(crate::proofs::Quotas::no_quota))]
    pub fn quota(
        alloc: Global,
        now: Moment,
        reserve: u64,
        share: u64,
        period: u64,
        carries: bool,
    ) -> Result<Box<Held>, Status>
        ensures { MakesQuota now (terms_of reserve share period) carries result }
    {
        let Some(period) = Millis::new(period) else {
            return Err(if reserve > MAX_RESERVE {
                Status::ReserveTooLarge
            } else if share > MAX_SHARE {
                Status::ShareTooLarge
            } else {
                Status::TooLarge
            });
        };
        let terms = Terms {
            reserve,
            share,
            period,
        };
        let pass = OnQuota::of_terms(alloc, now, terms, carries)?;
        Held::Pass(Drawing::Quota(pass)).boxed(alloc)
    }

    /// A pass that draws on nothing.
    pub fn unlimited(alloc: Global) -> Result<Box<Held>, Status>
        ensures { MakesUnlimited result }
    {
        Held::Pass(Drawing::Unlimited(Unlimited::new())).boxed(alloc)
    }

    /// Draws a ticket.
    pub fn draw(&mut self, now: Moment) -> Result<u64, Status>
        ensures { OnPass (Draws now) self.old result self.new }
    {
        let pass = self.pass_mut()?;
        drawing::ticket(pass, now)
    }

    /// Counts so many requests at once, where it is a pass of a quota. A pass of anything else counts none.
    pub fn deposit(&mut self, now: Moment, requests: u64) -> Result<(), Status>
        ensures { OnPass (Deposits now requests) self.old result self.new }
    {
        let pass = self.pass_mut()?;
        drawing::deposit(pass, now, requests)
    }

    /// Hands the latest ticket of a quota back that was drawn with this pass, or with one joined into it since.
    pub fn hand_back(&mut self) -> Result<(), Status>
        ensures { OnPass HandsBack self.old result self.new }
    {
        let pass = self.pass_mut()?;
        drawing::hand_back(pass)
    }

    /// Sets the reserve and the share of a quota, by which each draw goes from now on.
    pub fn set_terms(&mut self, reserve: u64, share: u64) -> Result<(), Status>
        ensures { OnPass (SetsTerms reserve share) self.old result self.new }
    {
        let pass = self.pass_mut()?;
        drawing::set_terms(pass, reserve, share)
    }

    /// Splits a pass off, for which there is no memory wanted once it is split.
    pub fn split(&mut self, alloc: Global) -> Result<Box<Held>, Status>
        ensures { OnPass Splits self.old result self.new }
    {
        let pass = self.pass_mut()?;
        let (part, room) = split_off(alloc, pass)?;
        Ok(Held::Pass(part).within(room))
    }

    /// Makes the limit of a rising budget the greater of itself and `to`, and answers it.
    pub fn raise(&mut self, to: u64) -> Result<u64, Status>
        ensures { OnPass (Raises to) self.old result self.new }
    {
        let pass = self.pass_mut()?;
        drawing::raise(pass, to)
    }

    /// What is known of the latest window of a quota.
    pub fn usage(&mut self, now: Moment) -> Result<Usage, Status>
        ensures { OnPass (Sees now) self.old result self.new }
    {
        let pass = self.pass_mut()?;
        drawing::seen(pass, now)
    }

    /// How many tickets were drawn with this pass, and with those joined into it.
    pub fn count(&self) -> Result<u64, Status>
        ensures { CountsTickets self.now result }
    {
        match self {
            Held::Pass(pass) => Ok(pass.granted()),
            _ => Err(Status::WrongKind),
        }
    }

    /// Closes what this pass draws on, where it has all parts of that: then room is left of it. Otherwise another pass
    /// is alive or was freed, and this one stays.
    pub fn close(&mut self) -> Result<u64, Status>
        ensures { Closes self.old result self.new }
    {
        let this = mem::replace(self, Held::Room);
        match this {
            Held::Pass(pass) => match pass.close() {
                Ok(tickets) => Ok(tickets),
                Err(pass) => {
                    drop(mem::replace(self, Held::Pass(pass)));
                    Err(Status::PassesOut)
                }
            },
            other => {
                drop(mem::replace(self, other));
                Err(Status::WrongKind)
            }
        }
    }

    /// Whether this and the other, each a pass or a retry, draw on the same kind of thing.
    pub fn draws_alike(&self, other: &Held) -> bool
        ensures { result ≡ draw_alike (drawing_of self.now) (drawing_of other.now) }
    {
        let Some(this) = self.drawing() else {
            return false;
        };
        let Some(other) = other.drawing() else {
            return false;
        };
        this.is_like(other)
    }

    /// Joins what another pass or a retry draws by into this pass. A retry ends so.
    #[inline(always)]
    pub fn join(&mut self, other: Box<Held>)
        requires alike { draw_alike (drawing_of self.old) (drawing_of other.value) ≡ true }
        requires one { DrawOnOne (drawing_of self.old) (drawing_of other.value) }
        ensures { Joins (drawing_of self.old) (drawing_of other.value) self.new }
    {
        if let Held::Pass(pass) = self {
            let other = Box::into_inner(other);
            pass.take_in(other.into_drawing());
            return;
        }
        self.become_pass(other);
    }

    // The same of a retry, which becomes a pass.
    #[cold]
    #[inline(never)]
    fn become_pass(&mut self, other: Box<Held>)
        requires alike { draw_alike (drawing_of self.old) (drawing_of other.value) ≡ true }
        requires one { DrawOnOne (drawing_of self.old) (drawing_of other.value) }
        ensures { Joins (drawing_of self.old) (drawing_of other.value) self.new }
    {
        let mut this = mem::replace(self, Held::Room).into_drawing();
        let other = Box::into_inner(other);
        this.take_in(other.into_drawing());
        *self = Held::Pass(this);
    }

    // What a pass or a retry draws by.
    fn drawing(&self) -> Option<&Drawing>
        ensures some { IfSome result (λ d. drawing_of self.now ≡ Some d.now) }
        ensures none { IfNone result (drawing_of self.now ≡ None) }
    {
        match self {
            Held::Pass(pass) => Some(pass),
            Held::Retry(retry) => Some(retry.drawing()),
            Held::Room => None,
            Held::Policy(_) => None,
            Held::Leased(_) => None,
            Held::Limits(_) => None,
            Held::Pace(_) => None,
        }
    }

    // The same, taken out of it.
    #[inline(always)]
    fn into_drawing(self) -> Drawing
        requires { is_some (drawing_of self) ≡ true }
        ensures { drawing_of self ≡ Some result }
    {
        match self {
            Held::Pass(pass) => pass,
            Held::Retry(retry) => {
                let (_, pass) = retry.into_parts();
                pass
            }
            Held::Room => unreachable!(),
            Held::Policy(_) => unreachable!(),
            Held::Leased(_) => unreachable!(),
            Held::Limits(_) => unreachable!(),
            Held::Pace(_) => unreachable!(),
        }
    }

    // The pass to be changed, where it is one.
    #[inline(always)]
    pub(crate) fn pass_mut(&mut self) -> Result<&mut Drawing, Status>
        ensures* lends { sem 𝓛 (LendsIfOk held_row drawing_row self.entry result what.Pass self.old) }
        ensures ok { IfOk result (λ pass. self.old ≡ what.Pass pass.now) }
        ensures err { IfErr result (IsOther kind.Pass self.old) }
    {
        if let Held::Pass(pass) = self {
            Ok(pass)
        } else {
            Err(Status::WrongKind)
        }
    }
}

// A pass that is split off this one, and room for what is to hold it.
#[inline(always)]
#[tactic(auto, using(crate::proofs::Splits::no_room))]
pub(crate) fn split_off(alloc: Global, pass: &mut Drawing) -> Result<(Drawing, Box<Held>), Status>
    ensures ok { IfOk result (λ part. Parted pass.old part.0 pass.new) }
    ensures err { IfErr result (λ status. NoSplit pass.old status pass.new) }
    ensures room { IfOk result (λ part. part.1.value ≡ what.Room) }
{
    let room = Held::Room.boxed(alloc)?;
    let part = drawing::split(pass)?;
    Ok((part, room))
}
