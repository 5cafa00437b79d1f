//! What a request asks of a limit and tells it.
ghost use Rattle.std.specs.Prelude.{◌≡◌, IfOk, IfErr};
ghost use Rattle.sched_limit.specs.declared.request.Told.TheVariants as told_as;
ghost use Rattle.sched_limit_request.specs.Asks.{Asked, Hears};

use crate::fault::SplitFault;
use sched_limit::{Refusal, Told};
use sched_time::Moment;

/// A limit, as one request after another asks it.
pub trait Asks: Drop {
    // What each call does.
    ghost asked: { Asked Self };

    /// Asks the limit, or tells it, with a random word: `admit` and the others say what.
    fn tell(&mut self, told: &Told, random: u32) -> Result<(), Refusal>
        ensures { asked.tells self.old told.now random result self.new };

    /// Asks before the first run of a request, with a random word. `OutOfTurn` where one is under way.
    #[inline(always)]
    fn admit(&mut self, now: Moment, random: u32) -> Result<(), Refusal>
        ensures { asked.tells self.old (told_as.Admit now) random result self.new }
    {
        self.tell(&Told::Admit(now), random)
    }

    /// Asks for a retry, at a cost and with a random word, after its run failed and before it waits. The slot that an
    /// earlier retry held is given back. `OutOfTurn` where no request is under way.
    #[inline(always)]
    fn draw(&mut self, now: Moment, cost: u64, random: u32) -> Result<(), Refusal>
        ensures { asked.tells self.old (told_as.Draw now cost) random result self.new }
    {
        self.tell(&Told::Draw(now, cost), random)
    }

    /// Tells that a run of the request failed, whether it is retried or not.
    #[inline(always)]
    fn failed(&mut self, now: Moment)
        ensures { Hears asked (told_as.Failed now) self.old self.new }
    {
        let _ = self.tell(&Told::Failed(now), 0);
    }

    /// Tells that a run of the request succeeded.
    #[inline(always)]
    fn succeeded(&mut self, now: Moment)
        ensures { Hears asked (told_as.Succeeded now) self.old self.new }
    {
        let _ = self.tell(&Told::Succeeded(now), 0);
    }

    /// Tells that the retry that was drawn last is cancelled while it waits: what it cost comes back, once, and so does
    /// its slot.
    #[inline(always)]
    fn cancelled(&mut self)
        ensures { Hears asked told_as.Cancelled self.old self.new }
    {
        let _ = self.tell(&Told::Cancelled, 0);
    }

    /// Tells that the request is over, however: what it holds is given back, once.
    #[inline(always)]
    fn ended(&mut self)
        ensures { Hears asked told_as.Ended self.old self.new }
    {
        let _ = self.tell(&Told::Ended, 0);
    }

    /// The same limit for another thread's requests. `TooManyPasses` where a pass has one part, which it keeps. Where
    /// one of several passes is not split, those before it have given a part away.
    fn split(&mut self) -> Result<Self, SplitFault>
        ensures part { IfOk result (λ part. (part ≡ asked.part self.old) × (self.new ≡ asked.left self.old)) }
        ensures unsplit { IfErr result (λ why. asked.unsplit self.old why self.new) };
}
