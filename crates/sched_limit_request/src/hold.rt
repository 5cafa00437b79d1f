//! What a request holds of a limit, until it is given back.
ghost use Rattle.std.specs.Prelude.{◌≡◌, Ok, IfOk, IfErr};
ghost use Rattle.sched_limit_word.specs.Held.{IsOf};
ghost use Rattle.sched_limit.specs.Holds.{IsHeld, MayMake};
ghost use Rattle.sched_limit.specs.Step.{nothing, admitted, rules};
ghost use Rattle.sched_limit.specs.declared.request.Told.TheVariants as told_as;
ghost use Rattle.sched_limit_request.specs.Tells.{Makes, Misses, IsTold};

use sched_limit::{
    Refusal, Refuses, Request, Told, call_of, lost_answer, lost_held, tell, tries_of,
};
use sched_limit_word::{Call, Limit, Pass, RacesLost};

/// What a request holds of a limit. It can't be let go: `end` alone takes it, and gives back what it holds.
pub(crate) struct Hold {
    request: Request,
}

impl Hold {
    pub(crate) fn nothing() -> Hold
        ensures { result.request ≡ nothing }
    {
        Hold {
            request: Request::nothing(),
        }
    }

    /// What it is.
    pub(crate) fn request(&self) -> Request
        ensures { result ≡ self.now.request }
    {
        self.request
    }

    /// Holds from now on what a request does that was admitted in this generation.
    pub(crate) fn begin(&mut self, generation: u64)
        ensures { self.new.request ≡ admitted generation }
    {
        self.request = Request::admitted(generation);
    }

    /// Asks the limit, or tells it.
    #[inline(always)]
    pub(crate) fn tell<M: Refuses>(
        &mut self,
        pass: &mut Pass,
        limit: &Limit<M>,
        told: &Told,
        random: u32,
    ) -> Result<(), Refusal>
        requires of { IsOf limit.now pass.old }
        requires held { let m = limit.now.machine in
            IsHeld (M.tokens m) (M.holds m) self.old.request pass.old.has.moves }
        ensures of { IsOf limit.now pass.new }
        ensures held { let m = limit.now.machine in
            IsHeld (M.tokens m) (M.holds m) self.new.request pass.new.has.moves }
        ensures told { let m = rules M.next M.refusal M.generation M.worth limit.now.machine in
            IsTold m told.now random self.old.request result self.new.request pass.old.has pass.new.has }
    {
        let call = call_of(limit.machine(), told, random, &self.request);
        match find(pass, limit, &call, tries_of(told)) {
            Ok(word) => {
                let mut word = word;
                tell(limit.machine(), told, random, &mut self.request, &mut word)
            }
            Err(RacesLost) => {
                self.request = lost_held(told, &self.request);
                lost_answer(told)
            }
        }
    }

    /// Tells that the request is over, which gives back what it holds.
    #[inline(always)]
    pub(crate) fn end<M: Refuses>(self, pass: &mut Pass, limit: &Limit<M>)
        requires of { IsOf limit.now pass.old }
        requires held { let m = limit.now.machine in IsHeld (M.tokens m) (M.holds m) self.request pass.old.has.moves }
        ensures of { IsOf limit.now pass.new }
        ensures told { let m = rules M.next M.refusal M.generation M.worth limit.now.machine in
            IsTold m told_as.Ended 0 self.request (Ok tt) nothing pass.old.has pass.new.has }
    {
        let mut hold = self;
        let _ = hold.tell(pass, limit, &Told::Ended, 0);
        let Hold { request: _ } = hold;
    }
}

/// Makes a call, if there is one, and answers the word that it found.
#[inline(always)]
fn find<M: Refuses>(
    pass: &mut Pass,
    limit: &Limit<M>,
    call: &Option<Call>,
    tries: u64,
) -> Result<u64, RacesLost>
    requires of { IsOf limit.now pass.old }
    requires may { MayMake (M.tokens limit.now.machine) (M.next limit.now.machine) call.now pass.old.has.moves }
    ensures of { IsOf limit.now pass.new }
    ensures ok { IfOk result (λ w. Makes (M.next limit.now.machine) call.now w pass.old.has pass.new.has) }
    ensures err { IfErr result (λ _. Misses call.now tries pass.old.has pass.new.has) }
{
    match call {
        Some(call) => pass.call(limit, *call, tries),
        None => Ok(0),
    }
}
