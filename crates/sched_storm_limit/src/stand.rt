//! How a limit stands in a storm.
ghost use Rattle.std.specs.Prelude.{◌≡◌, ◌+◌, ℕ, IfOk, OnOk};
ghost use Rattle.sched_limit.specs.Step.{nothing};
ghost use Rattle.sched_storm_limit.specs.Limits.{state_at_first, holding, asking, telling, admitting};
ghost use Rattle.sched_storm_limit.specs.Limits.{failing, drawing, drawing_if, ending, ending_if, succeeding};
ghost use Rattle.sched_storm_limit.specs.States.{state_of};

use crate::draws::{Draws, Limit};
use crate::words::Words;
use sched_limit::{Request, Told};
use sched_time::{Moment, NoMemory};
use std::alloc::Global;

/// How a limit stands in a storm, and what each request holds of it. Where retries draw on none it takes no memory.
#[derive(Drop)]
pub struct Stand {
    words: Words,
    /// What the requests hold, by their numbers, until the last that holds anything.
    holds: Vec<Request>,
}

impl Stand {
    /// Before the first event, with random words of the seed and 1.
    pub fn new(alloc: Global, draws: &Draws, seed: u64) -> Stand
        ensures { state_of result ≡ state_at_first draws.now seed }
    {
        Stand {
            words: Words::new(draws, seed),
            holds: Vec::new(alloc),
        }
    }

    /// A request asks to be admitted, before its first call.
    pub fn admit(&mut self, draws: &Draws, at: Moment, request: u64) -> Result<bool, NoMemory>
        ensures { IfOk result (λ yes. (yes, state_of self.new) ≡ admitting draws.now at request (state_of self.old)) }
    {
        match draws {
            Draws::Limited(limit) => self.ask(limit, &Told::Admit(at), request),
            _ => Ok(true),
        }
    }

    /// Whether the request would be admitted.
    pub fn admits(&self, draws: &Draws, at: Moment, request: u64) -> Result<bool, NoMemory>
        ensures { IfOk result (λ yes. yes ≡ (admitting draws.now at request (state_of self.now)).0) }
    {
        let Draws::Limited(limit) = draws else {
            return Ok(true);
        };
        let mut words = self.words.again()?;
        let mut held = self.holds(request);
        Ok(words.tell(limit, &Told::Admit(at), &mut held))
    }

    /// A call of the request failed.
    pub fn fail(&mut self, draws: &Draws, at: Moment, request: u64)
        ensures { state_of self.new ≡ failing draws.now at request (state_of self.old) }
    {
        if let Draws::Limited(limit) = draws {
            self.tell(limit, &Told::Failed(at), request);
        }
    }

    /// The request asks for a retry, after a call that came late or after another.
    pub fn draw(
        &mut self,
        draws: &Draws,
        is_late: bool,
        at: Moment,
        request: u64,
    ) -> Result<bool, NoMemory>
        ensures { IfOk result (λ yes. (yes, state_of self.new)
            ≡ drawing draws.now is_late at request (state_of self.old)) }
    {
        match draws {
            Draws::Limited(limit) => self.ask(limit, &Told::Draw(at, limit.cost(is_late)), request),
            _ => Ok(true),
        }
    }

    /// The same where a retry is wanted, and else nothing.
    pub fn draw_if(
        &mut self,
        is_wanted: bool,
        draws: &Draws,
        is_late: bool,
        at: Moment,
        request: u64,
    ) -> Result<bool, NoMemory>
        ensures { IfOk result (λ yes. (yes, state_of self.new)
            ≡ drawing_if is_wanted draws.now is_late at request (state_of self.old)) }
    {
        if is_wanted {
            self.draw(draws, is_late, at, request)
        } else {
            Ok(true)
        }
    }

    /// The request is over, and gives back what it holds.
    pub fn end(&mut self, draws: &Draws, request: u64) -> Result<(), NoMemory>
        ensures { OnOk result (state_of self.new ≡ ending draws.now request (state_of self.old)) }
    {
        if let Draws::Limited(limit) = draws {
            self.ask(limit, &Told::Ended, request)?;
        }
        Ok(())
    }

    /// The same where the request is over, and else nothing.
    pub fn end_if(&mut self, is_over: bool, draws: &Draws, request: u64) -> Result<(), NoMemory>
        ensures { OnOk result (state_of self.new ≡ ending_if is_over draws.now request (state_of self.old)) }
    {
        if is_over {
            self.end(draws, request)
        } else {
            Ok(())
        }
    }

    /// A call of the request succeeded, and it is over.
    pub fn succeed(&mut self, draws: &Draws, at: Moment, request: u64) -> Result<(), NoMemory>
        ensures { OnOk result (state_of self.new ≡ succeeding draws.now at request (state_of self.old)) }
    {
        if let Draws::Limited(limit) = draws {
            self.tell(limit, &Told::Succeeded(at), request);
            self.ask(limit, &Told::Ended, request)?;
        }
        Ok(())
    }

    // What a request holds.
    fn holds(&self, request: u64) -> Request
        ensures { result ≡ (state_of self.now).holds request }
    {
        match self.holds.get(request as usize) {
            Some(held) => *held,
            None => Request::nothing(),
        }
    }

    // The request holds this now.
    fn hold(&mut self, request: u64, held: Request) -> Result<(), NoMemory>
        ensures { OnOk result (state_of self.new ≡ holding request held (state_of self.old)) }
    {
        while self.holds.len() as u64 <= request {
            self.holds.push(Request::nothing())?;
        }
        self.holds[request as usize] = held;
        Ok(())
    }

    // A request asks a limit, or ends.
    fn ask(&mut self, limit: &Limit, told: &Told, request: u64) -> Result<bool, NoMemory>
        ensures { IfOk result (λ yes. (yes, state_of self.new)
            ≡ asking limit.now told.now request (state_of self.old)) }
    {
        let mut held = self.holds(request);
        let granted = self.words.tell(limit, told, &mut held);
        self.hold(request, held)?;
        Ok(granted)
    }

    // A request tells a limit how a call went.
    fn tell(&mut self, limit: &Limit, told: &Told, request: u64)
        ensures { state_of self.new ≡ telling limit.now told.now request (state_of self.old) }
    {
        let mut held = self.holds(request);
        let _ = self.words.tell(limit, told, &mut held);
    }
}
