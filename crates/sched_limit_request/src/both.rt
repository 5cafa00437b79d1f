//! Two limits at once.
ghost use Rattle.std.specs.Prelude.{◌≡◌};
ghost use Rattle.sched_limit_request.specs.Pairs.{undo_of};

use crate::asks::Asks;
use crate::fault::SplitFault;
use sched_limit::{Refusal, Told};

/// Two limits that one request asks, the first one first: both grant, or what the first one granted is given back. A
/// breaker stands second, since a probe that it admitted is not given back.
#[derive(Drop)]
pub struct Both<A: Asks, B: Asks> {
    pub first: A,
    pub second: B,
}

impl<A: Asks, B: Asks> Asks for Both<A, B> {
    ghost use Rattle.sched_limit_request.specs.Pairs.{both_asked};

    ghost asked = { both_asked A.asked B.asked };

    fn tell(&mut self, told: &Told, random: u32) -> Result<(), Refusal> {
        let Some(undo) = undo_of(told) else {
            let _ = self.first.tell(told, random);
            return self.second.tell(told, random);
        };
        match self.first.tell(told, random) {
            Ok(()) => {}
            Err(why) => return Err(why),
        }
        match self.second.tell(told, random) {
            Ok(()) => Ok(()),
            Err(why) => {
                let _ = self.first.tell(&undo, 0);
                Err(why)
            }
        }
    }

    fn split(&mut self) -> Result<Both<A, B>, SplitFault> {
        let first = self.first.split()?;
        let second = self.second.split()?;
        Ok(Both { first, second })
    }
}

// What takes back what was asked and granted, if anything is to be.
#[inline(always)]
fn undo_of(told: &Told) -> Option<Told>
    ensures { result ≡ undo_of told.now }
{
    match told {
        Told::Admit(_) => Some(Told::Ended),
        Told::Draw(_, _) => Some(Told::Cancelled),
        _ => None,
    }
}
