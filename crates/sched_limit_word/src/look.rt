//! A look at a limit's word.
ghost use Rattle.std.specs.Prelude.{◌≡◌};
ghost use Rattle.sched_limit_word.specs.View.{with_look};
ghost use Rattle.sched_limit_word.specs.Held.{IsOf};

use crate::limit::Limit;
use crate::machine::Machine;
use crate::pass::Pass;
use crate::rule::{Look, WORD};

impl Pass {
    /// Reads the word, and makes no call.
    #[inline(always)]
    pub fn look<M: Machine>(&mut self, limit: &Limit<M>) -> u64
        requires { IsOf limit.now self.old }
        ensures of { IsOf limit.now self.new }
        ensures looked { self.new.has ≡ with_look self.old.has result }
    {
        limit.table.shared.load::<Look>(&mut self.seat, WORD)
    }
}
