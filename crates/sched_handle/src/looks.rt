//! Looks at the words of limits.
ghost use Rattle.sched_handle.specs.Limits.{OnLimits};
ghost use Rattle.sched_handle.specs.Looks.{Looks, Begins};

use crate::held::Held;
use crate::status::Status;
use sched_limit_handle::Words;

impl Held {
    /// Looks at the words of the limits, and answers whether a request may begin at them.
    #[inline(always)]
    pub fn limits_look(&mut self, words: &mut Words) -> Result<bool, Status>
        ensures { OnLimits (Looks words.new) self.old result self.new }
    {
        if let Held::Limits(limits) = self {
            Ok(limits.look(words))
        } else {
            Err(Status::WrongKind)
        }
    }

    /// A request begins that the limits admitted at these words, where one may begin.
    pub fn limits_begin(&mut self, words: &Words) -> Result<bool, Status>
        ensures { OnLimits (Begins words.now) self.old result self.new }
    {
        if let Held::Limits(limits) = self {
            Ok(limits.begin(words))
        } else {
            Err(Status::WrongKind)
        }
    }
}
