//! Looks at a limit's word, and requests that begin by one.
ghost use Rattle.std.specs.Prelude.{◌≡◌};
ghost use Rattle.sched_limit_request.specs.Quiet.{looked, may_begin, begun};

use crate::on_limit::OnLimit;
use sched_limit::Quiet;

impl<M: Quiet> OnLimit<M> {
    /// Looks at the limit's word, and answers whether a request may begin at it: whether it is quiet, and no request is
    /// under way.
    #[inline(always)]
    pub fn look(&mut self, word: &mut u64) -> bool
        ensures looked { self.new ≡ looked self.old word.new }
        ensures begins { result ≡ may_begin M.is_quiet self.new word.new }
    {
        *word = self.pass.look(&*self.limit);
        self.may_begin(*word)
    }

    /// Whether a request may begin at this word.
    #[inline(always)]
    pub fn may_begin(&self, word: u64) -> bool
        ensures { result ≡ may_begin M.is_quiet self.now word }
    {
        self.limit.machine().is_quiet(word) && !self.hold.request().counted
    }

    /// A request begins that was admitted at this word, where one may begin.
    pub fn begin(&mut self, word: u64) -> bool
        ensures begins { result ≡ may_begin M.is_quiet self.old word }
        ensures begun { self.new ≡ begun M.is_quiet M.generation self.old word }
    {
        let is_quiet = self.limit.machine().is_quiet(word);
        if !is_quiet || self.hold.request().counted {
            return false;
        }
        self.hold.begin(self.limit.machine().generation(word));
        true
    }
}
