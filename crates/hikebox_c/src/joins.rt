//! What two handles draw by, joined into one.
ghost use Rattle.sched_handle.specs.Passes.{AreOfOne};
ghost use Rattle.hikebox_c.specs.Passes.{JoinsHeld};

use sched_handle::{Handle, Kind, Status};
use std::alloc::Global;

// Joins what a handle of this kind draws by into a pass, and leaves that handle empty.
#[inline(always)]
pub(crate) fn join_into(alloc: Global, kind: Kind, from: &mut Handle, pass: &mut Handle) -> u32
    requires { AreOfOne pass.old.held from.old.held }
    ensures { JoinsHeld kind from.old.held pass.old.held result from.new.held pass.new.held }
{
    let Some(held) = from.take(alloc) else {
        return Status::Empty.code();
    };
    if held.kind() != kind {
        from.put(held);
        return Status::WrongKind.code();
    }
    let Some(mut to) = pass.take(alloc) else {
        from.put(held);
        return Status::Empty.code();
    };
    if to.kind() != Kind::Pass {
        from.put(held);
        pass.put(to);
        return Status::WrongKind.code();
    }
    if !to.draws_alike(&held) {
        from.put(held);
        pass.put(to);
        return Status::DrawsElsewhere.code();
    }
    to.join(held);
    pass.put(to);
    0
}
