//! What holds of claimed jobs between any two atomic steps, for any number of shares and claims.
//! The function does nothing: its contract is a law of the budget's rule.
ghost use Rattle.sched_pool_claim.specs.Laws.{ClaimsStandOnce, NoneWhereAllAreClaimed};

use sched_ticket::laws::tickets_stand_once;

/// No job is claimed twice over all shares, and where a share was answered `None`, every job is claimed.
pub fn jobs_are_claimed_once()
    ensures once { ClaimsStandOnce }
    ensures all { NoneWhereAllAreClaimed }
{
    tickets_stand_once();
}
