//! The calls on what a retry draws by that may be refused, with their statuses.
ghost use Rattle.std.specs.Prelude.{◌≡◌, IfOk, IfErr};
ghost use Rattle.sched_handle.specs.Drawing.{Draws as DrawsTicket, Deposits, HandsBack, SetsTerms};
ghost use Rattle.sched_handle.specs.Drawing.{Parted, NoSplit, Raises, Sees};

use crate::replies::Usage;
use crate::status::Status;
use sched_ticket_draws::{Drawing, Draws, Unlimited};
use sched_time::Moment;

/// Draws a ticket: its number, or `NoTicket`, or of a quota `RacesLost`. A budget and nothing heed no moment.
pub(crate) fn ticket(drawing: &mut Drawing, now: Moment) -> Result<u64, Status>
    ensures { DrawsTicket now drawing.old result drawing.new }
{
    match drawing {
        Drawing::Budget(pass) => match pass.ticket() {
            Some(ticket) => Ok(ticket),
            None => Err(Status::NoTicket),
        },
        Drawing::Quota(pass) => Ok(pass.ticket(now)?),
        Drawing::Unlimited(pass) => {
            let number = pass.granted();
            if pass.draw(now) {
                Ok(number)
            } else {
                Err(Status::NoTicket)
            }
        }
    }
}

/// Counts so many requests at once, where it draws on a quota; nothing else counts any.
pub(crate) fn deposit(drawing: &mut Drawing, now: Moment, requests: u64) -> Result<(), Status>
    ensures { Deposits now requests drawing.old result drawing.new }
{
    match drawing {
        Drawing::Budget(_) => Ok(()),
        Drawing::Quota(pass) => Ok(pass.deposit_of(now, requests)?),
        Drawing::Unlimited(_) => Ok(()),
    }
}

/// Hands the latest ticket of a quota back. Nothing else takes one.
pub(crate) fn hand_back(drawing: &mut Drawing) -> Result<(), Status>
    ensures { HandsBack drawing.old result drawing.new }
{
    match drawing {
        Drawing::Budget(_) => Err(Status::NothingToHandBack),
        Drawing::Quota(pass) => Ok(pass.hand_back()?),
        Drawing::Unlimited(_) => Err(Status::NothingToHandBack),
    }
}

/// Sets the reserve and the share of a quota. Nothing else has terms.
pub(crate) fn set_terms(drawing: &mut Drawing, reserve: u64, share: u64) -> Result<(), Status>
    ensures { SetsTerms reserve share drawing.old result drawing.new }
{
    match drawing {
        Drawing::Budget(_) => Err(Status::NoTerms),
        Drawing::Quota(pass) => Ok(pass.set_terms(reserve, share)?),
        Drawing::Unlimited(_) => Err(Status::NoTerms),
    }
}

/// A pass of the same that is split off, which has no ticket.
pub(crate) fn split(drawing: &mut Drawing) -> Result<Drawing, Status>
    ensures ok { IfOk result (λ part. Parted drawing.old part drawing.new) }
    ensures err { IfErr result (λ status. NoSplit drawing.old status drawing.new) }
{
    match drawing {
        Drawing::Budget(pass) => Ok(Drawing::Budget(pass.split()?)),
        Drawing::Quota(pass) => Ok(Drawing::Quota(pass.split()?)),
        Drawing::Unlimited(_) => Ok(Drawing::Unlimited(Unlimited::new())),
    }
}

/// Makes the limit of a rising budget the greater of itself and `to`, and answers it. What has no limit is `Fixed`.
pub(crate) fn raise(drawing: &mut Drawing, to: u64) -> Result<u64, Status>
    ensures { Raises to drawing.old result drawing.new }
{
    match drawing {
        Drawing::Budget(pass) => Ok(pass.raise(to)?),
        Drawing::Quota(_) => Err(Status::Fixed),
        Drawing::Unlimited(_) => Err(Status::Fixed),
    }
}

/// What is known of the latest window of a quota. Nothing else has windows.
pub(crate) fn seen(drawing: &mut Drawing, now: Moment) -> Result<Usage, Status>
    ensures { Sees now drawing.old result drawing.new }
{
    match drawing {
        Drawing::Budget(_) => Err(Status::WrongKind),
        Drawing::Quota(pass) => Ok(Usage::of(pass.seen(now))),
        Drawing::Unlimited(_) => Err(Status::WrongKind),
    }
}
