//! A budget's name as a type, so that what lies under a lock can say whose pass it holds.

use std::marker::Brand;

/// A type that stands for one budget. Each call of a program picks which, by passing `Brand`.
pub trait Naming {
    ghost use Rattle.sched_ticket.specs.Held.{Name};

    ghost budget: { Name };
}

impl Naming for Brand {
    ghost use Rattle.sched_ticket.specs.Held.{nobody};

    ghost budget = { nobody };
}
