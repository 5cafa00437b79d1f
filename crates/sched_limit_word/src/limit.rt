//! The limit: making it.
ghost use Rattle.std.specs.Prelude.{◌≡◌, IfOk};
ghost use Rattle.sched_limit_word.specs.View.{first_view};
ghost use Rattle.sched_limit_word.specs.Held.{IsOf};

use crate::call::Call;
use crate::machine::Machine;
use crate::pass::Pass;
use crate::rule::{Rule, WORD};
use crate::view::View;
use atomic_table::Table;
use sched_ticket::parts::ALL_PARTS;
use sched_time::NoMemory;
use std::alloc::Global;
use std::marker::Model;

/// A limit that any number of threads call, each with a pass of its own. Contracts see it as its name: which limit it
/// is, and its machine.
#[derive(Drop)]
pub struct Limit<M: Machine> {
    pub(crate) table: Table<Call, View, M, Rule<M>, Global>,
    pub(crate) machine: M,
}

impl<M: Machine> Model for Limit<M> {
    ghost use Rattle.sched_limit_word.specs.Held.{Name, IsLaidOut};

    ghost Value = { Name M };

    ghost view = { λ b. record { table = b.table.shared.table_id; machine = b.machine } };

    ghost invariant = { λ b. IsLaidOut b.table.shared.table_id b.table.shared.key b.machine };
}

impl<M: Machine> Limit<M> {
    /// A limit of this machine, and its first pass, which has all 2^62 parts.
    pub fn new(alloc: Global, machine: M) -> Result<(Limit<M>, Pass), NoMemory>
        ensures { IfOk result (λ r.
            (r.0.machine ≡ machine) × IsOf r.0 r.1 × (r.1.has ≡ first_view (M.first machine))) }
    {
        let mut words = [0; 16];
        words[WORD] = machine.first();
        match Table::of_words(alloc, &words, &machine) {
            Ok((table, seat)) => Ok((Limit { table, machine }, Pass::of_seat(seat, ALL_PARTS))),
            Err(_) => Err(NoMemory),
        }
    }

    /// What the limit's word is told by.
    pub fn machine(&self) -> &M
        ensures { result.now ≡ self.now.machine }
    {
        &self.machine
    }
}
