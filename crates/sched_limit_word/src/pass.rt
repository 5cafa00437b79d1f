//! The pass: the right to call a limit, and what was done with it.
ghost use Rattle.std.specs.Prelude.{◌≡◌, ◌<◌, ◌≤◌, ◌↔◌, true, [], IfOk, IfErr, OnOk};
ghost use Rattle.sched_limit_word.specs.View.{fresh_view, without_part, part_of, joined_view};
ghost use Rattle.sched_limit_word.specs.Held.{IsOf};
ghost use Rattle.sched_limit_word.specs.Calls.{Called, LostRaces};
ghost use Rattle.sched_limit_word.specs.Tokens.{MayCall};

use crate::call::Call;
use crate::fault::{RacesLost, TooManyPasses};
use crate::limit::Limit;
use crate::machine::Machine;
use crate::rule::{Learn, Look, Merge, Part, Try, WORD};
use crate::view::View;
use sched_ticket::parts::{ALL_PARTS, given};
use std::marker::Model;

pub(crate) type Seat = atomic_table::Seat<Call, View>;

/// How many races with other calls a call loses before it gives up, unless it says another number.
pub const MAX_TRIES: u64 = 64;

/// The right to call one limit. Contracts see it as its limit and what was done with it.
/// A pass that is dropped keeps what it has.
#[derive(Drop)]
pub struct Pass {
    pub(crate) seat: Seat,
    /// The parts that it stands for.
    pub(crate) weight: u64,
}

impl Model for Pass {
    ghost use Rattle.sched_limit_word.specs.Held.{Held, IsKnown};

    ghost Value = { Held };

    ghost view = { λ p. record { table = p.seat.table_id; has = p.seat.me.0 } };

    ghost invariant = { λ p. IsKnown p.seat.me p.weight };
}

impl Pass {
    pub(crate) fn of_seat(seat: Seat, weight: u64) -> Pass
        requires bare { seat.me.1 ≡ [] }
        requires weight { seat.me.0.weight ≡ weight }
        requires live { (0 < weight) × (weight ≤ 4611686018427387904) }
        ensures { (result.table ≡ seat.table_id) × (result.has ≡ seat.me.0) }
    {
        Pass { seat, weight }
    }

    /// Makes a call, and answers the word that it found, of which the machine makes the one that it leaves. Where that
    /// is the same, nothing is written. `RacesLost` where other calls came first so many times. What the call gives
    /// back, this pass has gained, and has not given back before.
    #[inline(always)]
    pub fn call<M: Machine>(
        &mut self,
        limit: &Limit<M>,
        call: Call,
        tries: u64,
    ) -> Result<u64, RacesLost>
        requires of { IsOf limit.now self.old }
        requires may { MayCall (M.tokens limit.now.machine) (M.next limit.now.machine) call self.old.has.moves }
        ensures of { IsOf limit.now self.new }
        ensures ok { IfOk result (λ w. Called (M.next limit.now.machine) call w self.old.has self.new.has) }
        ensures err { IfErr result (λ _. LostRaces tries self.old.has self.new.has) }
    {
        step(limit, &mut self.seat, call, tries)
    }

    /// A new pass that has done nothing, for another thread. `TooManyPasses` where this pass has one part, which it
    /// keeps: the first pass has 2^62, and a split gives 2^20 where there are more, or else one.
    pub fn split<M: Machine>(&mut self, limit: &Limit<M>) -> Result<Pass, TooManyPasses>
        requires { IsOf limit.now self.old }
        ensures of { IsOf limit.now self.new }
        ensures ok { IfOk result (λ p. IsOf limit.now p × (p.has ≡ part_of self.old.has)) }
        ensures kept { OnOk result ((1 < self.old.has.weight) × (self.new.has ≡ without_part self.old.has)) }
        ensures err { IfErr result (λ _. (self.old.has.weight ≡ 1) × (self.new ≡ self.old)) }
    {
        if self.weight == 1 {
            return Err(TooManyPasses);
        }
        let parts = given(self.weight);
        let seat = limit.table.shared.split_seat::<Part>(&mut self.seat);
        self.weight -= parts;
        Ok(Pass::of_seat(seat, parts))
    }

    /// One pass with what both have.
    pub fn join<M: Machine>(mut self, other: Pass, limit: &Limit<M>) -> Pass
        requires this { IsOf limit.now self }
        requires that { IsOf limit.now other }
        ensures of { IsOf limit.now result }
        ensures joined { result.has ≡ joined_view self.has other.has }
    {
        let Pass { seat, weight } = other;
        limit.table.shared.join_seat::<Merge>(&mut self.seat, seat);
        limit.table.shared.load::<Learn>(&mut self.seat, WORD);
        self.weight += weight;
        self
    }

    /// Whether it has all parts of its limit: no other pass is alive, nor was dropped.
    pub fn is_whole(&self) -> bool
        ensures { result ≡ true ↔ (self.now.has.weight ≡ 4611686018427387904) }
    {
        self.weight == ALL_PARTS
    }
}

/// Makes a call by a pass's seat.
#[inline(always)]
fn step<M: Machine>(
    limit: &Limit<M>,
    seat: &mut Seat,
    call: Call,
    tries: u64,
) -> Result<u64, RacesLost>
    requires of { seat.old.table_id ≡ limit.now.table }
    requires live { 0 < seat.old.me.0.weight }
    requires may { MayCall (M.tokens limit.now.machine) (M.next limit.now.machine) call seat.old.me.0.moves }
    ensures seat { (seat.new.table_id ≡ seat.old.table_id) × (seat.new.me.1 ≡ seat.old.me.1) }
    ensures ok { IfOk result (λ w. Called (M.next limit.now.machine) call w seat.old.me.0 seat.new.me.0) }
    ensures err { IfErr result (λ _. LostRaces tries seat.old.me.0 seat.new.me.0) }
{
    let mut word = limit.table.shared.load::<Look>(seat, WORD);
    for _ in 0..tries {
        let next = limit.machine.next(call, word);
        if next == word {
            return Ok(word);
        }
        let found = limit
            .table
            .shared
            .compare_exchange_with::<Try>(seat, WORD, word, next, &call);
        if found == word {
            return Ok(word);
        }
        word = found;
    }
    Err(RacesLost)
}
