ghost use Rattle.std.specs.Prelude.{◌≡◌, ◌<◌, ◌≤◌, [], ◌∷◌, ◌++◌, if◌then◌else◌, IfOk, IfSome, vec_len, vec_capacity};
ghost use Rattle.sched_plan.specs.Datum.{list, items_of};
ghost use Rattle.sched_plan.specs.Outputs.{goes_on};
ghost use Rattle.sched_step.specs.Listed.{items_next};

use crate::walks::Walk;
use sched_plan::{Val, copy_items};
use sched_time::{Decision, NoMemory};
use std::alloc::Global;
use std::marker::Model;
use std::mem;

/// The outputs that a node keeps: what they are, and what the step under way makes of them. They are never copied but
/// for an output that shows them.
#[derive(Drop)]
pub(crate) struct Listed {
    items: Vec<Val>,
    /// The step under way begins from none.
    anew: bool,
    /// What the step under way adds; there is room for it.
    more: Option<Val>,
}

impl Model for Listed {
    ghost use Rattle.std.specs.Prelude.{◌<◌, IfSome, vec_len, vec_capacity};
    ghost use Rattle.sched_step.specs.Listed.{ListPhases, coded_list_phases, items_next};

    ghost Value = { ListPhases };

    ghost coded = { coded_list_phases };

    ghost view = { λ l. record { present = l.items.items; next = items_next l.anew l.items.items l.more } };

    ghost invariant = { λ l. IfSome l.more (λ _. vec_len l.items < vec_capacity l.items) };
}

impl Listed {
    /// No outputs. It takes no memory.
    pub(crate) fn new(alloc: Global) -> Listed
        ensures { result.present ≡ [] }
    {
        Listed {
            items: Vec::new(alloc),
            anew: false,
            more: None,
        }
    }

    /// The same outputs. Fails only with `NoMemory`.
    pub(crate) fn copy(&self, alloc: Global) -> Result<Listed, NoMemory>
        ensures { IfOk result (λ listed. listed.present ≡ self.now.present) }
    {
        Ok(Listed {
            items: copy_items(alloc, &self.items)?,
            anew: false,
            more: None,
        })
    }

    /// The outputs as a value. Fails only with `NoMemory`.
    pub(crate) fn view(&self, alloc: Global) -> Result<Val, NoMemory>
        ensures { IfOk result (λ v. v ≡ list (items_of self.now.present)) }
    {
        Ok(Val::list(copy_items(alloc, &self.items)?))
    }

    /// The step under way makes them none.
    pub(crate) fn restart(&mut self)
        ensures present { self.new.present ≡ self.old.present }
        ensures next { self.new.next ≡ [] }
    {
        self.anew = true;
        self.more = None;
    }

    /// The step under way is taken. It takes no memory.
    #[inline(never)]
    pub(crate) fn commit(&mut self)
        ensures { self.new.present ≡ self.old.next }
    {
        if self.anew {
            self.items.clear();
            self.anew = false;
        }
        if let Some(item) = self.more.take() {
            self.items.push_reserved(item);
        }
    }

    /// Notes the output where the plan under the node goes on, and puts the outputs so far in its place. A fresh step
    /// begins from none.
    #[inline(never)]
    pub(crate) fn step(
        &mut self,
        walk: &Walk<'_>,
        output: &mut Val,
        decision: Decision,
    ) -> Result<(), NoMemory>
        ensures present { self.new.present ≡ self.old.present }
        ensures next { let before = (if walk.now.fresh then [] else self.old.present) in
            IfOk result (λ _. self.new.next ≡ (if goes_on decision then before ++ output.old ∷ [] else before)) }
        ensures output { let before = (if walk.now.fresh then [] else self.old.present) in
            IfOk result (λ _. output.new ≡ list (items_of before)) }
    {
        let shown = if walk.fresh {
            Vec::new(walk.alloc)
        } else {
            copy_items(walk.alloc, &self.items)?
        };
        let last = mem::replace(output, Val::list(shown));
        let more = match decision {
            Decision::Go(_) => Some(last),
            Decision::Done => None,
        };
        self.note(walk.fresh, more)
    }

    // The step under way begins from none where it is anew, and adds this output.
    fn note(&mut self, anew: bool, more: Option<Val>) -> Result<(), NoMemory>
        ensures present { self.new.present ≡ self.old.present }
        ensures next { IfOk result (λ _. self.new.next ≡ items_next anew self.old.present more) }
    {
        self.more = None;
        if more.is_some() {
            self.items.reserve(1)?;
        }
        self.anew = anew;
        self.more = more;
        Ok(())
    }
}
