//! An effect whose outcomes are written down before.
ghost use Rattle.std.specs.Prelude.{◌≡◌, ◌++◌, ◌<◌, [], length, IsSome, IfSome, ◌↔◌};
ghost use Rattle.futures.specs.Task.{Keeps};
ghost use Rattle.sched_effect.specs.Runs.{ended_by};
ghost use Rattle.sched_effect.specs.Played.{Follows, IsNext};

use crate::effects::Effect;
use crate::ran::{Code, Ran};
use futures::task::{Context, Poll};
use sched_time::NoMemory;
use std::marker::Model;

/// An effect whose runs end at their first poll, as a script says: its outcomes in order, the last one repeated.
#[derive(Drop)]
pub struct Scripted {
    script: Vec<Ran>,
    runs: Vec<Ran>,
}

impl Model for Scripted {
    ghost use Rattle.std.specs.Prelude.{◌<◌, vec_len};
    ghost use Rattle.sched_effect.specs.Played.{Played, Follows};

    ghost Value = { Played };

    ghost view = { λ s. record { script = s.script.items; runs = s.runs.items } };

    ghost invariant = { λ s. (0 < vec_len s.script) × Follows s.script.items s.runs.items };
}

impl Scripted {
    /// An effect that follows the script, or `None` of an empty script.
    pub fn new(script: Vec<Ran>) -> Option<Scripted>
        ensures some { IsSome result ↔ (0 < length script.items) }
        ensures script { IfSome result (λ scripted. scripted.script ≡ script.items) }
        ensures fresh { IfSome result (λ scripted. scripted.runs ≡ []) }
    {
        if script.is_empty() {
            return None;
        }
        let alloc = *script.allocator();
        Some(Scripted {
            script,
            runs: Vec::new(alloc),
        })
    }

    /// The script. The finished runs follow it.
    pub fn script(&self) -> &[Ran]
        ensures script { result.now ≡ self.now.script }
        ensures some { 0 < length self.now.script }
        ensures followed { Follows self.now.script self.now.runs }
    {
        &self.script
    }

    // The outcome of the next run.
    fn next(&self) -> Ran
        ensures { IsNext self.now.script self.now.runs result }
    {
        let _ = &self.runs;
        self.script[self.runs.len().min(self.script.len() - 1)]
    }
}

impl Effect for Scripted {
    type Item = Code;

    type Fault = Code;

    ghost finished = { λ s. s.runs };

    ghost fresh = { λ s. s.runs ≡ [] };

    ghost unused = { λ s new. new };

    /// Ends the next run of the script.
    fn poll_run(&mut self, _cx: &mut Context<'_>) -> Poll<Result<Result<Code, Code>, NoMemory>>
        ensures runs { self.new.runs ≡ self.old.runs ++ ended_by (λ c. c.0) (λ c. c.0) result }
        ensures script { self.new.script ≡ self.old.script }
        ensures kept { Keeps _cx.old _cx.new }
    {
        let ran = self.next();
        if self.runs.push(ran).is_err() {
            return Poll::Ready(Err(NoMemory));
        }
        Poll::Ready(Ok(match ran {
            Ran::Won(code) => Ok(Code(code)),
            Ran::Lost(code) => Err(Code(code)),
        }))
    }

    fn runs(&self) -> &[Ran] {
        &self.runs
    }
}
