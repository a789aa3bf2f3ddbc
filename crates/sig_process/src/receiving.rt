ghost use Rattle.std.specs.Prelude.{ℕ, ◌≡◌, ◌-◌, ◌+◌, ◌*◌, ◌<◌, ◌≤◌, ◌^◌, length, slice_get, Some, None, false, MatchResult, OnOk, OnErr};
ghost use Rattle.sig_inner.specs.Receiving.{answer_with, after_receive, looked_with, is_saved, passed, HasPassed, IsScanWithin, IsAsked};
ghost use Rattle.sig_patterns.specs.Inbox.{start_of};
ghost use Rattle.sig_patterns.specs.Scanning.{Hit};
ghost use Rattle.sig_program.specs.Scripts.{AreMarked};
ghost use Rattle.sig_model.specs.Bodies.{going_on, place_after};
ghost use Rattle.sig_model.specs.Bounds.{IsBounded};
ghost use Rattle.sig_model.specs.Executing.{taking};
ghost use Rattle.sig_model.specs.Finishing.{finished_exec};
ghost use Rattle.sig_process.specs.Executions.{IsExecDue, IsHit, HasGone, IsSameButRoomAndPlace};
ghost use Rattle.sig_process.specs.Progressing.{state_of, IsSameButRoom, HasAdvanced};
ghost use Rattle.sig_process.specs.Soundness.{IsSaved};
ghost use Rattle.sig_process.specs.Tests.{tests_of};

use crate::changing::Change;
use crate::executing::Exec;
use crate::plan::Plan;
use crate::progress::Progress;
use sig_base::Steps;
use sig_inner::{Inner, Scan};
use sig_model::{LAST_STAMP, Outcome};
use sig_patterns::{Clauses, Env};
use sig_program::{Instr, Proc, Receiving};
use sig_terms::{Pid, Ref};
use std::alloc::AllocError;
use std::sync::ledger::Ledger;

/// Scans the messages: behind the saved place, where there is one.
#[tactic(auto, using(crate::proofs::SavedPlace::unsaved_none))]
fn scan_messages<L: Ledger>(
    inner: &mut Inner,
    clauses: &Clauses,
    env: &Env,
    using: Option<Ref>,
    steps: &mut Steps<L>,
) -> Scan
    requires few { length clauses.now < 2 ^ 32 }
    requires asked { IsAsked inner.old.queue «using» clauses.now env.now }
    requires passed { HasPassed inner.old.queue (start_of inner.old.queue.inbox «using») clauses.now env.now }
    ensures answer { result ≡ answer_with inner.old.queue «using» clauses.now env.now }
    ensures left { inner.new.queue ≡ after_receive inner.old.queue «using» clauses.now env.now }
    ensures within { IsScanWithin (length clauses.now) (length inner.old.queue.inbox.messages - start_of inner.old.queue.inbox «using»)
        result }
    ensures passed { HasPassed inner.new.queue (start_of inner.new.queue.inbox «using») clauses.now env.now }
    ensures ticks { steps.new ≤ steps.old + length clauses.now
        * (looked_with inner.old.queue «using» clauses.now env.now
        - (passed inner.old.queue.last - start_of inner.old.queue.inbox «using»)) }
{
    if inner.is_saved() {
        inner.resume(clauses, env, using, steps)
    } else {
        inner.receive(clauses, env, using, steps)
    }
}

impl Progress {
    /// Takes the message of the last scan, with the first clause that takes it, and goes on where
    /// the clause says.
    fn take_found(
        &mut self,
        pid: Pid,
        proc: &Proc,
        clauses: &Clauses,
        clause: u32,
        looked: u64,
    ) -> Result<(), AllocError>
        requires stamp { self.old.counts.stamp < LAST_STAMP }
        requires turns { self.old.counts.executed + 1 < 2 ^ 32 }
        requires inside { self.old.counts.place ≤ length proc.now.instrs }
        requires found { (start : ℕ) × (h : Hit) × IsHit clauses.now self.old clause looked start h }
        ensures taken { (start : ℕ) (h : Hit) → IsHit clauses.now self.old clause looked start h →
            OnOk result (HasAdvanced pid.0 self.old self.new
            (finished_exec pid.0 (state_of self.old) (taking proc.now (state_of self.old) start (start + h.at) h))) }
        ensures err { OnErr result (self.new ≡ self.old) }
        ensures unsaved { OnOk result (is_saved self.new.tables.inner.queue.last ≡ false) }
    {
        let Some(chosen) = clauses.get(clause as usize - 1) else {
            unreachable!()
        };
        let place = self.place_after(proc, chosen.target);
        self.commit_take(place, clause, looked, &chosen.pattern)
    }

    /// Goes on with the `after` part of a receive.
    fn go_by(
        &mut self,
        pid: Pid,
        proc: &Proc,
        target: Option<u32>,
        looked: u64,
    ) -> Result<(), AllocError>
        requires bounds { IsBounded proc.now (state_of self.old) }
        requires stamp { self.old.counts.stamp < LAST_STAMP }
        requires turns { self.old.counts.executed + 1 < 2 ^ 32 }
        requires inside { self.old.counts.place ≤ length proc.now.instrs }
        requires owner { self.old.tables.inner.queue.owner ≡ self.old.tables.watch.watch.owner }
        ensures gone { MatchResult result
            (λ _. HasAdvanced pid.0 self.old self.new (finished_exec pid.0 (state_of self.old)
            (going_on (state_of self.old) (place_after proc.now.labels target self.old.counts.place) (Outcome.After looked))))
            (λ _. IsSameButRoom self.old self.new) }
        ensures unsaved { OnOk result (is_saved self.new.tables.inner.queue.last ≡ false) }
    {
        let plan = self.silent(Change::Nothing, Outcome::After { looked });
        self.commit_exec(pid, self.going(proc, target, plan))
    }

    /// Executes a receive. Where it waits, the place behind all messages is saved.
    pub(crate) fn receive<L: Ledger>(
        &mut self,
        pid: Pid,
        proc: &Proc,
        receiving: &Receiving,
        steps: &mut Steps<L>,
    ) -> Result<Exec, AllocError>
        requires due { IsExecDue proc.now self.old }
        requires few { length receiving.now.clauses < 2 ^ 32 }
        requires marked { AreMarked receiving.now.«using» receiving.now.clauses }
        requires here { slice_get proc.now.instrs (self.old.counts.place - 1) ≡ Some (Instr.Receive receiving.now) }
        ensures gone { MatchResult result (HasGone pid.0 proc.now self.old self.new) (λ _. IsSameButRoomAndPlace self.old self.new) }
        ensures saved { IsSaved (slice_get proc.now.instrs (self.new.counts.place - 1)) self.new }
        ensures ticks { steps.new ≤ steps.old
            + tests_of (state_of self.old) (passed self.old.tables.inner.queue.last) (Some (Instr.Receive receiving.now)) }
    {
        prove!(self.tables.inner.passed() <= self.tables.inner.len());
        let using = self.using_ref(&receiving.using);
        match scan_messages(
            &mut self.tables.inner,
            &receiving.clauses,
            &self.tables.env,
            using,
            steps,
        ) {
            Scan::Found { clause, looked } => {
                self.take_found(pid, proc, &receiving.clauses, clause, looked)?;
                Ok(Exec::Stepped)
            }
            Scan::None { looked } => match &receiving.after {
                None => Ok(Exec::Waiting),
                Some(after) => {
                    self.go_by(pid, proc, after.target, looked)?;
                    Ok(Exec::Stepped)
                }
            },
        }
    }
}
