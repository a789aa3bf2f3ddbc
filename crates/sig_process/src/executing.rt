ghost use Rattle.std.specs.Prelude.{◌≡◌, ◌+◌, ◌-◌, ◌≤◌, slice_get, false, option_copied, MatchResult};
ghost use Rattle.sig_inner.specs.Receiving.{passed};
ghost use Rattle.sig_process.specs.Executions.{IsExecDue, HasExecuted, HasGone, IsSameButRoomAndPlace};
ghost use Rattle.sig_process.specs.Planning.{is_receive};
ghost use Rattle.sig_process.specs.Progressing.{state_of, IsSameButRoom};
ghost use Rattle.sig_process.specs.Soundness.{IsSaved};
ghost use Rattle.sig_process.specs.Tests.{tests_of};

use crate::progress::Progress;
use sig_base::Steps;
use sig_program::{Instr, Proc};
use sig_terms::Pid;
use std::alloc::AllocError;
use std::sync::ledger::Ledger;

/// How the execution of an instruction went.
#[derive(Clone, Copy, PartialEq, Eq)]
pub enum Exec {
    /// It was executed.
    Stepped,
    /// It is a receive without `after`, and no message matches.
    Waiting,
}

impl Progress {
    /// Executes an instruction that is no receive.
    fn perform(&mut self, pid: Pid, proc: &Proc, instr: Option<&Instr>) -> Result<(), AllocError>
        requires due { IsExecDue proc.now self.old }
        requires instr { option_copied instr ≡ slice_get proc.now.instrs (self.old.counts.place - 1) }
        requires other { is_receive (option_copied instr) ≡ false }
        ensures { MatchResult result (λ _. HasExecuted pid.0 proc.now self.old self.new) (λ _. IsSameButRoom self.old self.new) }
    {
        // By `?` the execution would be copied twice more.
        match self.plan_instr(proc, instr) {
            Ok(plan) => self.commit_exec(pid, plan),
            Err(fault) => Err(fault),
        }
    }

    /// Executes the next instruction.
    pub(crate) fn exec<L: Ledger>(
        &mut self,
        pid: Pid,
        proc: &Proc,
        steps: &mut Steps<L>,
    ) -> Result<Exec, AllocError>
        requires due { IsExecDue proc.now self.old }
        ensures gone { MatchResult result (HasGone pid.0 proc.now self.old self.new) (λ _. IsSameButRoomAndPlace self.old self.new) }
        ensures saved { IsSaved (slice_get proc.now.instrs (self.new.counts.place - 1)) self.new }
        ensures ticks { steps.new ≤ steps.old + tests_of (state_of self.old) (passed self.old.tables.inner.queue.last)
            (slice_get proc.now.instrs (self.old.counts.place - 1)) }
    {
        match proc.instr(self.counts.place) {
            Some(Instr::Receive(receiving)) => self.receive(pid, proc, receiving, steps),
            other => {
                self.perform(pid, proc, other)?;
                Ok(Exec::Stepped)
            }
        }
    }
}
