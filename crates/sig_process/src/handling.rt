ghost use Rattle.std.specs.Prelude.{◌≡◌, ◌<◌, IfOk, IfSome, IsSomeAnd, MatchResult, None, Some};
ghost use Rattle.sig_model.specs.Handling.{handling};
ghost use Rattle.sig_model.specs.Running.{next_of};
ghost use Rattle.sig_process.specs.Executions.{IsHandleDue, IsPlacedWithin, HasHandledNext};
ghost use Rattle.sig_process.specs.KeptMessage.{kept_message, next_alias};
ghost use Rattle.sig_process.specs.Plans.{body_of};
ghost use Rattle.sig_process.specs.Progressing.{state_of, IsSameButRoom};

use crate::plan::Plan;
use crate::progress::Progress;
use crate::waiting::next_signal;
use sig_kinds::AliasMode;
use sig_model::LAST_STAMP;
use sig_program::Proc;
use sig_terms::{Pid, Ref};
use std::alloc::AllocError;

impl Progress {
    /// What the handling of the next signal does, where it isn't a message that is kept.
    fn plan_next(&self, pid: Pid) -> Result<Plan, AllocError>
        requires due { IsSomeAnd (next_of self.now.own.items self.now.taken_in.items) (λ x. x.stamp < LAST_STAMP) }
        requires planned { kept_message self.now ≡ None }
        requires direct { next_alias self.now ≡ None }
        ensures { IfSome (next_of self.now.own.items self.now.taken_in.items)
            (λ x. IfOk result (λ plan. handling pid.0 (state_of self.now) x ≡ body_of (state_of self.now) plan)) }
    {
        match next_signal(&self.own, &self.taken_in) {
            None => unreachable!(),
            Some(signal) => self.plan_signal(pid, signal),
        }
    }

    /// Handles the next signal by a plan.
    fn handle_planned(&mut self, pid: Pid, proc: &Proc) -> Result<(), AllocError>
        requires due { IsHandleDue proc.now self.old }
        requires placed { IsPlacedWithin self.old.tables.inner.queue }
        requires planned { kept_message self.old ≡ None }
        requires direct { next_alias self.old ≡ None }
        ensures { MatchResult result (λ _. HasHandledNext pid.0 self.old self.new) (λ _. IsSameButRoom self.old self.new) }
    {
        let plan = self.plan_next(pid)?;
        self.commit_handle(pid, plan)
    }

    /// Handles the next signal, a message through an alias of this mode that is active.
    fn handle_through(
        &mut self,
        pid: Pid,
        proc: &Proc,
        reference: Ref,
        mode: AliasMode,
    ) -> Result<(), AllocError>
        requires due { IsHandleDue proc.now self.old }
        requires placed { IsPlacedWithin self.old.tables.inner.queue }
        requires alias { next_alias self.old ≡ Some (reference, mode) }
        ensures { MatchResult result (λ _. HasHandledNext pid.0 self.old self.new) (λ _. IsSameButRoom self.old self.new) }
    {
        let told = self.copy_alias_message()?;
        let posts = self.alias_posts(mode, reference);
        self.commit_alias_message(pid, reference, posts, told)
    }

    /// Handles the next signal, which is no message to this process.
    fn handle_other(&mut self, pid: Pid, proc: &Proc) -> Result<(), AllocError>
        requires due { IsHandleDue proc.now self.old }
        requires placed { IsPlacedWithin self.old.tables.inner.queue }
        requires planned { kept_message self.old ≡ None }
        ensures { MatchResult result (λ _. HasHandledNext pid.0 self.old self.new) (λ _. IsSameButRoom self.old self.new) }
    {
        match self.next_alias() {
            None => self.handle_planned(pid, proc),
            Some((reference, mode)) => self.handle_through(pid, proc, reference, mode),
        }
    }

    /// Handles the next signal. A message to a process that lives, or through an active alias of it, is
    /// moved; any other signal is planned first.
    pub(crate) fn handle(&mut self, pid: Pid, proc: &Proc) -> Result<(), AllocError>
        requires due { IsHandleDue proc.now self.old }
        ensures { MatchResult result (λ _. HasHandledNext pid.0 self.old self.new) (λ _. IsSameButRoom self.old self.new) }
    {
        prove!(self.tables.inner.passed() <= self.tables.inner.len());
        prove!(self.tables.inner.next_arrival() <= u64::MAX);
        let Some(message) = self.kept_message() else {
            return self.handle_other(pid, proc);
        };
        let told = message.copy(self.alloc)?;
        self.commit_message(told)
    }
}
