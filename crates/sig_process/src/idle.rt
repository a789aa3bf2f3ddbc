//! Whether a process has nothing to do.

ghost use Rattle.std.specs.Prelude.{◌≡◌, ◌-◌, ◌≤◌, ◌&&◌, ◌||◌, not, nat_le, length, slice_get, option_copied, true, None};
ghost use Rattle.sig_inner.specs.Receiving.{passed};
ghost use Rattle.sig_model.specs.Executing.{IsWaiting};
ghost use Rattle.sig_model.specs.Running.{can_exec, exec_next};
ghost use Rattle.sig_process.specs.Idling.{is_bare_receive, has_looked, is_seen_idle, IsIdle};
ghost use Rattle.sig_process.specs.Progressing.{state_of};
ghost use Rattle.sig_process.specs.Soundness.{IsSaved};

use crate::process::Process;
use crate::progress::Progress;
use sig_program::{Instr, Proc};

/// Whether it is a receive without `after`.
fn is_bare_receive(instr: Option<&Instr>) -> bool
    ensures { result ≡ is_bare_receive (option_copied instr.entry) }
{
    match instr {
        Some(Instr::Receive(receiving)) => receiving.after.is_none(),
        _ => false,
    }
}

impl Progress {
    /// Whether the next instruction is a receive without `after` that has looked at all messages.
    fn has_looked(&self, proc: &Proc) -> bool
        requires place { 1 ≤ self.now.counts.place }
        requires saved { IsSaved (slice_get proc.now.instrs (self.now.counts.place - 1)) self.now }
        ensures answer { result ≡ (nat_le (length self.now.tables.inner.queue.inbox.messages) (passed self.now.tables.inner.queue.last)
            && is_bare_receive (slice_get proc.now.instrs (self.now.counts.place - 1))) }
        ensures waits { result ≡ true → IsWaiting proc.now (state_of self.now) }
    {
        let inner = &self.tables.inner;
        if inner.passed() < inner.len() {
            return false;
        }
        is_bare_receive(proc.instr(self.counts.place))
    }
}

impl Process {
    /// Whether it can't execute, or its receive waits and has looked at all messages.
    fn is_still(&self) -> bool
        ensures answer { result ≡ (not (can_exec self.now.running) || has_looked self.now) }
        ensures still { result ≡ true → exec_next self.now.running ≡ None }
    {
        if !self.can_exec() {
            return true;
        }
        self.progress.has_looked(&self.proc)
    }

    /// Whether the process has nothing to do: no signal waits for it or lies in its outbox, and it
    /// can't execute or waits at a receive. It may answer `false` of a receive that hasn't looked at
    /// all messages yet.
    pub fn is_idle(&self) -> bool
        ensures answer { result ≡ is_seen_idle self.now }
        ensures idle { result ≡ true → IsIdle self.now.running }
    {
        let progress = &self.progress;
        if !progress.own.is_empty() || !progress.taken_in.is_empty() {
            return false;
        }
        progress.outbox.is_empty() && self.is_still()
    }
}
