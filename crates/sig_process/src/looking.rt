//! What a process is about to do, and what it holds.

ghost use Rattle.std.specs.Prelude.{◌≡◌, ◌≢◌, ◌-◌, ◌↔◌, IsTrue, Some, is_some, length, slice_get, option_copied};
ghost use Rattle.sig_terms.specs.declared.reference.Ref.{Ref};
ghost use Rattle.sig_kinds.specs.declared.alias_mode.AliasMode.TheVariants.{ReplyDemonitor};
ghost use Rattle.sig_kinds.specs.WatchRules.{mode_of};
ghost use Rattle.sig_model.specs.Running.{next_of};

use crate::process::Process;
use crate::waiting::next_signal;
use sig_kinds::Signal;
use sig_program::Instr;

impl Process {
    /// Whether it has ended. (Erlang Reference Manual, Processes, Process Termination.)
    pub fn is_ended(&self) -> bool
        ensures { result ≡ is_some self.now.running.state.tables.end }
    {
        self.progress.tables.end.is_some()
    }

    /// Whether no message through an alias makes it send something: none of its active aliases is of
    /// the mode whose first message ends the monitor too. It takes time linear in their count. (Module
    /// `erlang`, `monitor/3`, `reply_demonitor`.)
    pub fn is_mute(&self) -> bool
        ensures { IsTrue result ↔ ((r : Ref) → mode_of self.now.running.state.tables.watch r ≢ Some ReplyDemonitor) }
    {
        self.progress.tables.watch.is_mute()
    }

    /// The instruction at its place. `None` exactly where the place is past the last one.
    pub fn next_instr(&self) -> Option<&Instr>
        ensures { option_copied result ≡ slice_get self.now.running.proc.instrs (self.now.running.state.counts.place - 1) }
    {
        self.proc.instr(self.progress.counts.place)
    }

    /// The signal that it handles next: its oldest own one, or where there is none the oldest of
    /// another. (Erlang Reference Manual, Processes, Receiving Signals.)
    pub fn next_signal(&self) -> Option<&Signal>
        ensures { option_copied result ≡ next_of self.now.running.own self.now.running.taken_in }
    {
        next_signal(&self.progress.own, &self.progress.taken_in)
    }

    /// How many messages there are that no receive has taken.
    pub fn message_count(&self) -> usize
        ensures { result ≡ length self.now.running.state.tables.inbox.messages }
    {
        self.progress.tables.inner.len()
    }
}
