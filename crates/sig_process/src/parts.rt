ghost use Rattle.std.specs.Prelude.{◌≡◌, ◌+◌, ◌<◌, [], ◌||◌, length, drop};
ghost use Rattle.std.specs.List.{list_any};
ghost use Rattle.sig_model.specs.Keeping.{IsKeeping};
ghost use Rattle.sig_model.specs.PrintedState.{is_late_signal, is_late, state_of};
ghost use Rattle.sig_process.specs.PartsOf.{IsPartsOf};

use crate::process::Process;
use sig_inner::Inner;
use sig_kinds::Signals;
use sig_model::{Events, LAST_STAMP, State};
use sig_program::{Instrs, Labels};
use sig_terms::{Name, Pid, Term};

/// What a record tells of a process.
#[derive(Drop)]
pub struct Parts {
    /// The process.
    pub pid: Pid,
    /// Its name in the script.
    pub name: Name,
    /// Its events, in their order.
    pub events: Events,
    /// The messages that no receive has taken, each with its arrival number, the oldest first.
    pub left: Inner,
    /// The signals to itself that it has not handled, the oldest first.
    pub own: Signals,
    /// The signals of others that it has not handled, the oldest first.
    pub taken_in: Signals,
    /// How it stands.
    pub state: State,
    /// The labels of its part of the script.
    pub labels: Labels,
    /// What its part of the script has it do.
    pub instrs: Instrs,
}

fn is_late_at(signals: &Signals, at: usize) -> bool
    requires { at < length signals.now.items }
    ensures { (result || list_any is_late_signal (drop (at + 1) signals.now.items)) ≡ list_any is_late_signal (drop at signals.now.items) }
{
    match signals.get(at) {
        Some(signal) => LAST_STAMP <= signal.stamp,
        None => unreachable!(),
    }
}

fn any_late(signals: &Signals) -> bool
    ensures { result ≡ list_any is_late_signal signals.now.items }
{
    for at in 0..signals.len() {
        if is_late_at(signals, at) {
            return true;
        }
    }
    false
}

fn state_of(end: Option<Term>, cut: bool) -> State
    ensures { result ≡ state_of end cut }
{
    match end {
        Some(reason) => State::Ended { reason },
        None => { if cut { State::Cut } else { State::Waiting } }
    }
}

impl Process {
    /// Whether a signal waits for it whose stamp is at least 2^62.
    pub(crate) fn has_late(&self) -> bool
        ensures { result ≡ is_late self.now.running }
    {
        any_late(&self.progress.own) || any_late(&self.progress.taken_in)
    }

    /// The process's part of a record, and the labels and instructions of its part of the script. The process kept
    /// what every running process keeps.
    ///
    /// Asks that nothing is left of what it has sent to others: its outbox is empty, as
    /// [`Process::take_outbox`] leaves it.
    pub fn into_parts(self) -> Parts
        requires { self.running.outbox ≡ [] }
        ensures parts { IsPartsOf self.running result }
        ensures keeps { IsKeeping self.running }
    {
        let cut = self.is_cut() || self.has_late();
        let progress = self.progress;
        let proc = self.proc;
        let (mut left, end) = progress.tables.into_left();
        left.forget();
        Parts {
            pid: self.pid,
            name: proc.name,
            events: progress.events,
            left,
            own: progress.own,
            taken_in: progress.taken_in,
            state: state_of(end, cut),
            labels: proc.labels,
            instrs: proc.instrs,
        }
    }
}
