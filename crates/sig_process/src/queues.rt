//! The signals that come to a process, and those that leave it.

ghost use Rattle.std.specs.Prelude.{◌≡◌, ◌++◌, [], ◌∷◌, length, All, IfSome, MatchOption, MatchResult, slice_index};
ghost use Rattle.sig_model.specs.Accounts.{Continues};
ghost use Rattle.sig_model.specs.Keeping.{IsArriving, IsLeaving};
ghost use Rattle.sig_process.specs.Arrivals.{IsArrival};
ghost use Rattle.sig_process.specs.SentTo.{AreFirstOutside};

use crate::process::Process;
use sig_kinds::{Push, Signal, Signals};
use sig_terms::Pid;
use std::alloc::AllocError;
use std::mem;

impl Process {
    /// How many signals to itself it has not handled.
    pub fn own_count(&self) -> usize
        ensures { result ≡ length self.now.running.own }
    {
        self.progress.own.len()
    }

    /// How many signals of others it has not handled.
    pub fn taken_in_count(&self) -> usize
        ensures { result ≡ length self.now.running.taken_in }
    {
        self.progress.taken_in.len()
    }

    /// How many signals it has sent to others that were not fetched yet.
    pub fn outbox_count(&self) -> usize
        ensures { result ≡ length self.now.running.outbox }
    {
        self.progress.outbox.len()
    }

    /// The number that the next signal to this process will have; 0 where there is no such process.
    pub fn next_number(&self, to: Pid) -> u64
        ensures { result ≡ slice_index self.now.running.state.counts.next_numbers to.0 }
    {
        self.progress.counts.next_numbers.get(to)
    }

    /// Two pids. The next signal to each process below the first, and to each from the second on, has
    /// the number 1.
    pub fn sent_between(&self) -> (usize, usize)
        ensures { AreFirstOutside result.0 result.1 self.now.running.state.counts.next_numbers }
    {
        self.progress.counts.next_numbers.sent_between()
    }

    /// A signal of another process joins those that wait for this one. Where there is no memory for
    /// it, the process is as before, and the signal comes back.
    ///
    /// Asks that the signal is of another process, goes to this one, names only processes below
    /// [`Process::count`], and has a stamp of at most 2^62.
    pub fn arrive(&mut self, signal: Signal) -> Push
        requires { IsArriving self.old.running.pid self.old.running.count signal }
        ensures { IsArrival self.old self.new signal result }
    {
        self.progress.taken_in.push(signal)
    }

    /// Signals of other processes join those that wait for this one. The error is want of memory;
    /// then the process and the signals are as before.
    ///
    /// Asks that each signal is of another process, goes to this one, names only processes below
    /// [`Process::count`], and has a stamp of at most 2^62; and that the numbers of each sender's
    /// signals count on from those that came before, or from 1.
    pub fn take_in(&mut self, signals: &mut Signals) -> Result<(), AllocError>
        requires arriving { All (IsArriving self.old.running.pid self.old.running.count) signals.old.items }
        requires continues { Continues self.old.running signals.old.items }
        ensures { MatchResult result
            (λ _. (self.new ≡ record self.old {
              running = record self.old.running { taken_in = self.old.running.taken_in ++ signals.old.items };
            })
            × (signals.new.items ≡ []))
            (λ _. (self.new ≡ self.old) × (signals.new.items ≡ signals.old.items)) }
    {
        self.progress.taken_in.append(signals)
    }

    /// Takes the oldest of the signals that it has sent to others, which may arrive at its
    /// receiver. `None` exactly where there is none.
    pub fn next_out(&mut self) -> Option<Signal>
        ensures next { MatchOption result
            ((self.old.running.outbox ≡ []) × (self.new ≡ self.old))
            (λ first. self.old ≡ record self.new { running = record self.new.running { outbox = first ∷ self.new.running.outbox } }) }
        ensures leaving { IfSome result (IsLeaving self.old.running.pid self.old.running.state.counts.stamp) }
        ensures arriving { IfSome result (λ first. IsArriving first.to.0 self.old.running.count first) }
    {
        self.progress.outbox.pop_front()
    }

    /// Moves the signals that it has sent to others into the empty list, the oldest first. It takes no
    /// memory: the outbox has that list's room from then on. Each of the signals may arrive at its
    /// receiver.
    ///
    /// Asks that `into` is empty.
    pub fn take_outbox(&mut self, into: &mut Signals)
        requires { into.old.items ≡ [] }
        ensures signals { into.new.items ≡ self.old.running.outbox }
        ensures rest { self.new ≡ record self.old { running = record self.old.running { outbox = [] } } }
        ensures arriving { All (λ signal. IsArriving signal.to.0 self.old.running.count signal) into.new.items }
    {
        mem::swap(&mut self.progress.outbox, into);
    }
}
