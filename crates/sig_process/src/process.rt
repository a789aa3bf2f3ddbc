ghost use Rattle.std.specs.Prelude.{ℕ, ◌≡◌, ◌+◌, ◌<◌, ◌≤◌, true, length, IfOk, IfSome, MatchResult, slice_get, replicate};
ghost use Rattle.sig_inner.specs.InnerQueue.{opened as no_queue};
ghost use Rattle.sig_program.specs.Scripts.{Declared, IsProcBelow};
ghost use Rattle.sig_model.specs.ProcessState.{is_cut, opening_tables};
ghost use Rattle.sig_model.specs.Executing.{SkipsNone};
ghost use Rattle.sig_model.specs.Keeping.{IsKeeping};
ghost use Rattle.sig_model.specs.Running.{opened, can_exec, can_handle, next_of, is_early};
ghost use Rattle.sig_process.specs.Progressing.{tables_of, running_of};
ghost use Rattle.sig_process.specs.Steps.{IsExec, IsWholeExec, IsHandled};
ghost use Rattle.sig_process.specs.Tests.{most_tests};

use crate::executing::Exec;
use crate::history::History;
use crate::next_numbers::NextNumbers;
use crate::progress::{Counts, Progress, Tables};
use crate::waiting::next_signal;
use sig_base::Steps;
use sig_kinds::{QueueData, Signals};
use sig_lists::Sequence;
use sig_model::{Events, LAST_STAMP};
use sig_program::{Proc, Script};
use sig_terms::Pid;
use std::alloc::{AllocError, Global};
use std::marker::Model;
use std::mem::drop;
use std::sync::ledger::Ledger;

/// A process: its state, its events, and the signals that wait for it or that it has sent. It keeps
/// what every running process keeps. A call that fails for want of memory leaves it as before, but
/// for the saved place of a receive, so that the same call may be made again. (Erlang Reference
/// Manual, Processes.)
#[derive(Drop)]
pub struct Process {
    pub(crate) pid: Pid,
    /// How many processes the script has.
    pub(crate) count: u32,
    /// How many instructions the process may execute.
    pub(crate) turns: u32,
    /// Its part of the script.
    pub(crate) proc: Proc,
    /// What its events change.
    pub(crate) progress: Progress,
}

impl Model for Process {
    ghost use Rattle.std.specs.Coded.{codes};
    ghost use Rattle.std.specs.FinMap as map;
    ghost use Rattle.sig_terms.specs.contracts.term.Term as term;
    ghost use Rattle.sig_patterns.specs.contracts.expression.Expr as expr;
    ghost use Rattle.sig_patterns.specs.contracts.pattern.Pattern as pattern;
    ghost use Rattle.sig_process.specs.Progressing.{standing_of};
    ghost use Rattle.sig_process.specs.Soundness.{IsSound};
    ghost use Rattle.sig_process.specs.Standing.{Standing};

    ghost Value = { Standing };

    ghost coded = { Prim.hlevel (codes, term.the_row.coded, expr.the_row.coded, pattern.the_row.coded, map.code) };

    ghost view = { λ p. standing_of p.pid.0 p.count p.turns p.proc p.progress };

    ghost invariant = { λ p. IsSound p.pid.0 p.count p.turns p.proc p.progress };
}

/// A process that has done nothing, with these tables and first numbers.
fn before_all(alloc: Global, tables: Tables, next_numbers: NextNumbers) -> Progress
    ensures running { (pid count turns : ℕ) (proc : Declared) → tables_of tables ≡ opening_tables pid
        → next_numbers ≡ replicate count 1 → running_of pid count turns proc result ≡ opened pid count turns proc }
    ensures tables { result.tables ≡ tables }
{
    let counts = Counts {
        place: 1,
        executed: 0,
        stamp: 0,
        next_serial: 1,
        next_numbers,
    };
    Progress {
        alloc,
        tables,
        traps: false,
        counts,
        events: Sequence::new(alloc),
        handled: History::new(alloc),
        own: Signals::new(alloc),
        taken_in: Signals::new(alloc),
        outbox: Signals::new(alloc),
    }
}

/// What a process begins with: place 1, and all else empty.
fn beginning(alloc: Global, pid: Pid, count: u32) -> Result<Progress, AllocError>
    ensures running { IfOk result (λ p. (turns : ℕ) (proc : Declared)
        → running_of pid.0 count turns proc p ≡ opened pid.0 count turns proc) }
    ensures queue { IfOk result (λ p. p.tables.inner.queue ≡ no_queue pid.0) }
{
    let numbers = NextNumbers::first(alloc, count)?;
    let tables = Tables::open(alloc, pid)?;
    Ok(before_all(alloc, tables, numbers))
}

impl Process {
    /// The process of this pid, as the script opens it: at its first instruction, with all else
    /// empty. The error is want of memory.
    ///
    /// Asks that the pid is one of the script's: that it is below [`Script::count`].
    pub fn open(alloc: Global, script: &Script, pid: Pid) -> Result<Process, AllocError>
        requires { pid.0 < length script.now.procs }
        ensures opened { IfOk result (λ p. IfSome (slice_get script.now.procs pid.0) (λ d.
            p.running ≡ opened pid.0 (length script.now.procs) script.now.turns d)) }
        ensures keeps { IfOk result (λ p. IsKeeping p.running) }
        ensures saved { IfOk result (λ p. p.saved ≡ 0) }
    {
        let Some(proc) = script.proc(pid.0) else {
            unreachable!()
        };
        let proc = proc.copy(alloc)?;
        Process::start(alloc, pid, script.count(), script.turns(), proc)
    }

    /// The process of this pid, one of so many, as its part of the script opens it: at its first
    /// instruction, with all else empty.
    pub(crate) fn start(
        alloc: Global,
        pid: Pid,
        count: u32,
        turns: u32,
        proc: Proc,
    ) -> Result<Process, AllocError>
        requires pid { pid.0 < count }
        requires below { IsProcBelow count proc }
        ensures opened { IfOk result (λ p. p.running ≡ opened pid.0 count turns proc) }
        ensures keeps { IfOk result (λ p. IsKeeping p.running) }
        ensures saved { IfOk result (λ p. p.saved ≡ 0) }
    {
        prove!(1 <= proc.count() + 1);
        match beginning(alloc, pid, count) {
            Ok(progress) => Ok(Process {
                pid,
                count,
                turns,
                proc,
                progress,
            }),
            Err(fault) => {
                drop(proc);
                Err(fault)
            }
        }
    }

    /// Its pid.
    pub fn pid(&self) -> Pid
        ensures { result ≡ record { 0 = self.now.running.pid } }
    {
        self.pid
    }

    /// How many processes its script has.
    pub fn count(&self) -> u32
        ensures { result ≡ self.now.running.count }
    {
        self.count
    }

    /// The stamp of its last event, 0 before the first. The process keeps what every running process
    /// keeps.
    pub fn stamp(&self) -> u64
        ensures stamp { result ≡ self.now.running.state.counts.stamp }
        ensures keeps { IsKeeping self.now.running }
    {
        self.progress.counts.stamp
    }

    /// Where it keeps its messages. (Module `erlang`, `process_flag/2`, `message_queue_data`.)
    pub fn queue_data(&self) -> QueueData
        ensures { result ≡ self.now.running.proc.queue_data }
    {
        self.proc.queue_data
    }

    /// The events, in their order.
    pub fn events(&self) -> &Events
        ensures { result.now ≡ self.now.running.events }
    {
        &self.progress.events
    }

    /// Whether the process is cut: it isn't ended and has executed its turns, or its last stamp is
    /// at least 2^62.
    pub fn is_cut(&self) -> bool
        ensures { result ≡ is_cut self.now.running.turns self.now.running.state }
    {
        let counts = &self.progress.counts;
        let is_alive = self.progress.tables.end.is_none();
        (is_alive && self.turns <= counts.executed) || LAST_STAMP <= counts.stamp
    }

    /// Whether an instruction may be executed: the process is neither ended nor cut, and has no
    /// own signal to handle.
    #[tactic(auto, unfolding(sig_model::specs::Running::can_exec))]
    pub fn can_exec(&self) -> bool
        ensures { result ≡ can_exec self.now.running }
    {
        self.progress.tables.end.is_none() && !self.is_cut() && self.own_count() == 0
    }

    /// Executes the next instruction. `Waiting` exactly where it is a receive without `after` and
    /// no message matches; then the process is as before, and the next execution looks only at the
    /// messages that come behind. A receive through a marker looks only at the messages from its mark
    /// on, and where no message before the mark holds the reference, it is the receive that looks at
    /// all of them. A receive makes at most as many tests of a message as it has clauses, for each
    /// message that it looks at. The error is want of memory; then the process is as before, but for
    /// the saved place. (Erlang Reference Manual, Expressions.)
    ///
    /// Asks that the process can execute, as [`Process::can_exec`] tells.
    pub fn exec<L: Ledger>(&mut self, steps: &mut Steps<L>) -> Result<Exec, AllocError>
        requires { can_exec self.old.running ≡ true }
        ensures exec { MatchResult result (IsExec self.old self.new) (λ _. self.new.running ≡ self.old.running) }
        ensures whole { SkipsNone self.old.running.proc self.old.running.state → IfOk result (IsWholeExec self.old self.new) }
        ensures ticks { steps.new ≤ steps.old + most_tests self.old }
    {
        self.progress.exec(self.pid, &self.proc, steps)
    }

    /// Whether the next signal has a stamp below 2^62.
    fn next_is_early(&self) -> bool
        ensures { result ≡ is_early (next_of self.now.running.own self.now.running.taken_in) }
    {
        match next_signal(&self.progress.own, &self.progress.taken_in) {
            None => false,
            Some(signal) => signal.stamp < LAST_STAMP,
        }
    }

    /// Whether the next signal may be handled: the process isn't cut, and its oldest own signal, or
    /// where there is none its oldest signal of another, has a stamp below 2^62.
    #[tactic(auto, unfolding(sig_model::specs::Running::can_handle))]
    pub fn can_handle(&self) -> bool
        ensures { result ≡ can_handle self.now.running }
    {
        !self.is_cut() && self.next_is_early()
    }

    /// Handles the next signal: the oldest own one, or where there is none the oldest of another.
    /// The error is want of memory; then the process is as before. (Erlang Reference Manual,
    /// Processes, Receiving Signals.)
    ///
    /// Asks that the process can handle a signal, as [`Process::can_handle`] tells.
    pub fn handle(&mut self) -> Result<(), AllocError>
        requires { can_handle self.old.running ≡ true }
        ensures { MatchResult result (λ _. IsHandled self.old self.new) (λ _. self.new ≡ self.old) }
    {
        self.progress.handle(self.pid, &self.proc)
    }
}
