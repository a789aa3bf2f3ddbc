ghost use Rattle.std.specs.Prelude.{◌≡◌, ◌++◌, true, None, IfOk, OnOk, map};
ghost use Rattle.sig_inner.specs.InnerQueue.{opened as no_queue};
ghost use Rattle.sig_kinds.specs.declared.signal.Kind.TheVariants as kind;
ghost use Rattle.sig_kinds.specs.LinkRules.{active_after};
ghost use Rattle.sig_model.specs.ProcessState.{opening_tables, exits_to, downs_to, told_at_end};
ghost use Rattle.sig_process.specs.Plans.{after_obeying, post_of};
ghost use Rattle.sig_process.specs.Progressing.{tables_of, state_of, HaveRoom};

use crate::changing::Growing;
use crate::history::History;
use crate::next_numbers::NextNumbers;
use crate::plan::Outgoing;
use crate::telling::{Tells, tell_all};
use sig_inner::Inner;
use sig_kinds::{Kind, Signals};
use sig_links::Links;
use sig_model::Events;
use sig_patterns::Env;
use sig_terms::{Pid, Ref, Term};
use sig_watch::Watch;
use std::alloc::{AllocError, Global};
use std::mem::drop;

/// What a process holds.
#[derive(Drop)]
pub(crate) struct Tables {
    /// The values of the variables.
    pub env: Env,
    /// The messages that no receive has taken.
    pub inner: Inner,
    /// The links.
    pub links: Links,
    /// The monitors and the aliases.
    pub watch: Watch,
    /// The reason, where it has ended.
    pub end: Option<Term>,
}

impl Tables {
    /// Those of a process that has done nothing yet: all is empty. The error is want of memory.
    pub(crate) fn open(alloc: Global, pid: Pid) -> Result<Tables, AllocError>
        ensures tables { IfOk result (λ t. tables_of t ≡ opening_tables pid.0) }
        ensures queue { IfOk result (λ t. t.inner.queue ≡ no_queue pid.0) }
    {
        let inner = Inner::open(alloc, pid)?;
        Ok(Tables {
            env: Env::new(alloc),
            inner,
            links: Links::open(alloc, pid),
            watch: Watch::open(alloc, pid),
            end: None,
        })
    }

    /// Makes room in the table that grows, for what one event may add. The error is want of memory.
    /// What the tables hold is as before in both cases.
    pub(crate) fn room(&mut self, grows: Growing) -> Result<(), AllocError>
        ensures same { tables_of self.new ≡ tables_of self.old }
        ensures queue { self.new.inner.queue ≡ self.old.inner.queue }
        ensures room { OnOk result (HaveRoom grows self.new) }
    {
        match grows {
            Growing::Nothing => Ok(()),
            Growing::Messages => self.inner.room(),
            Growing::Links => self.links.room(),
            Growing::Monitors => self.watch.room(),
        }
    }

    /// What is left of them: the messages, and the reason where the process has ended.
    pub(crate) fn into_left(self) -> (Inner, Option<Term>)
        ensures { result ≡ (self.inner, self.end) }
    {
        let Tables {
            env,
            inner,
            links,
            watch,
            end,
        } = self;
        drop(env);
        drop(links);
        drop(watch);
        (inner, end)
    }
}

/// What only counts.
#[derive(Drop)]
pub(crate) struct Counts {
    /// The place of the next instruction, from 1.
    pub place: u32,
    /// How many instructions it has executed.
    pub executed: u32,
    /// The stamp of its last event, 0 before the first.
    pub stamp: u64,
    /// The serial of the next reference that it makes.
    pub next_serial: u64,
    /// The next number for each peer, by pid.
    pub next_numbers: NextNumbers,
}

/// The part of a process that its events change.
#[derive(Drop)]
pub(crate) struct Progress {
    /// Where its memory comes from.
    pub alloc: Global,
    /// What it holds.
    pub tables: Tables,
    /// Whether it traps exits.
    pub traps: bool,
    /// Its place, its stamp, and the numbers that it gives next.
    pub counts: Counts,
    /// Its events, in their order.
    pub events: Events,
    /// The signals that it handled, in their order.
    pub handled: History,
    /// The signals to itself that it has not handled.
    pub own: Signals,
    /// The signals of others that it has not handled.
    pub taken_in: Signals,
    /// The signals that it has sent to others and that were not fetched yet.
    pub outbox: Signals,
}

/// An exit signal of a link, with a copy of the reason.
fn exit_to(alloc: Global, peer: Pid, reason: &Term) -> Result<Outgoing, AllocError>
    ensures { IfOk result (λ exit. exit ≡ record { to = peer; kind = Kind.Exit reason.now true }) }
{
    let reason = reason.copy(alloc)?;
    let kind = Kind::Exit {
        reason,
        linked: true,
    };
    Ok(Outgoing { to: peer, kind })
}

/// A down to the watcher of each monitor that is borne.
impl Tells for Watch {
    type Listed = (Ref, Pid);

    ghost post = { λ monitor reason. record { to = monitor.1.0; kind = kind.Down monitor.0 reason } };

    fn post(alloc: Global, monitor: (Ref, Pid), reason: &Term) -> Result<Outgoing, AllocError> {
        let (reference, watcher) = monitor;
        let reason = reason.copy(alloc)?;
        Ok(Outgoing {
            to: watcher,
            kind: Kind::Down { reference, reason },
        })
    }
}

// What is told of each table at the end of the process.
impl Progress {
    /// An exit signal to the peer of each active link, by ascending pid. The link of an exit signal
    /// that is obeyed is active no more.
    fn exits(&self, obeyed: Option<Pid>, reason: &Term) -> Result<Vec<Outgoing>, AllocError>
        ensures { IfOk result (λ posts. map post_of posts.items
            ≡ exits_to (active_after (after_obeying (state_of self.now) obeyed).tables.links None) reason.now) }
    {
        let mut exits = Vec::new(self.alloc);
        let mut after = None;
        while let Some(peer) = self.tables.links.next_active(after) {
            if obeyed != Some(peer) {
                let exit = exit_to(self.alloc, peer, reason)?;
                exits.push(exit)?;
            }
            after = Some(peer);
        }
        Ok(exits)
    }

    /// Behind these signals, a down to each process that monitors this one, in the order of their
    /// monitors' arrival.
    #[tactic(auto, using(crate::proofs::ExitLemmas::told_of_each))]
    fn downs(&self, before: Vec<Outgoing>, reason: &Term) -> Result<Vec<Outgoing>, AllocError>
        ensures { IfOk result (λ posts. map post_of posts.items
            ≡ map post_of before.items ++ downs_to self.now.tables.watch.watch.borne reason.now) }
    {
        let borne = self.tables.watch.all_borne(self.alloc)?;
        tell_all::<Watch>(self.alloc, before, borne, reason)
    }

    /// What is told of all tables: the peers of the active links first, and then those who monitor
    /// the process. The error is want of memory.
    pub(crate) fn told_at_end(
        &self,
        obeyed: Option<Pid>,
        reason: &Term,
    ) -> Result<Vec<Outgoing>, AllocError>
        ensures { IfOk result (λ posts. map post_of posts.items
            ≡ told_at_end (after_obeying (state_of self.now) obeyed).tables reason.now) }
    {
        let exits = self.exits(obeyed, reason)?;
        self.downs(exits, reason)
    }
}
