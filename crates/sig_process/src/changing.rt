//! What an event changes, once all that needs memory is there.

ghost use Rattle.std.specs.Prelude.{◌≡◌, ◌<◌, ◌≤◌, ◌+◌, ◌^◌, MatchResult};
ghost use Rattle.std.specs.FinMap.{insert};
ghost use Rattle.sig_inner.specs.InnerQueue.{appended, emptied};
ghost use Rattle.sig_kinds.specs.WatchRules.{on_alias_message, on_down};
ghost use Rattle.sig_model.specs.ProcessState.{ended_tables};
ghost use Rattle.sig_process.specs.Committing.{KeepsRest, queue_after};
ghost use Rattle.sig_process.specs.Plans.{bound_by, serial_by, inbox_by, growing, links_growing};
ghost use Rattle.sig_process.specs.Plans.{watch_growing, links_by, watch_by, changed, after_obeying};
ghost use Rattle.sig_process.specs.Progressing.{state_of, tables_of, HaveRoom};

use crate::plan::{Binding, InboxChange};
use crate::progress::{Progress, Tables};
use sig_inner::Append;
use sig_kinds::AliasMode;
use sig_patterns::Var;
use sig_terms::{Pid, Ref, Term};
use std::alloc::AllocError;

/// What an event changes in the links.
#[derive(Drop)]
pub(crate) enum LinkChange {
    /// By the rule for the call `link`.
    Link { peer: Pid },
    /// By the rule for the call `unlink`.
    Unlink { peer: Pid },
    /// By the rule for a link signal.
    LinkUp { peer: Pid },
    /// By the rule for an unlink signal.
    UnlinkBy { peer: Pid },
    /// By the rule for an acknowledgement with this id.
    Acknowledge { peer: Pid, id: u64 },
}

/// What an event changes in the monitors and aliases.
#[derive(Drop)]
pub(crate) enum WatchChange {
    /// By the rule for the call `monitor`.
    Monitor {
        reference: Ref,
        target: Pid,
        mode: Option<AliasMode>,
    },
    /// By the rule for the call `demonitor`.
    Demonitor {
        reference: Ref,
    },
    /// By the rule for the call `alias`.
    Alias {
        reference: Ref,
        reply: bool,
    },
    /// By the rule for the call `unalias`.
    Unalias {
        reference: Ref,
    },
    /// By the rule for a monitor signal of this process.
    Watched {
        reference: Ref,
        watcher: Pid,
    },
    /// By the rule for a demonitor signal.
    Unwatched {
        reference: Ref,
    },
}

/// What an event changes in the tables of a process.
#[derive(Drop)]
pub(crate) enum Change {
    /// Nothing.
    Nothing,
    /// The links.
    Links(LinkChange),
    /// The monitors and aliases.
    Watch(WatchChange),
    /// The process traps exits, or traps them no more.
    Trap { on: bool },
    /// The message comes to the end of the list.
    Append { message: Term },
    /// By the rule for a message through an alias that is active; the message comes to the end of the
    /// list.
    ThroughAlias { reference: Ref, message: Term },
    /// By the rule for a down signal of a monitor that is held; the message comes to the end of the
    /// list.
    ToldDown { reference: Ref, message: Term },
    /// The process ends with the reason.
    End { reason: Term },
}

/// Which of a process's tables a change may make larger.
#[derive(Clone, Copy)]
pub(crate) enum Growing {
    /// None of them.
    Nothing,
    /// The messages.
    Messages,
    /// The links.
    Links,
    /// The monitors and aliases.
    Monitors,
}

impl LinkChange {
    /// Which table it may make larger.
    fn growing(&self) -> Growing
        ensures { result ≡ links_growing self.now }
    {
        match self {
            LinkChange::UnlinkBy { peer: _ } | LinkChange::Acknowledge { peer: _, id: _ } => {
                Growing::Nothing
            }
            _ => Growing::Links,
        }
    }
}

impl WatchChange {
    /// Which table it may make larger.
    fn growing(&self) -> Growing
        ensures { result ≡ watch_growing self.now }
    {
        match self {
            WatchChange::Demonitor { reference: _ }
            | WatchChange::Unalias { reference: _ }
            | WatchChange::Unwatched { reference: _ } => Growing::Nothing,
            _ => Growing::Monitors,
        }
    }
}

impl Change {
    /// Which table it may make larger.
    pub(crate) fn growing(&self) -> Growing
        ensures { result ≡ growing self.now }
    {
        match self {
            Change::Nothing | Change::Trap { on: _ } | Change::End { reason: _ } =>
                Growing::Nothing,
            Change::Links(change) => change.growing(),
            Change::Watch(change) => change.growing(),
            _ => Growing::Messages,
        }
    }
}

impl Tables {
    /// Makes a change in the links for which there is room.
    fn change_links(&mut self, change: LinkChange)
        requires room { HaveRoom (links_growing change) self.old }
        requires ids { self.old.links.links.next_id < 2 ^ 63 }
        ensures links { self.new.links.links ≡ links_by self.old.links.links change }
        ensures rest { self.new ≡ record self.old { links = self.new.links } }
    {
        match change {
            LinkChange::Link { peer } => {
                self.links.link(peer).unwrap();
            }
            LinkChange::Unlink { peer } => {
                self.links.unlink(peer).unwrap();
            }
            LinkChange::LinkUp { peer } => {
                self.links.on_link(peer).unwrap();
            }
            LinkChange::UnlinkBy { peer } => {
                self.links.on_unlink(peer);
            }
            LinkChange::Acknowledge { peer, id } => {
                self.links.on_ack(peer, id);
            }
        }
    }

    /// Makes a change in the monitors and aliases for which there is room.
    fn change_watch(&mut self, change: WatchChange)
        requires { HaveRoom (watch_growing change) self.old }
        ensures watch { self.new.watch.watch ≡ watch_by self.old.watch.watch change }
        ensures rest { self.new ≡ record self.old { watch = self.new.watch } }
    {
        match change {
            WatchChange::Monitor {
                reference,
                target,
                mode,
            } => {
                self.watch.monitor(reference, target, mode).unwrap();
            }
            WatchChange::Demonitor { reference } => {
                self.watch.demonitor(reference);
            }
            WatchChange::Alias { reference, reply } => {
                self.watch.alias(reference, reply).unwrap();
            }
            WatchChange::Unalias { reference } => {
                self.watch.unalias(reference);
            }
            WatchChange::Watched { reference, watcher } => {
                self.watch.on_monitor(reference, watcher).unwrap();
            }
            WatchChange::Unwatched { reference } => {
                self.watch.on_demonitor(reference);
            }
        }
    }

    /// All but the variables is gone, and the reason is kept.
    fn finish(&mut self, reason: Term)
        ensures tables { tables_of self.new ≡ ended_tables (tables_of self.old) reason }
        ensures env { self.new.env ≡ self.old.env }
        ensures queue { self.new.inner.queue ≡ emptied self.old.inner.queue }
    {
        self.links.empty();
        self.watch.empty();
        self.inner.empty();
        self.end = Some(reason);
    }

    /// The message comes to the end of the list, where there is room.
    pub(crate) fn append(&mut self, message: Term)
        requires room { 0 < self.old.inner.spare }
        requires arrivals { self.old.inner.queue.inbox.next_arrival < 2 ^ 63 }
        ensures inner { self.new.inner.queue ≡ appended self.old.inner.queue message }
        ensures rest { self.new ≡ record self.old { inner = self.new.inner } }
    {
        match self.inner.append(message) {
            Append::Added => {}
            Append::Memory { message: _ } => unreachable!(),
        }
    }

    /// The message that came through an alias comes to the end of the list, where there is room.
    fn append_through(&mut self, reference: Ref, message: Term)
        requires room { 0 < self.old.inner.spare }
        requires arrivals { self.old.inner.queue.inbox.next_arrival < 2 ^ 63 }
        ensures watch { self.new.watch.watch ≡ (on_alias_message self.old.watch.watch reference).1 }
        ensures inner { self.new.inner.queue ≡ appended self.old.inner.queue message }
        ensures rest { self.new ≡ record self.old { inner = self.new.inner; watch = self.new.watch } }
    {
        let _ = self.watch.on_alias_message(reference);
        self.append(message);
    }

    /// The message of a down comes to the end of the list, where there is room.
    fn append_down(&mut self, reference: Ref, message: Term)
        requires room { 0 < self.old.inner.spare }
        requires arrivals { self.old.inner.queue.inbox.next_arrival < 2 ^ 63 }
        ensures watch { self.new.watch.watch ≡ (on_down self.old.watch.watch reference).1 }
        ensures inner { self.new.inner.queue ≡ appended self.old.inner.queue message }
        ensures rest { self.new ≡ record self.old { inner = self.new.inner; watch = self.new.watch } }
    {
        self.watch.on_down(reference);
        self.append(message);
    }
}

impl Progress {
    /// The variable gets the new reference, whose serial is used up then.
    fn bind_made(&mut self, var: &Var, reference: Ref) -> Result<(), AllocError>
        requires { self.old.counts.next_serial < 2 ^ 63 }
        ensures { MatchResult result
            (λ _. self.new ≡ record self.old {
              tables = record self.old.tables { env = insert self.old.tables.env var.now.0 (Term.Ref reference) };
              counts = record self.old.counts { next_serial = self.old.counts.next_serial + 1 };
            })
            (λ _. self.new ≡ self.old) }
    {
        self.tables.env.set(var, Term::Ref(reference))?;
        self.counts.next_serial += 1;
        Ok(())
    }

    /// The variable gets the value, where there is one. A map of variables can't make room ahead.
    pub(crate) fn bind(&mut self, binding: Binding) -> Result<(), AllocError>
        requires { self.old.counts.next_serial < 2 ^ 63 }
        ensures { MatchResult result
            (λ _. self.new ≡ record self.old {
              tables = record self.old.tables { env = bound_by self.old.tables.env binding };
              counts = record self.old.counts { next_serial = serial_by self.old.counts.next_serial binding };
            })
            (λ _. self.new ≡ self.old) }
    {
        match binding {
            Binding::Nothing => Ok(()),
            Binding::Value { var, value } => self.tables.env.set(&var, value),
            Binding::Made { var, reference } => self.bind_made(&var, reference),
        }
    }

    /// The link of an exit signal that is obeyed ends.
    pub(crate) fn obey(&mut self, peer: Option<Pid>)
        ensures state { state_of self.new ≡ after_obeying (state_of self.old) peer }
        ensures links { self.old.tables.links.spare ≤ self.new.tables.links.spare }
        ensures ids { self.new.tables.links.links.next_id ≡ self.old.tables.links.links.next_id }
        ensures rest { self.new ≡ record self.old { tables = record self.old.tables { links = self.new.tables.links } } }
    {
        if let Some(peer) = peer {
            self.tables.links.on_exit(peer);
        }
    }

    /// Makes the last change of an execution in the messages and the markers.
    #[tactic(auto, using(crate::proofs::CommitLemmas::bound_so, crate::proofs::CommitLemmas::cleared_so))]
    pub(crate) fn change_inbox(&mut self, change: InboxChange)
        ensures inbox { self.new.tables.inner.queue.inbox
            ≡ inbox_by self.old.tables.inner.queue.owner self.old.tables.inner.queue.inbox change }
        ensures owner { self.new.tables.inner.queue.owner ≡ self.old.tables.inner.queue.owner }
        ensures rest { self.new ≡ record self.old { tables = record self.old.tables { inner = self.new.tables.inner } } }
    {
        let inner = &mut self.tables.inner;
        match change {
            InboxChange::Nothing => {}
            InboxChange::Flush { reference } => {
                inner.flush_down(reference);
            }
            InboxChange::Reserve { serial } => inner.reserve(serial),
            InboxChange::Bind { reference } => {
                inner.bind(reference);
            }
            InboxChange::Clear { reference } => {
                inner.clear(reference);
            }
        }
    }

    /// Makes a change for which there is room.
    pub(crate) fn change(&mut self, change: Change)
        requires room { HaveRoom (growing change) self.old.tables }
        requires arrivals { self.old.tables.inner.queue.inbox.next_arrival < 2 ^ 63 }
        requires ids { self.old.tables.links.links.next_id < 2 ^ 63 }
        ensures state { state_of self.new ≡ changed (state_of self.old) change }
        ensures queue { self.new.tables.inner.queue ≡ queue_after self.old.tables.inner.queue change }
        ensures owner { self.new.tables.inner.queue.owner ≡ self.old.tables.inner.queue.owner }
        ensures rest { KeepsRest self.old self.new }
    {
        match change {
            Change::Nothing => {}
            Change::Links(change) => self.tables.change_links(change),
            Change::Watch(change) => self.tables.change_watch(change),
            Change::Trap { on } => self.traps = on,
            Change::Append { message } => self.tables.append(message),
            Change::ThroughAlias { reference, message } => {
                self.tables.append_through(reference, message)
            }
            Change::ToldDown { reference, message } => self.tables.append_down(reference, message),
            Change::End { reason } => self.tables.finish(reason),
        }
    }
}
