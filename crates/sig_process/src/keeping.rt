//! A message to a process that lives, or through an active alias of it, isn't planned: it is moved from
//! its signal.

ghost use Rattle.std.specs.Prelude.{◌≡◌, ◌<◌, ◌≤◌, ◌^◌, ◌++◌, ◌∷◌, [], option_copied};
ghost use Rattle.std.specs.Prelude.{IfOk, IfSome, IsSome, IsSomeAnd, MatchResult, OnOk, Some, None};
ghost use Rattle.sig_model.specs.Finishing.{finished_handle};
ghost use Rattle.sig_model.specs.Running.{next_of};
ghost use Rattle.sig_process.specs.Committing.{IsCommittable, HasHandled, queue_after, behind_first, others_behind};
ghost use Rattle.sig_process.specs.KeptMessage.{message_of, kept_message, HasMoved, HasKept};
ghost use Rattle.sig_process.specs.KeptMessage.{alias_message_of, next_alias_message, alias_of, next_alias, through_plan};
ghost use Rattle.sig_process.specs.Plans.{changed, after_obeying, outgoing_of, body_of};
ghost use Rattle.sig_process.specs.Progressing.{state_of, IsSameButRoom};

use crate::changing::{Change, Growing};
use crate::plan::Posts;
use crate::progress::Progress;
use crate::waiting::{next_signal, pop_next};
use sig_kinds::{AliasMode, Kind};
use sig_model::{LAST_STAMP, Outcome};
use sig_terms::{Pid, Ref, Term};
use std::alloc::AllocError;
use std::mem::drop;

/// The message of a signal to a process.
fn message_in(kind: Kind) -> Option<Term>
    ensures { result ≡ message_of kind }
{
    match kind {
        Kind::Message { term } => Some(term),
        other => {
            drop(other);
            None
        }
    }
}

/// The message of a signal through an alias.
fn alias_message_in(kind: Kind) -> Option<Term>
    ensures { result ≡ alias_message_of kind }
{
    match kind {
        Kind::AliasMessage { reference: _, term } => Some(term),
        other => {
            drop(other);
            None
        }
    }
}

impl Progress {
    /// The message of the next signal, where it is one to a process and this one lives.
    pub(crate) fn kept_message(&self) -> Option<&Term>
        ensures { option_copied result ≡ kept_message self.now }
    {
        if self.tables.end.is_some() {
            return None;
        }
        match next_signal(&self.own, &self.taken_in) {
            None => None,
            Some(signal) => match &signal.kind {
                Kind::Message { term } => Some(term),
                _ => None,
            },
        }
    }

    /// Makes room for a message and for its signal.
    fn keeping_room(&mut self) -> Result<(), AllocError>
        ensures inner_room { OnOk result (0 < self.new.tables.inner.spare) }
        ensures handled_room { OnOk result (0 < self.new.handled.spare) }
        ensures queue { self.new.tables.inner.queue ≡ self.old.tables.inner.queue }
        ensures handled { self.new.handled.items ≡ self.old.handled.items }
        ensures rest { self.new ≡ record self.old {
          tables = record self.old.tables { inner = self.new.tables.inner };
          handled = self.new.handled;
        } }
    {
        self.handled.room()?;
        self.tables.inner.room()
    }

    /// The next signal waits no more, and is the last of those that were handled; its message comes
    /// to the end of the list.
    fn move_message(&mut self)
        requires handled { 0 < self.old.handled.spare }
        requires inner { 0 < self.old.tables.inner.spare }
        requires arrivals { self.old.tables.inner.queue.inbox.next_arrival < 2 ^ 63 }
        requires message { IsSome (kept_message self.old) }
        ensures { IfSome (kept_message self.old) (λ t. IfSome (next_of self.old.own.items self.old.taken_in.items)
            (λ x. HasMoved self.old self.new x t)) }
    {
        match pop_next(&mut self.own, &mut self.taken_in) {
            None => unreachable!(),
            Some(signal) => {
                self.handled.add(&signal);
                match message_in(signal.kind) {
                    Some(message) => self.tables.append(message),
                    None => unreachable!(),
                }
            }
        }
    }

    /// The message of the next signal comes to the end of the list, and the event tells this copy of
    /// it; or for want of memory nothing happens.
    pub(crate) fn commit_message(&mut self, told: Term) -> Result<(), AllocError>
        requires told { kept_message self.old ≡ Some told }
        requires stamp { self.old.counts.stamp < LAST_STAMP }
        requires due { IsSomeAnd (next_of self.old.own.items self.old.taken_in.items) (λ x. x.stamp < LAST_STAMP) }
        requires arrivals { self.old.tables.inner.queue.inbox.next_arrival < 2 ^ 63 }
        ensures { MatchResult result
            (λ _. IfSome (next_of self.old.own.items self.old.taken_in.items) (λ x. HasKept self.old self.new x told))
            (λ _. IsSameButRoom self.old self.new) }
    {
        self.keeping_room()?;
        let event = self.handling_event(Outcome::Kept { message: told });
        let stamp = event.stamp;
        self.events.add(event)?;
        self.move_message();
        self.counts.stamp = stamp;
        Ok(())
    }
}

// A message through an alias, by whose mode the alias may end then, and the monitor with it.
impl Progress {
    /// The alias that a message comes through, and its mode, where it is active.
    fn alias_of(&self, kind: &Kind) -> Option<(Ref, AliasMode)>
        ensures { result ≡ alias_of self.now.tables.watch.watch kind.now }
    {
        match kind {
            Kind::AliasMessage { reference, term: _ } => {
                let mode = self.tables.watch.alias_mode(*reference)?;
                Some((*reference, mode))
            }
            _ => None,
        }
    }

    /// The alias that the next signal comes through, and its mode, where it is active and this
    /// process lives.
    pub(crate) fn next_alias(&self) -> Option<(Ref, AliasMode)>
        ensures { result ≡ next_alias self.now }
    {
        if self.tables.end.is_some() {
            return None;
        }
        match next_signal(&self.own, &self.taken_in) {
            None => None,
            Some(signal) => self.alias_of(&signal.kind),
        }
    }

    /// A copy of the message of the next signal, which came through an alias.
    pub(crate) fn copy_alias_message(&self) -> Result<Term, AllocError>
        requires { IsSome (next_alias_message self.now) }
        ensures { IfOk result (λ t. next_alias_message self.now ≡ Some t) }
    {
        match next_signal(&self.own, &self.taken_in) {
            None => unreachable!(),
            Some(signal) => match &signal.kind {
                Kind::AliasMessage { reference: _, term } => term.copy(self.alloc),
                _ => unreachable!(),
            },
        }
    }

    /// The next signal, which came through an alias, waits no more, and is the last of those that were
    /// handled. This is its message.
    fn take_alias_message(&mut self) -> Term
        requires room { 0 < self.old.handled.spare }
        requires message { IsSome (next_alias_message self.old) }
        ensures message { next_alias_message self.old ≡ Some result }
        ensures handled { IfSome (next_of self.old.own.items self.old.taken_in.items)
            (λ x. self.new.handled.items ≡ self.old.handled.items ++ x ∷ []) }
        ensures own { self.new.own.items ≡ behind_first self.old.own.items }
        ensures taken_in { self.new.taken_in.items ≡ others_behind self.old.own.items self.old.taken_in.items }
        ensures own_room { self.old.own.spare ≤ self.new.own.spare }
        ensures others { self.new ≡ record self.old { handled = self.new.handled; own = self.new.own; taken_in = self.new.taken_in } }
    {
        match pop_next(&mut self.own, &mut self.taken_in) {
            None => unreachable!(),
            Some(signal) => {
                self.handled.add(&signal);
                match alias_message_in(signal.kind) {
                    Some(message) => message,
                    None => unreachable!(),
                }
            }
        }
    }

    /// The message of the next signal, which came through this active alias, comes to the end of the
    /// list, the alias ends by its mode, and this is sent; the event tells this copy of the message. Or
    /// for want of memory nothing happens.
    pub(crate) fn commit_alias_message(
        &mut self,
        pid: Pid,
        reference: Ref,
        posts: Posts,
        told: Term,
    ) -> Result<(), AllocError>
        requires told { next_alias_message self.old ≡ Some told }
        requires committable { IsCommittable (outgoing_of posts) self.old }
        requires due { IsSomeAnd (next_of self.old.own.items self.old.taken_in.items) (λ x. x.stamp < LAST_STAMP) }
        ensures event { MatchResult result
            (λ _. IfSome (next_of self.old.own.items self.old.taken_in.items) (λ x. HasHandled pid.0 self.old self.new x
            (finished_handle pid.0 (state_of self.old) x (body_of (state_of self.old) (through_plan reference told posts)))))
            (λ _. IsSameButRoom self.old self.new) }
        ensures end { OnOk result (self.new.tables.end ≡ (changed (after_obeying (state_of self.old) None)
            (Change.ThroughAlias reference told)).tables.end) }
        ensures steady { OnOk result ((self.new.tables.env ≡ self.old.tables.env) × (self.new.counts.place ≡ self.old.counts.place)) }
        ensures queue { OnOk result (self.new.tables.inner.queue
            ≡ queue_after self.old.tables.inner.queue (Change.ThroughAlias reference told)) }
    {
        let event = self.handling_event(Outcome::Kept { message: told });
        let stamp = event.stamp;
        if let Err(fault) = self.begin(event, posts.len(), Growing::Messages) {
            drop(posts);
            return Err(fault);
        }
        let message = self.take_alias_message();
        let change = Change::ThroughAlias { reference, message };
        self.go_on(pid, stamp, None, change, posts);
        Ok(())
    }
}
