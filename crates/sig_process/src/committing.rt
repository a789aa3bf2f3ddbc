//! An event that was planned happens.

ghost use Rattle.std.specs.Prelude.{◌≡◌, ◌+◌, ◌<◌, ◌≤◌, ◌^◌, ◌++◌, ◌∷◌, [], length, map, max, false, IfSome};
ghost use Rattle.std.specs.Prelude.{IsSome, IsSomeAnd, MatchResult, OnOk, OnErr, Some, vec_len, vec_capacity};
ghost use Rattle.sig_inner.specs.Receiving.{is_saved};
ghost use Rattle.sig_model.specs.Finishing.{numbered, finished_exec, finished_handle};
ghost use Rattle.sig_model.specs.Running.{to_itself, to_others, next_of};
ghost use Rattle.sig_process.specs.Committing.{HasRoom, IsCommittable, HasBegun, HasBound, HasHandled, HasTaken};
ghost use Rattle.sig_process.specs.Committing.{gone_on, env_found, queue_after, behind_first, others_behind};
ghost use Rattle.sig_process.specs.Plans.{growing, inbox_by, changed, after_obeying, outgoing_of, post_of, body_of, executed_body};
ghost use Rattle.sig_process.specs.Progressing.{state_of, IsSameButRoom, HasAdvanced};

use crate::changing::{Change, Growing};
use crate::plan::{Binding, Execution, InboxChange, Plan, Posts};
use crate::posting::send_all;
use crate::progress::Progress;
use crate::waiting::{next_signal, pop_next};
use sig_lists::Sequence;
use sig_model::{Did, Event, LAST_STAMP, Outcome};
use sig_patterns::{Pattern, bind_match};
use sig_terms::Pid;
use std::alloc::AllocError;
use std::mem::{self, drop};

impl Progress {
    /// Makes room for all that an event changes, with so many signals to be sent.
    fn make_room(&mut self, posts: usize, grows: Growing) -> Result<(), AllocError>
        ensures same { IsSameButRoom self.old self.new }
        ensures counts { self.new.counts ≡ self.old.counts }
        ensures room { OnOk result (HasRoom posts grows self.new) }
        ensures handled { OnOk result (0 < self.new.handled.spare) }
    {
        self.own.room(posts)?;
        self.outbox.room(posts)?;
        self.handled.room()?;
        self.tables.room(grows)
    }

    /// Makes all room, and notes the event. Where memory is refused all but the room is as before.
    pub(crate) fn begin(
        &mut self,
        event: Event,
        posts: usize,
        grows: Growing,
    ) -> Result<(), AllocError>
        ensures { MatchResult result (λ _. HasBegun posts grows self.old self.new event) (λ _. IsSameButRoom self.old self.new) }
    {
        if let Err(fault) = self.make_room(posts, grows) {
            drop(event);
            return Err(fault);
        }
        self.events.add(event)
    }

    /// Changes what is left, with this stamp, and sends. There is room for it.
    #[tactic(auto, using(crate::proofs::RoomLemmas::room_obeyed))]
    pub(crate) fn go_on(
        &mut self,
        pid: Pid,
        stamp: u64,
        obeyed: Option<Pid>,
        change: Change,
        posts: Posts,
    )
        requires room { HasRoom (length (outgoing_of posts)) (growing change) self.old }
        requires committable { IsCommittable (outgoing_of posts) self.old }
        ensures state { state_of self.new ≡ gone_on (changed (after_obeying (state_of self.old) obeyed) change) stamp
            self.old.counts.next_numbers (map post_of (outgoing_of posts)) }
        ensures env { self.new.tables.env ≡ self.old.tables.env }
        ensures counts { self.new.counts ≡ record self.old.counts { stamp = stamp; next_numbers = self.new.counts.next_numbers } }
        ensures queue { self.new.tables.inner.queue ≡ queue_after self.old.tables.inner.queue change }
        ensures owner { self.new.tables.inner.queue.owner ≡ self.old.tables.inner.queue.owner }
        ensures events { self.new.events ≡ self.old.events }
        ensures handled { self.new.handled ≡ self.old.handled }
        ensures own { self.new.own.items ≡ self.old.own.items
            ++ to_itself pid.0 (numbered pid.0 stamp self.old.counts.next_numbers (map post_of (outgoing_of posts))) }
        ensures taken_in { self.new.taken_in ≡ self.old.taken_in }
        ensures outbox { self.new.outbox.items ≡ self.old.outbox.items
            ++ to_others pid.0 (numbered pid.0 stamp self.old.counts.next_numbers (map post_of (outgoing_of posts))) }
    {
        // The link of an exit signal ends first: a process that ends doesn't tell the peer that told it.
        self.obey(obeyed);
        self.change(change);
        self.counts.stamp = stamp;
        send_all(
            pid,
            stamp,
            posts,
            &mut self.counts.next_numbers,
            &mut self.own,
            &mut self.outbox,
        );
    }

    /// Makes all room, for one more event in this list too.
    fn make_all_room(
        &mut self,
        events: &mut Vec<Event>,
        posts: usize,
        grows: Growing,
    ) -> Result<(), AllocError>
        ensures same { IsSameButRoom self.old self.new }
        ensures counts { self.new.counts ≡ self.old.counts }
        ensures room { OnOk result (HasRoom posts grows self.new) }
        ensures items { events.new.items ≡ events.old.items }
        ensures one { OnOk result (vec_len events.new < vec_capacity events.new) }
    {
        events.reserve(1)?;
        self.make_room(posts, grows)
    }

    /// Makes all room, binds the variable of an instruction, and notes its event. Where memory is
    /// refused all but the room is as before: a binding is the last that can be refused.
    fn begin_exec(
        &mut self,
        outcome: Outcome,
        binding: Binding,
        posts: usize,
        grows: Growing,
    ) -> Result<(), AllocError>
        requires stamp { self.old.counts.stamp < LAST_STAMP }
        requires serials { self.old.counts.next_serial < 2 ^ 63 }
        ensures { MatchResult result (λ _. HasBound posts grows binding self.old self.new outcome) (λ _. IsSameButRoom self.old self.new) }
    {
        let mut events = mem::replace(&mut self.events, Sequence::new(self.alloc)).into_vec();
        let begun = self.begin_into(&mut events, outcome, binding, posts, grows);
        self.events = Sequence::from_vec(events);
        begun
    }

    /// The same, with the event noted in a list beside the process. A list of this kind makes room
    /// ahead, so that the event is noted last.
    fn begin_into(
        &mut self,
        events: &mut Vec<Event>,
        outcome: Outcome,
        binding: Binding,
        posts: usize,
        grows: Growing,
    ) -> Result<(), AllocError>
        requires stamp { self.old.counts.stamp < LAST_STAMP }
        requires serials { self.old.counts.next_serial < 2 ^ 63 }
        ensures { MatchResult result
            (λ _. HasBound posts grows binding (record self.old { events = events.old.items })
            (record self.new { events = events.new.items }) outcome)
            (λ _. IsSameButRoom self.old self.new × (events.new.items ≡ events.old.items)) }
    {
        if let Err(fault) = self.make_all_room(events, posts, grows) {
            drop(outcome);
            drop(binding);
            return Err(fault);
        }
        if let Err(fault) = self.bind(binding) {
            drop(outcome);
            return Err(fault);
        }
        events.push_reserved(Event {
            stamp: self.counts.stamp + 1,
            did: Did::Exec {
                place: self.counts.place,
            },
            outcome,
        });
        Ok(())
    }

    /// Makes the last change of an execution, which goes on at this place. Nothing is left of a scan.
    fn end_exec(&mut self, inbox: InboxChange, place: u32)
        requires { self.old.counts.executed + 1 < 2 ^ 32 }
        ensures inbox { self.new.tables.inner.queue.inbox
            ≡ inbox_by self.old.tables.inner.queue.owner self.old.tables.inner.queue.inbox inbox }
        ensures owner { self.new.tables.inner.queue.owner ≡ self.old.tables.inner.queue.owner }
        ensures unsaved { is_saved self.new.tables.inner.queue.last ≡ false }
        ensures rest { self.new ≡ record self.old {
          tables = record self.old.tables { inner = self.new.tables.inner };
          counts = record self.old.counts { place = place; executed = self.old.counts.executed + 1 };
        } }
    {
        self.change_inbox(inbox);
        self.tables.inner.forget();
        self.counts.place = place;
        self.counts.executed += 1;
    }

    /// The plan of an instruction happens, or for want of memory nothing does.
    pub(crate) fn commit_exec(&mut self, pid: Pid, execution: Execution) -> Result<(), AllocError>
        requires committable { IsCommittable (outgoing_of execution.plan.posts) self.old }
        requires turns { self.old.counts.executed + 1 < 2 ^ 32 }
        requires serials { self.old.counts.next_serial < 2 ^ 63 }
        requires owner { self.old.tables.inner.queue.owner ≡ self.old.tables.watch.watch.owner }
        ensures event { MatchResult result
            (λ _. HasAdvanced pid.0 self.old self.new
            (finished_exec pid.0 (state_of self.old) (executed_body (state_of self.old) execution)))
            (λ _. IsSameButRoom self.old self.new) }
        ensures unsaved { OnOk result (is_saved self.new.tables.inner.queue.last ≡ false) }
    {
        let Execution {
            binding,
            inbox,
            place,
            plan,
        } = execution;
        let stamp = self.counts.stamp + 1;
        let grows = plan.change.growing();
        match self.begin_exec(plan.outcome, binding, plan.posts.len(), grows) {
            Ok(()) => {
                self.go_on(pid, stamp, plan.obeyed, plan.change, plan.posts);
                self.end_exec(inbox, place);
                Ok(())
            }
            Err(fault) => {
                drop(plan.change);
                drop(plan.posts);
                Err(fault)
            }
        }
    }

    /// What the handling of the next signal did is told by its event.
    pub(crate) fn handling_event(&self, outcome: Outcome) -> Event
        requires due { IsSomeAnd (next_of self.now.own.items self.now.taken_in.items) (λ x. x.stamp < LAST_STAMP) }
        requires stamp { self.now.counts.stamp < LAST_STAMP }
        ensures { IfSome (next_of self.now.own.items self.now.taken_in.items) (λ x. result ≡ record {
          stamp = max self.now.counts.stamp x.stamp + 1;
          did = Did.From x.from x.number;
          outcome = outcome;
        }) }
    {
        match next_signal(&self.own, &self.taken_in) {
            None => unreachable!(),
            Some(signal) => Event {
                stamp: self.counts.stamp.max(signal.stamp) + 1,
                did: Did::From {
                    from: signal.from,
                    number: signal.number,
                },
                outcome,
            },
        }
    }

    /// The next signal waits no more, and is the last of those that were handled.
    fn move_next(&mut self)
        requires room { 0 < self.old.handled.spare }
        ensures handled { IfSome (next_of self.old.own.items self.old.taken_in.items)
            (λ x. self.new.handled.items ≡ self.old.handled.items ++ x ∷ []) }
        ensures own { self.new.own.items ≡ behind_first self.old.own.items }
        ensures taken_in { self.new.taken_in.items ≡ others_behind self.old.own.items self.old.taken_in.items }
        ensures own_room { self.old.own.spare ≤ self.new.own.spare }
        ensures others { self.new ≡ record self.old { handled = self.new.handled; own = self.new.own; taken_in = self.new.taken_in } }
    {
        match pop_next(&mut self.own, &mut self.taken_in) {
            None => {}
            Some(signal) => {
                self.handled.add(&signal);
                drop(signal);
            }
        }
    }

    /// The plan of the next signal's handling happens, or for want of memory nothing does.
    pub(crate) fn commit_handle(&mut self, pid: Pid, plan: Plan) -> Result<(), AllocError>
        requires committable { IsCommittable (outgoing_of plan.posts) self.old }
        requires due { IsSomeAnd (next_of self.old.own.items self.old.taken_in.items) (λ x. x.stamp < LAST_STAMP) }
        ensures event { MatchResult result
            (λ _. IfSome (next_of self.old.own.items self.old.taken_in.items) (λ x.
            HasHandled pid.0 self.old self.new x (finished_handle pid.0 (state_of self.old) x (body_of (state_of self.old) plan))))
            (λ _. IsSameButRoom self.old self.new) }
        ensures end { OnOk result (self.new.tables.end ≡ (changed (after_obeying (state_of self.old) plan.obeyed) plan.change).tables.end) }
        ensures steady { OnOk result ((self.new.tables.env ≡ self.old.tables.env) × (self.new.counts.place ≡ self.old.counts.place)) }
        ensures queue { OnOk result (self.new.tables.inner.queue ≡ queue_after self.old.tables.inner.queue plan.change) }
    {
        let event = self.handling_event(plan.outcome);
        let stamp = event.stamp;
        if let Err(fault) = self.begin(event, plan.posts.len(), plan.change.growing()) {
            drop(plan.change);
            drop(plan.posts);
            return Err(fault);
        }
        self.move_next();
        self.go_on(pid, stamp, plan.obeyed, plan.change, plan.posts);
        Ok(())
    }

    /// The message of the last scan is taken and told with the number of its clause, the variables of
    /// the pattern are bound to its parts, and the process goes on at a place; or for want of memory
    /// nothing of this happens.
    pub(crate) fn commit_take(
        &mut self,
        place: u32,
        clause: u32,
        looked: u64,
        pattern: &Pattern,
    ) -> Result<(), AllocError>
        requires stamp { self.old.counts.stamp < LAST_STAMP }
        requires turns { self.old.counts.executed + 1 < 2 ^ 32 }
        requires found { IsSome (env_found pattern.now self.old) }
        ensures { MatchResult result (λ _. HasTaken place clause looked self.old self.new pattern.now) (λ _. self.new ≡ self.old) }
    {
        let mut events = mem::replace(&mut self.events, Sequence::new(self.alloc)).into_vec();
        let taken = self.take_into(&mut events, place, clause, looked, pattern);
        self.events = Sequence::from_vec(events);
        taken
    }

    /// The same, with the event told in a list beside the process. A list of this kind makes room
    /// ahead, so that the message is moved last.
    fn take_into(
        &mut self,
        events: &mut Vec<Event>,
        place: u32,
        clause: u32,
        looked: u64,
        pattern: &Pattern,
    ) -> Result<(), AllocError>
        requires stamp { self.old.counts.stamp < LAST_STAMP }
        requires turns { self.old.counts.executed + 1 < 2 ^ 32 }
        requires found { IsSome (env_found pattern.now self.old) }
        ensures { MatchResult result
            (λ _. HasTaken place clause looked (record self.old { events = events.old.items })
            (record self.new { events = events.new.items }) pattern.now)
            (λ _. (self.new ≡ self.old) × (events.new.items ≡ events.old.items)) }
    {
        events.reserve(1)?;
        self.bind_found(pattern)?;
        let stamp = self.counts.stamp + 1;
        let did = Did::Exec {
            place: self.counts.place,
        };
        let message = self.tables.inner.take();
        let outcome = Outcome::Took {
            clause,
            looked,
            message,
        };
        events.push_reserved(Event {
            stamp,
            did,
            outcome,
        });
        self.counts.place = place;
        self.counts.stamp = stamp;
        self.counts.executed += 1;
        Ok(())
    }

    /// Binds the variables of the pattern to the parts of the message of the last scan, or none.
    fn bind_found(&mut self, pattern: &Pattern) -> Result<(), AllocError>
        requires { IsSome (env_found pattern.now self.old) }
        ensures env { OnOk result (env_found pattern.now self.old ≡ Some self.new.tables.env) }
        ensures rest { self.new ≡ record self.old { tables = record self.old.tables { env = self.new.tables.env } } }
        ensures err { OnErr result (self.new ≡ self.old) }
    {
        match self.tables.inner.found() {
            None => unreachable!(),
            Some(message) => bind_match(self.alloc, pattern, &mut self.tables.env, message),
        }
    }
}
