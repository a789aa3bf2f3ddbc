ghost use Rattle.std.specs.Prelude.{◌≡◌, IfOk, None, Some};
ghost use Rattle.sig_kinds.specs.LinkRules.{on_link, on_unlink, on_ack};
ghost use Rattle.sig_kinds.specs.WatchRules.{mode_of, by_mode, on_monitor, on_demonitor, on_down};
ghost use Rattle.sig_kinds.specs.declared.alias_answer.AliasAnswer.TheVariants as alias_answer;
ghost use Rattle.sig_model.specs.ProcessState.{rewatched};
ghost use Rattle.sig_model.specs.Bodies.{appending, dropping};
ghost use Rattle.sig_model.specs.ExitRule.{exit_message, exit_rule, plain_exit, linked_exit};
ghost use Rattle.sig_model.specs.Handling.{linking_up, unlinking_from, acknowledging, through_alias, watching, unwatching};
ghost use Rattle.sig_model.specs.Handling.{down_message, told_down, live_body, answering_noproc, ended_body, handling};
ghost use Rattle.sig_process.specs.KeptMessage.{message_of, alias_of, through_plan};
ghost use Rattle.sig_process.specs.Plans.{after_obeying, body_of};
ghost use Rattle.sig_process.specs.Planning.{noproc_answer};
ghost use Rattle.sig_process.specs.Progressing.{state_of};

use crate::changing::{Change, LinkChange, WatchChange};
use crate::copying::with_copy;
use crate::plan::{Plan, Posts};
use crate::planning::{demonitor_posts, one_post};
use crate::progress::Progress;
use sig_kinds::{AliasMode, Kind, Signal};
use sig_lists::Sequence;
use sig_model::Outcome;
use sig_terms::{Pid, Ref, Term};
use std::alloc::{AllocError, Global};

/// The message of an exit signal that is trapped.
fn exit_message(alloc: Global, sender: Pid, reason: &Term) -> Result<Term, AllocError>
    ensures { IfOk result (λ message. message ≡ exit_message sender.0 reason.now) }
{
    let exit = Term::plain_atom(alloc, b"EXIT")?;
    let reason = reason.copy(alloc)?;
    let parts = vec![in alloc; exit, Term::Pid(sender), reason]?;
    Ok(Term::Tuple(Sequence::from_vec(parts)))
}

/// The message of the end of a process that is monitored.
fn down_message(
    alloc: Global,
    reference: Ref,
    sender: Pid,
    reason: &Term,
) -> Result<Term, AllocError>
    ensures { IfOk result (λ message. message ≡ down_message reference sender.0 reason.now) }
{
    let down = Term::plain_atom(alloc, b"DOWN")?;
    let process = Term::plain_atom(alloc, b"process")?;
    let reason = reason.copy(alloc)?;
    let parts = vec![in alloc;
        down,
        Term::Ref(reference),
        process,
        Term::Pid(sender),
        reason,
    ]?;
    Ok(Term::Tuple(Sequence::from_vec(parts)))
}

impl Progress {
    /// The message comes to the end of the list.
    fn appending(&self, obeyed: Option<Pid>, message: Term) -> Result<Plan, AllocError>
        ensures { IfOk result (λ plan. appending (after_obeying (state_of self.now) obeyed) message ≡ body_of (state_of self.now) plan) }
    {
        let (message, told) = with_copy(self.alloc, message)?;
        Ok(Plan {
            obeyed,
            change: Change::Append { message },
            outcome: Outcome::Kept { message: told },
            posts: Posts::Nothing,
        })
    }

    /// The signal has no effect.
    fn dropping(&self, obeyed: Option<Pid>) -> Plan
        ensures { dropping (after_obeying (state_of self.now) obeyed) ≡ body_of (state_of self.now) result }
    {
        Plan {
            obeyed,
            change: Change::Nothing,
            outcome: Outcome::Dropped,
            posts: Posts::Nothing,
        }
    }

    /// A link signal sets up the link, where there is none and no acknowledgement is awaited.
    fn plan_link_up(&self, sender: Pid) -> Plan
        ensures { linking_up (state_of self.now) (on_link self.now.tables.links.links sender.0) ≡ body_of (state_of self.now) result }
    {
        let links = &self.tables.links;
        let outcome = if links.awaited(sender).is_some() || links.active(sender) {
            Outcome::Dropped
        } else {
            Outcome::Linked
        };
        self.silent(Change::Links(LinkChange::LinkUp { peer: sender }), outcome)
    }

    /// An unlink signal ends the link, and gets its id back.
    fn plan_unlink_by(&self, sender: Pid, id: u64) -> Plan
        ensures { unlinking_from (state_of self.now) sender.0 id (on_unlink self.now.tables.links.links sender.0)
            ≡ body_of (state_of self.now) result }
    {
        let posts = one_post(sender, Kind::UnlinkAck { id });
        let change = Change::Links(LinkChange::UnlinkBy { peer: sender });
        Plan::sending(change, Outcome::Unlinked, posts)
    }

    /// An acknowledgement counts where its id is the awaited one.
    fn plan_acknowledge(&self, sender: Pid, id: u64) -> Plan
        ensures { acknowledging (state_of self.now) (on_ack self.now.tables.links.links sender.0 id) ≡ body_of (state_of self.now) result }
    {
        let outcome = if self.tables.links.awaited(sender) == Some(id) {
            Outcome::Acked
        } else {
            Outcome::Dropped
        };
        self.silent(
            Change::Links(LinkChange::Acknowledge { peer: sender, id }),
            outcome,
        )
    }

    /// The exit rule. (Erlang Reference Manual, Processes, Receiving Exit Signals.)
    fn plan_exit_rule(
        &self,
        pid: Pid,
        obeyed: Option<Pid>,
        sender: Pid,
        reason: &Term,
    ) -> Result<Plan, AllocError>
        ensures { IfOk result (λ plan. exit_rule pid.0 (after_obeying (state_of self.now) obeyed) sender.0 reason.now
            ≡ body_of (state_of self.now) plan) }
    {
        if self.traps {
            let message = exit_message(self.alloc, sender, reason)?;
            return self.appending(obeyed, message);
        }
        if reason.is_atom(b"normal") && sender != pid {
            return Ok(self.dropping(obeyed));
        }
        let reason = reason.copy(self.alloc)?;
        self.ending(obeyed, reason)
    }

    /// An exit signal of no link. The reason `kill` is obeyed whether exits are trapped or not.
    fn plan_plain_exit(&self, pid: Pid, sender: Pid, reason: &Term) -> Result<Plan, AllocError>
        ensures { IfOk result (λ plan. plain_exit pid.0 (state_of self.now) sender.0 reason.now ≡ body_of (state_of self.now) plan) }
    {
        if reason.is_atom(b"kill") {
            let killed = Term::plain_atom(self.alloc, b"killed")?;
            return self.ending(None, killed);
        }
        self.plan_exit_rule(pid, None, sender, reason)
    }

    /// An exit signal of a link. Where the link isn't active, it has no effect.
    fn plan_linked_exit(&self, pid: Pid, sender: Pid, reason: &Term) -> Result<Plan, AllocError>
        ensures { IfOk result (λ plan. linked_exit pid.0 (state_of self.now) sender.0 reason.now ≡ body_of (state_of self.now) plan) }
    {
        if !self.tables.links.active(sender) {
            return Ok(self.dropping(None));
        }
        self.plan_exit_rule(pid, Some(sender), sender, reason)
    }

    /// Who is told that the monitor ends, where the alias of its reference has this mode.
    fn told_by(&self, mode: AliasMode, reference: Ref) -> Option<Pid>
        ensures { (by_mode self.now.tables.watch.watch reference (Some mode)).0 ≡ alias_answer.Kept result }
    {
        if mode == AliasMode::ReplyDemonitor {
            self.tables.watch.told(reference)
        } else {
            None
        }
    }

    /// What a message sends that comes through an alias of this mode: it may end the monitor too.
    #[tactic(auto, using(crate::proofs::PlanLemmas::through_kept))]
    pub(crate) fn alias_posts(&self, mode: AliasMode, reference: Ref) -> Posts
        requires { mode_of self.now.tables.watch.watch reference ≡ Some mode }
        ensures { (t : Term) → through_alias (state_of self.now) reference t
            (by_mode self.now.tables.watch.watch reference (Some mode)) ≡ body_of (state_of self.now) (through_plan reference t result) }
    {
        let told = self.told_by(mode, reference);
        demonitor_posts(reference, told)
    }

    /// A monitor signal: the process bears the monitor.
    fn plan_watched(&self, sender: Pid, reference: Ref) -> Plan
        ensures { watching (state_of self.now) (on_monitor self.now.tables.watch.watch reference sender.0)
            ≡ body_of (state_of self.now) result }
    {
        let change = WatchChange::Watched {
            reference,
            watcher: sender,
        };
        self.silent(Change::Watch(change), Outcome::Watched)
    }

    /// A demonitor signal: the process bears the monitor no more.
    fn plan_unwatched(&self, reference: Ref) -> Plan
        ensures { unwatching (state_of self.now) (on_demonitor self.now.tables.watch.watch reference) ≡ body_of (state_of self.now) result }
    {
        let outcome = if self.tables.watch.bears(reference) {
            Outcome::Unwatched
        } else {
            Outcome::Dropped
        };
        self.silent(Change::Watch(WatchChange::Unwatched { reference }), outcome)
    }

    /// A down signal of a monitor that is held: a message.
    fn plan_held_down(&self, sender: Pid, reference: Ref, reason: &Term) -> Result<Plan, AllocError>
        ensures { IfOk result (λ plan. appending (rewatched (state_of self.now) (on_down self.now.tables.watch.watch reference).1)
            (down_message reference sender.0 reason.now) ≡ body_of (state_of self.now) plan) }
    {
        let message = down_message(self.alloc, reference, sender, reason)?;
        let (message, told) = with_copy(self.alloc, message)?;
        let outcome = Outcome::Kept { message: told };
        Ok(self.silent(Change::ToldDown { reference, message }, outcome))
    }

    /// A down signal: a message, where the monitor is held.
    fn plan_told_down(&self, sender: Pid, reference: Ref, reason: &Term) -> Result<Plan, AllocError>
        ensures { IfOk result (λ plan. told_down (state_of self.now) reference sender.0 reason.now
            (on_down self.now.tables.watch.watch reference) ≡ body_of (state_of self.now) plan) }
    {
        if self.tables.watch.target(reference).is_none() {
            return Ok(self.dropping(None));
        }
        self.plan_held_down(sender, reference, reason)
    }

    /// A signal to a live process, one arm for each cell of the table of handling. A message isn't
    /// planned, nor is one through an alias that is active.
    fn plan_live(&self, pid: Pid, sender: Pid, kind: &Kind) -> Result<Plan, AllocError>
        requires message { message_of kind.now ≡ None }
        requires alias { alias_of self.now.tables.watch.watch kind.now ≡ None }
        ensures { IfOk result (λ plan. live_body pid.0 (state_of self.now) sender.0 kind.now ≡ body_of (state_of self.now) plan) }
    {
        match kind {
            Kind::Message { term: _ } => unreachable!(),
            Kind::AliasMessage {
                reference: _,
                term: _,
            } => Ok(self.dropping(None)),
            Kind::Link => Ok(self.plan_link_up(sender)),
            Kind::Unlink { id } => Ok(self.plan_unlink_by(sender, *id)),
            Kind::UnlinkAck { id } => Ok(self.plan_acknowledge(sender, *id)),
            Kind::Monitor { reference } => Ok(self.plan_watched(sender, *reference)),
            Kind::Demonitor { reference } => Ok(self.plan_unwatched(*reference)),
            Kind::Exit {
                reason,
                linked: true,
            } => self.plan_linked_exit(pid, sender, reason),
            Kind::Exit {
                reason,
                linked: false,
            } => self.plan_plain_exit(pid, sender, reason),
            Kind::Down { reference, reason } => self.plan_told_down(sender, *reference, reason),
        }
    }

    /// A link signal, or the monitor signal of this reference, to a process that has ended.
    fn plan_noproc(&self, sender: Pid, monitor: Option<Ref>) -> Result<Plan, AllocError>
        ensures { IfOk result (λ plan. answering_noproc (state_of self.now) sender.0 (noproc_answer monitor)
            ≡ body_of (state_of self.now) plan) }
    {
        let reason = Term::plain_atom(self.alloc, b"noproc")?;
        let kind = match monitor {
            None => Kind::Exit {
                reason,
                linked: true,
            },
            Some(reference) => Kind::Down { reference, reason },
        };
        let posts = one_post(sender, kind);
        Ok(Plan::sending(Change::Nothing, Outcome::NoProc, posts))
    }

    /// A signal to a process that has ended.
    fn plan_ended(&self, sender: Pid, kind: &Kind) -> Result<Plan, AllocError>
        ensures { IfOk result (λ plan. ended_body (state_of self.now) sender.0 kind.now ≡ body_of (state_of self.now) plan) }
    {
        match kind {
            Kind::Link => self.plan_noproc(sender, None),
            Kind::Monitor { reference } => self.plan_noproc(sender, Some(*reference)),
            _ => Ok(self.dropping(None)),
        }
    }

    /// What the handling of a signal does that is no message to this process, and none through an active
    /// alias, or that comes to a process which has ended.
    #[tactic(auto, unfolding(sig_model::specs::Handling::handling))]
    pub(crate) fn plan_signal(&self, pid: Pid, signal: &Signal) -> Result<Plan, AllocError>
        requires message { (self.now.tables.end ≡ None) → message_of signal.now.kind ≡ None }
        requires alias { (self.now.tables.end ≡ None) → alias_of self.now.tables.watch.watch signal.now.kind ≡ None }
        ensures { IfOk result (λ plan. handling pid.0 (state_of self.now) signal.now ≡ body_of (state_of self.now) plan) }
    {
        if self.tables.end.is_some() {
            self.plan_ended(signal.from, &signal.kind)
        } else {
            self.plan_live(pid, signal.from, &signal.kind)
        }
    }
}
