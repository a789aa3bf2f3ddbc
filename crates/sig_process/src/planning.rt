ghost use Rattle.std.specs.Prelude.{◌≡◌, ◌+◌, ◌-◌, ◌≤◌, [], ◌∷◌, length, map, ◌==◌};
ghost use Rattle.std.specs.Prelude.{if◌then◌else◌, slice_get, option_copied, Some, false, IfOk};
ghost use Rattle.sig_model.specs.ProcessState.{ProcessState};
ghost use Rattle.sig_model.specs.Bodies.{place_after, going_on, at_next};
ghost use Rattle.sig_model.specs.Executing.{sending, setting, linking, unlinking, sending_exit, trapping, new_ref, making_ref};
ghost use Rattle.sig_model.specs.Executing.{monitoring, aliasing, demonitor_posts, demonitoring, unaliasing, reserving};
ghost use Rattle.sig_model.specs.Executing.{marked_by, binding, clearing, with_pid, with_target, from_mark, exec_body};
ghost use Rattle.sig_program.specs.Parts.{exprs_of};
ghost use Rattle.sig_process.specs.Planning.{IsPlanned, IsRow, is_receive};
ghost use Rattle.sig_process.specs.Plans.{changed, outgoing_of, post_of, body_of, executed_body};
ghost use Rattle.sig_process.specs.Progressing.{state_of};

use crate::changing::{Change, LinkChange, WatchChange};
use crate::copying::with_copy;
use crate::plan::{Binding, Execution, InboxChange, Outgoing, Plan, Posts};
use crate::progress::Progress;
use crate::values::ValueFault;
use sig_kinds::{AliasMode, Kind};
use sig_model::{Outcome, Target};
use sig_patterns::{Expr, Var};
use sig_program::{Instr, Proc};
use sig_terms::{Pid, Ref, Term};
use std::alloc::AllocError;
use std::mem::drop;

/// One signal that an event sends.
pub(crate) fn one_post(to: Pid, kind: Kind) -> Posts
    ensures { map post_of (outgoing_of result) ≡ record { to = to.0; kind = kind } ∷ [] }
{
    Posts::One(Outgoing { to, kind })
}

/// A demonitor signal, where a process is told.
pub(crate) fn demonitor_posts(reference: Ref, told: Option<Pid>) -> Posts
    ensures { map post_of (outgoing_of result) ≡ demonitor_posts reference told }
{
    match told {
        None => Posts::Nothing,
        Some(target) => one_post(target, Kind::Demonitor { reference }),
    }
}

impl Plan {
    /// A change by which these signals are sent.
    pub(crate) fn sending(change: Change, outcome: Outcome, posts: Posts) -> Plan
        ensures { (s : ProcessState) → body_of s result
            ≡ record { state = changed s change; outcome = outcome; posts = map post_of (outgoing_of posts) } }
    {
        Plan {
            obeyed: None,
            change,
            outcome,
            posts,
        }
    }
}

impl Progress {
    /// A change with nothing sent.
    pub(crate) fn silent(&self, change: Change, outcome: Outcome) -> Plan
        ensures { (s : ProcessState) → body_of s result ≡ record { state = changed s change; outcome = outcome; posts = [] } }
    {
        Plan::sending(change, outcome, Posts::Nothing)
    }

    /// Where the process goes on from the next instruction: at the label of the target, or at the
    /// next place.
    pub(crate) fn place_after(&self, proc: &Proc, target: Option<u32>) -> u32
        requires { self.now.counts.place ≤ length proc.now.instrs }
        ensures { result ≡ place_after proc.now.labels target self.now.counts.place }
    {
        if let Some(label) = target {
            if let Some(place) = proc.place_of(label) {
                return place;
            }
        }
        prove!(self.counts.place <= proc.count());
        self.counts.place + 1
    }

    /// The plan of an instruction that goes on at the label of the target, or at the next place.
    pub(crate) fn going(&self, proc: &Proc, target: Option<u32>, plan: Plan) -> Execution
        requires { self.now.counts.place ≤ length proc.now.instrs }
        ensures { result ≡ record {
          binding = Binding.Nothing;
          inbox = InboxChange.Nothing;
          place = place_after proc.now.labels target self.now.counts.place;
          plan = plan;
        } }
    {
        Execution {
            binding: Binding::Nothing,
            inbox: InboxChange::Nothing,
            place: self.place_after(proc, target),
            plan,
        }
    }

    /// The execution that changes nothing and sends one signal.
    fn posting(&self, proc: &Proc, to: Pid, kind: Kind, outcome: Outcome) -> Execution
        requires { self.now.counts.place ≤ length proc.now.instrs }
        ensures { executed_body (state_of self.now) result
            ≡ record { state = at_next (state_of self.now); outcome = outcome; posts = record { to = to.0; kind = kind } ∷ [] } }
    {
        let plan = Plan::sending(Change::Nothing, outcome, one_post(to, kind));
        self.going(proc, None, plan)
    }

    /// A message to a process, or through an alias to the process that made it.
    fn plan_send(&self, proc: &Proc, to: Target, message: Term) -> Result<Execution, AllocError>
        requires { self.now.counts.place ≤ length proc.now.instrs }
        ensures { IfOk result (λ x. sending (state_of self.now) message to ≡ executed_body (state_of self.now) x) }
    {
        let (term, message) = with_copy(self.alloc, message)?;
        match to {
            Target::Process(pid) => {
                let kind = Kind::Message { term };
                let to = Term::Pid(pid);
                Ok(self.posting(proc, pid, kind, Outcome::Sent { to, message }))
            }
            Target::Alias(reference) => {
                let kind = Kind::AliasMessage { reference, term };
                let to = Term::Ref(reference);
                Ok(self.posting(proc, reference.owner, kind, Outcome::Sent { to, message }))
            }
        }
    }

    /// The variable gets the value.
    fn plan_set(&self, proc: &Proc, var: &Var, value: Term) -> Result<Execution, AllocError>
        requires { self.now.counts.place ≤ length proc.now.instrs }
        ensures { IfOk result (λ x. setting (state_of self.now) var.now.0 value ≡ executed_body (state_of self.now) x) }
    {
        let (value, told) = with_copy(self.alloc, value)?;
        match var.copy(self.alloc) {
            Ok(var) => Ok(Execution {
                binding: Binding::Value { var, value },
                inbox: InboxChange::Nothing,
                place: self.place_after(proc, None),
                plan: self.silent(Change::Nothing, Outcome::Set { value: told }),
            }),
            Err(fault) => {
                drop(value);
                drop(told);
                Err(fault)
            }
        }
    }

    /// The signal of a link, which is sent but to oneself or where the link is active.
    fn link_posts(&self, peer: Pid) -> Posts
        ensures { map post_of (outgoing_of result) ≡ (linking (state_of self.now) peer).posts }
    {
        let links = &self.tables.links;
        if peer != links.owner() && !links.active(peer) {
            one_post(peer, Kind::Link)
        } else {
            Posts::Nothing
        }
    }

    /// A link to a process.
    fn plan_link(&self, proc: &Proc, peer: Pid) -> Execution
        requires { self.now.counts.place ≤ length proc.now.instrs }
        ensures { linking (state_of self.now) peer ≡ executed_body (state_of self.now) result }
    {
        let posts = self.link_posts(peer);
        let change = Change::Links(LinkChange::Link { peer });
        let plan = Plan::sending(change, Outcome::Done, posts);
        self.going(proc, None, plan)
    }

    /// The signal of the end of a link, which is sent where the link is active.
    fn unlink_posts(&self, peer: Pid) -> Posts
        ensures { map post_of (outgoing_of result) ≡ (unlinking (state_of self.now) peer).posts }
    {
        let links = &self.tables.links;
        if links.active(peer) {
            let id = links.next_id();
            one_post(peer, Kind::Unlink { id })
        } else {
            Posts::Nothing
        }
    }

    /// The end of the link to a process.
    fn plan_unlink(&self, proc: &Proc, peer: Pid) -> Execution
        requires { self.now.counts.place ≤ length proc.now.instrs }
        ensures { unlinking (state_of self.now) peer ≡ executed_body (state_of self.now) result }
    {
        let posts = self.unlink_posts(peer);
        let change = Change::Links(LinkChange::Unlink { peer });
        let plan = Plan::sending(change, Outcome::Done, posts);
        self.going(proc, None, plan)
    }

    /// An exit signal to a process.
    fn plan_exit_to(&self, proc: &Proc, target: Pid, reason: Term) -> Execution
        requires { self.now.counts.place ≤ length proc.now.instrs }
        ensures { sending_exit (state_of self.now) reason target ≡ executed_body (state_of self.now) result }
    {
        let kind = Kind::Exit {
            reason,
            linked: false,
        };
        self.posting(proc, target, kind, Outcome::Done)
    }

    /// The process traps exits from now on, or does no more.
    fn plan_trap(&self, proc: &Proc, on: bool) -> Execution
        requires { self.now.counts.place ≤ length proc.now.instrs }
        ensures { trapping (state_of self.now) on ≡ executed_body (state_of self.now) result }
    {
        let plan = self.silent(Change::Trap { on }, Outcome::Done);
        self.going(proc, None, plan)
    }

    /// The process goes on at a label.
    fn plan_goto(&self, proc: &Proc, label: u32) -> Execution
        requires { self.now.counts.place ≤ length proc.now.instrs }
        ensures { going_on (state_of self.now) (place_after proc.now.labels (Some label) self.now.counts.place) Outcome.Done
            ≡ executed_body (state_of self.now) result }
    {
        let plan = self.silent(Change::Nothing, Outcome::Done);
        self.going(proc, Some(label), plan)
    }

    /// The reference that the process makes next.
    fn new_ref(&self) -> Ref
        ensures { result ≡ new_ref (state_of self.now) }
    {
        Ref {
            owner: self.tables.watch.owner(),
            serial: self.counts.next_serial,
        }
    }

    /// A change by which these signals are sent, and a variable gets the reference.
    fn made(&self, change: Change, reference: Ref, posts: Posts) -> Plan
        ensures { (s : ProcessState) → body_of s result
            ≡ record { state = changed s change; outcome = Outcome.Set (Term.Ref reference); posts = map post_of (outgoing_of posts) } }
    {
        let value = Term::Ref(reference);
        Plan::sending(change, Outcome::Set { value }, posts)
    }

    /// The execution of this plan, by which the variable gets the reference.
    fn making(
        &self,
        proc: &Proc,
        var: &Var,
        reference: Ref,
        plan: Plan,
    ) -> Result<Execution, AllocError>
        requires { self.now.counts.place ≤ length proc.now.instrs }
        ensures { IfOk result (λ x. x ≡ record {
          binding = Binding.Made var.now reference;
          inbox = InboxChange.Nothing;
          place = self.now.counts.place + 1;
          plan = plan;
        }) }
    {
        match var.copy(self.alloc) {
            Ok(var) => Ok(Execution {
                binding: Binding::Made { var, reference },
                inbox: InboxChange::Nothing,
                place: self.place_after(proc, None),
                plan,
            }),
            Err(fault) => {
                drop(plan);
                Err(fault)
            }
        }
    }

    /// A reference that is nothing else.
    fn plan_make_ref(&self, proc: &Proc, var: &Var) -> Result<Execution, AllocError>
        requires { self.now.counts.place ≤ length proc.now.instrs }
        ensures { IfOk result (λ x. making_ref (state_of self.now) var.now.0 ≡ executed_body (state_of self.now) x) }
    {
        let reference = self.new_ref();
        let plan = self.made(Change::Nothing, reference, Posts::Nothing);
        self.making(proc, var, reference, plan)
    }

    /// The signal of a monitor, which is sent but to oneself.
    fn monitor_posts(&self, target: Pid, reference: Ref) -> Posts
        ensures { map post_of (outgoing_of result)
            ≡ (if target.0 == self.now.tables.watch.watch.owner then [] else record { to = target.0; kind = Kind.Monitor reference } ∷ []) }
    {
        if target == self.tables.watch.owner() {
            Posts::Nothing
        } else {
            one_post(target, Kind::Monitor { reference })
        }
    }

    /// A monitor of a process.
    fn plan_monitor(
        &self,
        proc: &Proc,
        var: &Var,
        target: Pid,
        mode: Option<AliasMode>,
    ) -> Result<Execution, AllocError>
        requires { self.now.counts.place ≤ length proc.now.instrs }
        ensures { IfOk result (λ x. monitoring (state_of self.now) var.now.0 mode target ≡ executed_body (state_of self.now) x) }
    {
        let reference = self.new_ref();
        let change = WatchChange::Monitor {
            reference,
            target,
            mode,
        };
        let posts = self.monitor_posts(target, reference);
        let plan = self.made(Change::Watch(change), reference, posts);
        self.making(proc, var, reference, plan)
    }

    /// A new alias.
    fn plan_alias(&self, proc: &Proc, var: &Var, reply: bool) -> Result<Execution, AllocError>
        requires { self.now.counts.place ≤ length proc.now.instrs }
        ensures { IfOk result (λ x. aliasing (state_of self.now) var.now.0 reply ≡ executed_body (state_of self.now) x) }
    {
        let reference = self.new_ref();
        let change = Change::Watch(WatchChange::Alias { reference, reply });
        let plan = self.made(change, reference, Posts::Nothing);
        self.making(proc, var, reference, plan)
    }

    /// How the end of a monitor goes: with `flush` it is told whether a message of its end is there.
    fn flushing(&self, reference: Ref, flush: bool) -> Outcome
        ensures { result ≡ (demonitoring (state_of self.now) flush reference).outcome }
    {
        if flush {
            let yes = self.tables.inner.has_down(reference);
            Outcome::Answered { yes }
        } else {
            Outcome::Done
        }
    }

    /// The end of the monitor of a reference. With `flush` the message of its end is removed.
    fn plan_demonitor(&self, proc: &Proc, reference: Ref, flush: bool) -> Execution
        requires { self.now.counts.place ≤ length proc.now.instrs }
        ensures { demonitoring (state_of self.now) flush reference ≡ executed_body (state_of self.now) result }
    {
        let told = self.tables.watch.told(reference);
        let posts = demonitor_posts(reference, told);
        let outcome = self.flushing(reference, flush);
        let change = Change::Watch(WatchChange::Demonitor { reference });
        let plan = Plan::sending(change, outcome, posts);
        let inbox = if flush {
            InboxChange::Flush { reference }
        } else {
            InboxChange::Nothing
        };
        Execution {
            binding: Binding::Nothing,
            inbox,
            place: self.place_after(proc, None),
            plan,
        }
    }

    /// The end of an alias.
    fn plan_unalias(&self, proc: &Proc, reference: Ref) -> Execution
        requires { self.now.counts.place ≤ length proc.now.instrs }
        ensures { unaliasing (state_of self.now) reference ≡ executed_body (state_of self.now) result }
    {
        let yes = self.tables.watch.alias_mode(reference).is_some();
        let plan = self.silent(
            Change::Watch(WatchChange::Unalias { reference }),
            Outcome::Answered { yes },
        );
        self.going(proc, None, plan)
    }

    /// The answer of an instruction that changes nothing but messages and markers.
    fn answering(&self, proc: &Proc, yes: bool, inbox: InboxChange) -> Execution
        requires { self.now.counts.place ≤ length proc.now.instrs }
        ensures execution { result ≡ record {
          binding = Binding.Nothing;
          inbox = inbox;
          place = self.now.counts.place + 1;
          plan = result.plan;
        } }
        ensures body { (s : ProcessState) → body_of s result.plan ≡ record { state = s; outcome = Outcome.Answered yes; posts = [] } }
    {
        let plan = self.silent(Change::Nothing, Outcome::Answered { yes });
        Execution {
            binding: Binding::Nothing,
            inbox,
            place: self.place_after(proc, None),
            plan,
        }
    }

    /// A value that is no reference has no mark.
    fn unmarked(&self, proc: &Proc) -> Execution
        requires { self.now.counts.place ≤ length proc.now.instrs }
        ensures { marked_by (state_of self.now) (false, self.now.tables.inner.queue.inbox) ≡ executed_body (state_of self.now) result }
    {
        self.answering(proc, false, InboxChange::Nothing)
    }

    /// A place behind all messages is reserved for the next references.
    fn plan_reserve(&self, proc: &Proc) -> Execution
        requires { self.now.counts.place ≤ length proc.now.instrs }
        ensures { reserving (state_of self.now) ≡ executed_body (state_of self.now) result }
    {
        let serial = self.counts.next_serial;
        let plan = self.silent(Change::Nothing, Outcome::Done);
        Execution {
            binding: Binding::Nothing,
            inbox: InboxChange::Reserve { serial },
            place: self.place_after(proc, None),
            plan,
        }
    }

    /// The reserve is bound to the reference that the variable's value is.
    fn plan_bind(&self, proc: &Proc, var: &Var) -> Execution
        requires within { self.now.counts.place ≤ length proc.now.instrs }
        requires owner { self.now.tables.inner.queue.owner ≡ self.now.tables.watch.watch.owner }
        ensures { binding (state_of self.now) var.now ≡ executed_body (state_of self.now) result }
    {
        match self.ref_of_var(var) {
            None => self.unmarked(proc),
            Some(reference) => {
                let value = self.tables.inner.may_bind(reference);
                self.answering(proc, value, InboxChange::Bind { reference })
            }
        }
    }

    /// The mark of the reference that the variable's value is is taken out.
    fn plan_clear(&self, proc: &Proc, var: &Var) -> Execution
        requires { self.now.counts.place ≤ length proc.now.instrs }
        ensures { clearing (state_of self.now) var.now ≡ executed_body (state_of self.now) result }
    {
        match self.ref_of_var(var) {
            None => self.unmarked(proc),
            Some(reference) => {
                let value = self.tables.inner.has_mark(reference);
                self.answering(proc, value, InboxChange::Clear { reference })
            }
        }
    }
}

// The rows of the table of instructions: first the values of an instruction's expressions, and then its
// plan.
impl Progress {
    /// A message to the process or the alias that the value names.
    fn send_to(&self, proc: &Proc, to: Term, message: Term) -> Result<Execution, ValueFault>
        requires { self.now.counts.place ≤ length proc.now.instrs }
        ensures { IsPlanned (state_of self.now) (Some (with_target (state_of self.now) to (sending (state_of self.now) message))) result }
    {
        let address = self.address_of(&to);
        drop(to);
        match address {
            Ok(address) => match self.plan_send(proc, address, message) {
                Ok(plan) => Ok(plan),
                Err(AllocError) => Err(ValueFault::Memory),
            },
            Err(fault) => {
                drop(message);
                Err(fault)
            }
        }
    }

    /// The row of a send.
    fn send_row(&self, proc: &Proc, to: &Expr, message: &Expr) -> Result<Execution, ValueFault>
        requires { self.now.counts.place ≤ length proc.now.instrs }
        ensures { IsRow proc.now (state_of self.now) (Instr.Send to.now message.now) result }
    {
        match self.values_of(to, message) {
            Ok((to, message)) => self.send_to(proc, to, message),
            Err(fault) => Err(fault),
        }
    }

    /// The row of a match with a variable.
    fn set_row(&self, proc: &Proc, var: &Var, value: &Expr) -> Result<Execution, ValueFault>
        requires { self.now.counts.place ≤ length proc.now.instrs }
        ensures { IsRow proc.now (state_of self.now) (Instr.Set var.now value.now) result }
    {
        match self.value_of(value) {
            Ok(value) => match self.plan_set(proc, var, value) {
                Ok(plan) => Ok(plan),
                Err(AllocError) => Err(ValueFault::Memory),
            },
            Err(fault) => Err(fault),
        }
    }

    /// The row of a link.
    fn link_row(&self, proc: &Proc, peer: &Expr) -> Result<Execution, ValueFault>
        requires { self.now.counts.place ≤ length proc.now.instrs }
        ensures { IsRow proc.now (state_of self.now) (Instr.Link peer.now) result }
    {
        match self.target_of(peer) {
            Ok(peer) => Ok(self.plan_link(proc, peer)),
            Err(fault) => Err(fault),
        }
    }

    /// The row of the end of a link.
    fn unlink_row(&self, proc: &Proc, peer: &Expr) -> Result<Execution, ValueFault>
        requires { self.now.counts.place ≤ length proc.now.instrs }
        ensures { IsRow proc.now (state_of self.now) (Instr.Unlink peer.now) result }
    {
        match self.target_of(peer) {
            Ok(peer) => Ok(self.plan_unlink(proc, peer)),
            Err(fault) => Err(fault),
        }
    }

    /// The row of a monitor.
    fn monitor_row(
        &self,
        proc: &Proc,
        var: &Var,
        target: &Expr,
        mode: Option<AliasMode>,
    ) -> Result<Execution, ValueFault>
        requires { self.now.counts.place ≤ length proc.now.instrs }
        ensures { IsRow proc.now (state_of self.now) (Instr.Monitor var.now target.now mode) result }
    {
        match self.target_of(target) {
            Ok(target) => match self.plan_monitor(proc, var, target, mode) {
                Ok(plan) => Ok(plan),
                Err(AllocError) => Err(ValueFault::Memory),
            },
            Err(fault) => Err(fault),
        }
    }

    /// The row of the end of a monitor.
    fn demonitor_row(
        &self,
        proc: &Proc,
        reference: &Expr,
        flush: bool,
    ) -> Result<Execution, ValueFault>
        requires { self.now.counts.place ≤ length proc.now.instrs }
        ensures { IsRow proc.now (state_of self.now) (Instr.Demonitor reference.now flush) result }
    {
        match self.reference_of(reference) {
            Ok(reference) => Ok(self.plan_demonitor(proc, reference, flush)),
            Err(fault) => Err(fault),
        }
    }

    /// The row of the end of an alias.
    fn unalias_row(&self, proc: &Proc, reference: &Expr) -> Result<Execution, ValueFault>
        requires { self.now.counts.place ≤ length proc.now.instrs }
        ensures { IsRow proc.now (state_of self.now) (Instr.Unalias reference.now) result }
    {
        match self.reference_of(reference) {
            Ok(reference) => Ok(self.plan_unalias(proc, reference)),
            Err(fault) => Err(fault),
        }
    }

    /// The row of the end of the process.
    fn exit_row(&self, proc: &Proc, reason: &Expr) -> Result<Execution, ValueFault>
        ensures { IsRow proc.now (state_of self.now) (Instr.Exit reason.now) result }
    {
        match self.value_of(reason) {
            Ok(reason) => match self.exiting(reason) {
                Ok(plan) => Ok(plan),
                Err(AllocError) => Err(ValueFault::Memory),
            },
            Err(fault) => Err(fault),
        }
    }

    /// An exit signal to the process that the value names.
    fn exit_with(&self, proc: &Proc, target: Term, reason: Term) -> Result<Execution, ValueFault>
        requires { self.now.counts.place ≤ length proc.now.instrs }
        ensures { IsPlanned (state_of self.now) (Some (with_pid (state_of self.now) target (sending_exit (state_of self.now) reason)))
            result }
    {
        let pid = self.pid_of(&target);
        drop(target);
        match pid {
            Ok(pid) => Ok(self.plan_exit_to(proc, pid, reason)),
            Err(fault) => {
                drop(reason);
                Err(fault)
            }
        }
    }

    /// The row of an exit signal.
    fn exit_to_row(
        &self,
        proc: &Proc,
        target: &Expr,
        reason: &Expr,
    ) -> Result<Execution, ValueFault>
        requires { self.now.counts.place ≤ length proc.now.instrs }
        ensures { IsRow proc.now (state_of self.now) (Instr.ExitTo target.now reason.now) result }
    {
        match self.values_of(target, reason) {
            Ok((target, reason)) => self.exit_with(proc, target, reason),
            Err(fault) => Err(fault),
        }
    }

    /// What an instruction does that has no expressions and is no receive, one arm for each row of the
    /// table of instructions.
    fn plan_without_expressions(&self, proc: &Proc, instr: &Instr) -> Result<Execution, ValueFault>
        requires within { self.now.counts.place ≤ length proc.now.instrs }
        requires no_expressions { exprs_of instr.now ≡ [] }
        requires other { is_receive (Some instr.now) ≡ false }
        requires owner { self.now.tables.inner.queue.owner ≡ self.now.tables.watch.watch.owner }
        ensures { IsRow proc.now (state_of self.now) instr.now result }
    {
        match instr {
            Instr::MakeRef { var } => match self.plan_make_ref(proc, var) {
                Ok(plan) => Ok(plan),
                Err(AllocError) => Err(ValueFault::Memory),
            },
            Instr::Alias { var, reply } => match self.plan_alias(proc, var, *reply) {
                Ok(plan) => Ok(plan),
                Err(AllocError) => Err(ValueFault::Memory),
            },
            Instr::Reserve => Ok(self.plan_reserve(proc)),
            Instr::Bind { var } => Ok(self.plan_bind(proc, var)),
            Instr::Clear { var } => Ok(self.plan_clear(proc, var)),
            Instr::Trap { on } => Ok(self.plan_trap(proc, *on)),
            Instr::Goto { label } => Ok(self.plan_goto(proc, *label)),
            Instr::Stop => match self.exiting_with(b"normal") {
                Ok(plan) => Ok(plan),
                Err(AllocError) => Err(ValueFault::Memory),
            },
            _ => unreachable!(),
        }
    }

    /// What an instruction does that is no receive: an arm for each row of the table of instructions
    /// that has expressions, and one for the others.
    fn plan_row(&self, proc: &Proc, instr: &Instr) -> Result<Execution, ValueFault>
        requires within { self.now.counts.place ≤ length proc.now.instrs }
        requires other { is_receive (Some instr.now) ≡ false }
        requires owner { self.now.tables.inner.queue.owner ≡ self.now.tables.watch.watch.owner }
        ensures { IsRow proc.now (state_of self.now) instr.now result }
    {
        match instr {
            Instr::Send { to, message } => self.send_row(proc, to, message),
            Instr::Set { var, value } => self.set_row(proc, var, value),
            Instr::Link { peer } => self.link_row(proc, peer),
            Instr::Unlink { peer } => self.unlink_row(proc, peer),
            Instr::Monitor { var, target, mode } => self.monitor_row(proc, var, target, *mode),
            Instr::Demonitor { reference, flush } => self.demonitor_row(proc, reference, *flush),
            Instr::Unalias { reference } => self.unalias_row(proc, reference),
            Instr::Exit { reason } => self.exit_row(proc, reason),
            Instr::ExitTo { target, reason } => self.exit_to_row(proc, target, reason),
            _ => self.plan_without_expressions(proc, instr),
        }
    }

    /// What an instruction that is no receive does. The place after the last instruction is a stop.
    /// A value that is too large ends the process with `system_limit`, and one that has to be a pid
    /// or a reference and is none with `badarg`.
    pub(crate) fn plan_instr(
        &self,
        proc: &Proc,
        instr: Option<&Instr>,
    ) -> Result<Execution, AllocError>
        requires first { 1 ≤ self.now.counts.place }
        requires instr { option_copied instr ≡ slice_get proc.now.instrs (self.now.counts.place - 1) }
        requires other { is_receive (option_copied instr) ≡ false }
        requires owner { self.now.tables.inner.queue.owner ≡ self.now.tables.watch.watch.owner }
        ensures { IfOk result (λ x. exec_body from_mark proc.now (state_of self.now) (option_copied instr.entry)
            ≡ Some (executed_body (state_of self.now) x)) }
    {
        let Some(instr) = instr else {
            return self.exiting_with(b"normal");
        };
        match self.plan_row(proc, instr) {
            Ok(plan) => Ok(plan),
            Err(ValueFault::TooLarge) => self.exiting_with(b"system_limit"),
            Err(ValueFault::BadArg) => self.exiting_with(b"badarg"),
            Err(ValueFault::Memory) => Err(AllocError),
        }
    }
}
