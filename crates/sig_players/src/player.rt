ghost use Rattle.std.specs.Prelude.{◌≡◌, ◌≢◌, ◌-◌, [], ◌∷◌, length, slice_get, IsTrue, ◌↔◌, true, false};
ghost use Rattle.std.specs.Prelude.{Some, None, IfOk, IfSome, OnOk, MatchOption};
ghost use Rattle.std.specs.Bool.{MatchBool};
ghost use Rattle.sig_model.specs.Running.{exec_next};
ghost use Rattle.sig_model.specs.Keeping.{IsArriving, IsLeaving};
ghost use Rattle.sig_players.specs.Players.{seen, IsReady, IsGiven};
ghost use Rattle.sig_choices.specs.Choosing.{may_handle, HasHandledOf, Acts, Refuses};

use crate::arriving::arrive;
use crate::executing::execute;
use crate::waiting::{put_behind, take_of};
use sig_base::Steps;
use sig_kinds::{Signal, Signals};
use sig_lists::Same;
use sig_model::{Did, Event};
use sig_process::Process;
use std::alloc::AllocError;
use std::sync::ledger::Ledger;

/// A process that makes given choices, and the signals of others that wait for it. The process itself
/// has taken none of them in, so that the oldest signal of any sender may be handed to it and handled
/// next.
#[derive(Drop)]
pub struct Player {
    /// The process.
    pub process: Process,
    /// Those of the process s at place s, the oldest first.
    pub waiting: Vec<Signals>,
}

impl Player {
    /// Executes the next instruction, where that may be, and tells whether it did. The error is want
    /// of memory.
    pub(crate) fn exec<L: Ledger>(&mut self, steps: &mut Steps<L>) -> Result<bool, AllocError>
        requires { IsReady self.old }
        ensures ready { IfOk result (λ made. IsReady self.new) }
        ensures made { IfOk result (λ made. MatchBool made
            (exec_next (seen self.old) ≡ Some (seen self.new))
            (exec_next (seen self.old) ≡ None)) }
    {
        let made = execute(&mut self.process, steps)?;
        Ok(made)
    }

    /// Handles the oldest signal to itself, where that may be, and tells whether it did. The error is
    /// want of memory.
    fn handle_own(&mut self) -> Result<bool, AllocError>
        requires { IsReady self.old }
        ensures ready { IfOk result (λ made. made ≡ true → IsReady self.new) }
        ensures made { IfOk result (λ made. MatchBool made
            (HasHandledOf self.old.process.running.pid (seen self.old) (seen self.new))
            (may_handle self.old.process.running.pid (seen self.old) ≡ false)) }
    {
        if self.process.own_count() == 0 || !self.process.can_handle() {
            return Ok(false);
        }
        self.process.handle()?;
        Ok(true)
    }

    /// Handles the oldest signal of this other process, where that may be, and tells whether it did.
    /// The error is want of memory. After `false` or an error the player is of no more use.
    fn handle_other(&mut self, sender: u32) -> Result<bool, AllocError>
        requires ready { IsReady self.old }
        requires other { sender ≢ self.old.process.running.pid }
        ensures ready { IfOk result (λ made. made ≡ true → IsReady self.new) }
        ensures made { IfOk result (λ made. MatchBool made
            (HasHandledOf sender (seen self.old) (seen self.new))
            (may_handle sender (seen self.old) ≡ false)) }
    {
        if self.process.own_count() != 0 {
            return Ok(false);
        }
        let Some(signal) = take_of(&mut self.waiting, sender) else {
            return Ok(false);
        };
        arrive(&mut self.process, signal)?;
        if !self.process.can_handle() {
            return Ok(false);
        }
        self.process.handle()?;
        Ok(true)
    }

    /// Handles the oldest signal of this process, where that may be, and tells whether it did. The
    /// error is want of memory. After `false` or an error the player is of no more use.
    pub(crate) fn handle(&mut self, sender: u32) -> Result<bool, AllocError>
        requires { IsReady self.old }
        ensures ready { IfOk result (λ made. made ≡ true → IsReady self.new) }
        ensures made { IfOk result (λ made. MatchBool made
            (HasHandledOf sender (seen self.old) (seen self.new))
            (may_handle sender (seen self.old) ≡ false)) }
    {
        if sender == self.process.pid().0 {
            self.handle_own()
        } else {
            self.handle_other(sender)
        }
    }

    /// A signal of another process joins those that wait for this one. The error is want of memory.
    pub(crate) fn give(&mut self, signal: Signal) -> Result<(), AllocError>
        requires ready { IsReady self.old }
        requires arriving { IsArriving self.old.process.running.pid self.old.process.running.count signal }
        ensures ready { OnOk result (IsReady self.new) }
        ensures given { OnOk result (IsGiven signal self.old self.new) }
    {
        put_behind(&mut self.waiting, signal)
    }

    /// Does what an event did, where that may be, and tells whether it did. The error is want of memory.
    /// After `false` or an error the player is of no more use.
    pub(crate) fn act<L: Ledger>(
        &mut self,
        did: &Did,
        steps: &mut Steps<L>,
    ) -> Result<bool, AllocError>
        requires { IsReady self.old }
        ensures ready { IfOk result (λ made. made ≡ true → IsReady self.new) }
        ensures made { IfOk result (λ made. MatchBool made
            (Acts did.now (seen self.old) (seen self.new))
            (Refuses did.now (seen self.old))) }
    {
        match did {
            Did::Exec { place: _ } => self.exec(steps),
            Did::From { from, number: _ } => self.handle(from.0),
        }
    }

    /// Takes the oldest signal of its outbox. `None` exactly where there is none.
    pub(crate) fn next_out(&mut self) -> Option<Signal>
        requires { IsReady self.old }
        ensures ready { IsReady self.new }
        ensures next { MatchOption result
            ((self.old.process.running.outbox ≡ []) × (self.new ≡ self.old))
            (λ first. seen self.old ≡ record (seen self.new) { outbox = first ∷ self.new.process.running.outbox }) }
        ensures leaving { IfSome result (IsLeaving self.old.process.running.pid self.old.process.running.state.counts.stamp) }
        ensures arriving { IfSome result (λ first. IsArriving first.to.0 self.old.process.running.count first) }
    {
        self.process.next_out()
    }

    /// Whether this is its last event.
    pub fn has_last(&self, event: &Event) -> bool
        ensures { IsTrue result
            ↔ (slice_get self.now.process.running.events (length self.now.process.running.events - 1) ≡ Some event.now) }
    {
        match self.process.events().as_slice().last() {
            None => false,
            Some(last) => last.same(event),
        }
    }
}
