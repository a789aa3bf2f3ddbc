ghost use Rattle.std.specs.Prelude.{◌≡◌, ◌≤◌, ◌+◌, ◌++◌, [], ◌∷◌, length, OnOk, IfErr, IsTrue, ◌↔◌, MatchOption};

use sig_kinds::{Push, Signal, Signals};
use std::alloc::Global;
use std::marker::Model;
use std::mem;

/// Signals that wait in one list, the oldest first. Contracts see the signals alone.
#[derive(Drop)]
pub struct Batch {
    pub(crate) signals: Signals,
}

impl Model for Batch {
    ghost use Rattle.std.specs.Prelude.{List};
    ghost use Rattle.std.specs.Coded.{codes};
    ghost use Rattle.sig_terms.specs.contracts.term.Term as term;
    ghost use Rattle.sig_kinds.specs.declared.signal.Signal.{Signal};

    ghost Value = { List Signal };

    ghost coded = { Prim.hlevel (codes, term.the_row.coded) };

    ghost view = { λ b. b.signals.items };
}

impl Batch {
    /// No signal. It takes no memory.
    pub fn new(alloc: Global) -> Batch
        ensures { result ≡ [] }
    {
        Batch {
            signals: Signals::new(alloc),
        }
    }

    /// How many signals there are.
    pub fn len(&self) -> usize
        ensures { result ≡ length self.now }
    {
        self.signals.len()
    }

    /// Whether there is no signal.
    pub fn is_empty(&self) -> bool
        ensures { IsTrue result ↔ (self.now ≡ []) }
    {
        self.signals.is_empty()
    }

    /// Adds a signal at the end. Where there is no memory for it, it comes back, and the list is as
    /// before.
    pub fn push(&mut self, signal: Signal) -> Result<(), Signal>
        ensures ok { OnOk result (self.new ≡ self.old ++ signal ∷ []) }
        ensures err { IfErr result (λ s. (s ≡ signal) × (self.new ≡ self.old)) }
    {
        match self.signals.push(signal) {
            Push::Added => Ok(()),
            Push::Memory { signal } => Err(signal),
        }
    }

    /// Takes the oldest signal, in constant time. `None` exactly where there is none.
    pub fn pop_front(&mut self) -> Option<Signal>
        ensures { MatchOption result
            ((self.old ≡ []) × (self.new ≡ []))
            (λ first. self.old ≡ first ∷ self.new) }
    {
        self.signals.pop_front()
    }

    /// Moves all signals to the end of `into`.
    ///
    /// Asks that `into` has room for all of them, as [`Signals::room`] makes it.
    pub fn pour_into(&mut self, into: &mut Signals)
        requires { length self.old ≤ into.old.spare }
        ensures list { into.new.items ≡ into.old.items ++ self.old }
        ensures rest { self.new ≡ [] }
        ensures room { into.old.spare ≤ into.new.spare + length self.old }
    {
        while let Some(signal) = self.signals.pop_front() {
            into.add(signal);
        }
    }

    /// Moves all signals to the end of `into`, and leaves room for so many more there. Where `into`
    /// is empty, and this list has room for so many more, the two lists change places, and no signal
    /// is moved.
    ///
    /// Asks that `into` has room for all of them and for so many more, as [`Signals::room`] makes it.
    pub fn pour_with_room(&mut self, into: &mut Signals, more: usize)
        requires { length self.old + more ≤ into.old.spare }
        ensures list { into.new.items ≡ into.old.items ++ self.old }
        ensures rest { self.new ≡ [] }
        ensures room { more ≤ into.new.spare }
    {
        // Without a signal nothing is to move, and `into` keeps its room.
        if into.is_empty() && !self.is_empty() && more <= self.signals.spare() {
            mem::swap(&mut self.signals, into);
            return;
        }
        self.pour_into(into);
    }
}
