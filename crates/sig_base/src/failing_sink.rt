ghost use Rattle.std.specs.Prelude.{◌≡◌, ◌-◌, ◌<◌, ◌≤◌, ◌↔◌, ◌⊎◌, [], length, take, min, Some, IfOk, OnErr, IsErr, Contains};
ghost use Rattle.sig_base.specs.Flow.{Adds, faults_after, one_more};

use crate::memory_sink::MemorySink;
use crate::sink::Sink;
use crate::source::Failed;
use std::alloc::{AllocError, Global};
use std::marker::Model;

/// A sink in memory that fails at chosen calls, and else takes what a [`MemorySink`] takes, but at
/// most `piece` bytes a call.
#[derive(Drop)]
pub struct FailingSink {
    /// Where the bytes of the other calls go.
    sink: MemorySink,
    /// The most bytes that a write takes.
    piece: usize,
    /// The numbers of the calls that fail. The first call has number 1.
    fails: Vec<u64>,
    /// How many writes there were.
    calls: u64,
    /// How many of them failed, those for want of room too.
    faults: u64,
}

impl Model for FailingSink {
    ghost use Rattle.std.specs.Prelude.{◌<◌};
    ghost use Rattle.sig_base.specs.Stored.{FailingStored};

    ghost Value = { FailingStored };

    ghost view = { λ s. record {
      held = s.sink.held;
      room = s.sink.room;
      piece = s.piece;
      fails = s.fails.items;
      calls = s.calls;
      faults = s.faults;
    } };

    ghost invariant = { λ s. 0 < s.piece };
}

impl FailingSink {
    /// An empty sink with room for `room` bytes, all of which it allocates now. It takes at most
    /// `piece` bytes a write. It fails at the calls whose numbers, from 1, are in `fails`, and
    /// where its room is used up.
    ///
    /// Asks that `piece` isn't 0.
    ///
    /// # Errors
    ///
    /// [`AllocError`] where memory is wanting.
    pub fn with_room(
        alloc: Global,
        room: usize,
        piece: usize,
        fails: Vec<u64>,
    ) -> Result<FailingSink, AllocError>
        requires { 0 < piece }
        ensures { IfOk result (λ s. s ≡ record {
          held = [];
          room = room;
          piece = piece;
          fails = fails.items;
          calls = 0;
          faults = 0;
        }) }
    {
        Ok(FailingSink {
            sink: MemorySink::with_room(alloc, room)?,
            piece,
            fails,
            calls: 0,
            faults: 0,
        })
    }

    /// The bytes that it holds.
    pub fn held(&self) -> &[u8]
        ensures { result.now ≡ self.now.held }
    {
        self.sink.held()
    }
}

impl Sink for FailingSink {
    ghost held = { λ s. Some s.held };

    ghost faults = { λ s. s.faults };

    fn write(&mut self, piece: &[u8]) -> Result<usize, Failed>
        requires { 0 < length piece.now }
        ensures calls { self.new.calls ≡ one_more self.old.calls }
        ensures fails { IsErr result ↔ (Contains self.old.fails (one_more self.old.calls)
            ⊎ (self.old.room ≤ length self.old.held)) }
        ensures some { IfOk result (λ n. 0 < n) }
        ensures exact { IfOk result (λ n.
            n ≡ min (length piece.now) (min self.old.piece (self.old.room - length self.old.held))) }
        ensures adds { IfOk result (λ n.
            Adds (Some self.old.held) (Some self.new.held) (take n piece.now)) }
        ensures kept { OnErr result (self.new.held ≡ self.old.held) }
        ensures faults { self.new.faults ≡ faults_after result self.old.faults }
        ensures count { self.old.faults ≤ self.new.faults }
        ensures same { (self.new.room ≡ self.old.room) × (self.new.piece ≡ self.old.piece)
            × (self.new.fails ≡ self.old.fails) }
    {
        self.calls = self.calls.saturating_add(1);
        if self.fails.contains(&self.calls) {
            self.faults = self.faults.saturating_add(1);
            return Err(Failed);
        }
        let n = piece.len().min(self.piece);
        let result = self.sink.write(&piece[..n]);
        if result.is_err() {
            self.faults = self.faults.saturating_add(1);
        }
        result
    }
}
