ghost use Rattle.std.specs.Prelude.{◌≡◌, ◌-◌, ◌<◌, ◌≤◌, ◌↔◌, [], length, take, min, Some, IfOk, OnErr, IsErr};
ghost use Rattle.sig_base.specs.Flow.{Adds, faults_after};

use crate::sink::Sink;
use crate::source::Failed;
use std::alloc::{AllocError, Global};
use std::marker::Model;

/// A sink in memory with room for a number of bytes.
///
/// A write takes as many bytes as have room, and fails where there is none.
#[derive(Drop)]
pub struct MemorySink {
    /// The bytes that it holds.
    bytes: Vec<u8>,
    /// The most bytes that it holds.
    room: usize,
    /// How many writes failed.
    faults: u64,
}

impl Model for MemorySink {
    ghost use Rattle.std.specs.Prelude.{◌<◌, ◌≤◌, vec_len, vec_capacity};
    ghost use Rattle.sig_base.specs.Stored.{Stored};

    ghost Value = { Stored };

    ghost view = { λ s. record { held = s.bytes.items; room = s.room; faults = s.faults } };

    ghost invariant = { λ s. (vec_len s.bytes ≤ s.room) × (s.room ≤ vec_capacity s.bytes) };
}

impl MemorySink {
    /// An empty sink with room for `room` bytes, all of which it allocates now.
    ///
    /// # Errors
    ///
    /// [`AllocError`] where memory is wanting.
    pub fn with_room(alloc: Global, room: usize) -> Result<MemorySink, AllocError>
        ensures { IfOk result (λ s. s ≡ record { held = []; room = room; faults = 0 }) }
    {
        Ok(MemorySink {
            bytes: Vec::with_capacity(alloc, room)?,
            room,
            faults: 0,
        })
    }

    /// The bytes that it holds.
    pub fn held(&self) -> &[u8]
        ensures { result.now ≡ self.now.held }
    {
        self.bytes.as_slice()
    }
}

impl Sink for MemorySink {
    ghost held = { λ s. Some s.held };

    ghost faults = { λ s. s.faults };

    fn write(&mut self, piece: &[u8]) -> Result<usize, Failed>
        requires { 0 < length piece.now }
        ensures full { IsErr result ↔ (self.old.room ≤ length self.old.held) }
        ensures exact { IfOk result (λ n.
            n ≡ min (length piece.now) (self.old.room - length self.old.held)) }
        ensures adds { IfOk result (λ n.
            Adds (Some self.old.held) (Some self.new.held) (take n piece.now)) }
        ensures kept { OnErr result (self.new.held ≡ self.old.held) }
        ensures faults { self.new.faults ≡ faults_after result self.old.faults }
        ensures count { self.old.faults ≤ self.new.faults }
        ensures room { self.new.room ≡ self.old.room }
    {
        let n = piece.len().min(self.room - self.bytes.len());
        if n == 0 {
            self.faults = self.faults.saturating_add(1);
            return Err(Failed);
        }
        if self.bytes.extend_from_slice(&piece[..n]).is_err() {
            unreachable!();
        }
        Ok(n)
    }
}
