ghost use Rattle.std.specs.Prelude.{◌≡◌, ◌<◌, ◌≤◌, length, min, Some, Ok, IfOk};
ghost use Rattle.sig_base.specs.declared.end.End.TheVariants.{Ahead};
ghost use Rattle.sig_base.specs.Flow.{Takes, end_after, is_last};

use crate::end::End;
use crate::source::{Failed, Source};
use std::marker::Model;

/// A source over bytes in memory, which never fails.
///
/// A read gives as many bytes as the least of `piece`, the room for them and what is left.
#[derive(Drop)]
pub struct MemorySource {
    /// All that the source gives, and has given.
    bytes: Vec<u8>,
    /// How many of the bytes were given.
    at: usize,
    /// The most bytes that a read gives.
    piece: usize,
    /// How the reads stand to the end.
    end: End,
}

impl Model for MemorySource {
    ghost use Rattle.std.specs.Prelude.{◌<◌, ◌≤◌, drop, vec_len};
    ghost use Rattle.sig_base.specs.Served.{Served};

    ghost Value = { Served };

    ghost view = { λ s. record { left = drop s.at s.bytes.items; piece = s.piece; end = s.end } };

    ghost invariant = { λ s. (s.at ≤ vec_len s.bytes) × (0 < s.piece) };
}

impl MemorySource {
    /// A source of these bytes, at most `piece` of them a read.
    ///
    /// Asks that `piece` isn't 0.
    pub fn new(bytes: Vec<u8>, piece: usize) -> MemorySource
        requires { 0 < piece }
        ensures { result ≡ record { left = bytes.items; piece = piece; end = Ahead } }
    {
        MemorySource {
            bytes,
            at: 0,
            piece,
            end: End::Ahead,
        }
    }
}

impl Source for MemorySource {
    ghost left = { λ s. Some s.left };

    ghost faults = { λ _. 0 };

    ghost end = { λ s. s.end };

    fn read(&mut self, into: &mut [u8]) -> Result<usize, Failed>
        requires { 0 < length into.old }
        ensures takes { IfOk result (λ n.
            Takes (Some self.old.left) (Some self.new.left) into.new n) }
        ensures exact { result
            ≡ Ok (min self.old.piece (min (length into.old) (length self.old.left))) }
        ensures end { self.new.end ≡ end_after (is_last result) self.old.end }
        ensures piece { self.new.piece ≡ self.old.piece }
    {
        let n = self.piece.min(into.len()).min(self.bytes.len() - self.at);
        let end = self.at + n;
        into[..n].copy_from_slice(&self.bytes[self.at..end]);
        self.at = end;
        self.end = self.end.after(n == 0);
        Ok(n)
    }
}
