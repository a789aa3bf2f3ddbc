ghost use Rattle.std.specs.Prelude.{◌≡◌, ◌<◌, ◌≤◌, ◌↔◌, length, min, Some, IfOk, OnErr, IsErr, Contains};
ghost use Rattle.sig_base.specs.declared.end.End.TheVariants.{Ahead};
ghost use Rattle.sig_base.specs.Flow.{Takes, end_after, faults_after, is_last, one_more};

use crate::end::End;
use crate::memory_source::MemorySource;
use crate::source::{Failed, Source};
use std::marker::Model;

/// A source over bytes in memory that fails at chosen calls, and else gives what a
/// [`MemorySource`] gives.
#[derive(Drop)]
pub struct FailingSource {
    /// What is given at the other calls.
    source: MemorySource,
    /// The numbers of the calls that fail. The first call has number 1.
    fails: Vec<u64>,
    /// How many reads there were.
    calls: u64,
    /// How many of them failed.
    faults: u64,
    /// How the reads stand to the end.
    end: End,
}

impl Model for FailingSource {
    ghost use Rattle.sig_base.specs.Served.{FailingServed};

    ghost Value = { FailingServed };

    ghost view = { λ s. record {
      left = s.source.left;
      piece = s.source.piece;
      fails = s.fails.items;
      calls = s.calls;
      faults = s.faults;
      end = s.end;
    } };
}

impl FailingSource {
    /// A source of these bytes, at most `piece` of them a read, that fails at the calls whose
    /// numbers, from 1, are in `fails`.
    ///
    /// Asks that `piece` isn't 0.
    pub fn new(bytes: Vec<u8>, piece: usize, fails: Vec<u64>) -> FailingSource
        requires { 0 < piece }
        ensures { result ≡ record {
          left = bytes.items;
          piece = piece;
          fails = fails.items;
          calls = 0;
          faults = 0;
          end = Ahead;
        } }
    {
        FailingSource {
            source: MemorySource::new(bytes, piece),
            fails,
            calls: 0,
            faults: 0,
            end: End::Ahead,
        }
    }
}

impl Source for FailingSource {
    ghost left = { λ s. Some s.left };

    ghost faults = { λ s. s.faults };

    ghost end = { λ s. s.end };

    fn read(&mut self, into: &mut [u8]) -> Result<usize, Failed>
        requires { 0 < length into.old }
        ensures calls { self.new.calls ≡ one_more self.old.calls }
        ensures fails { IsErr result ↔ Contains self.old.fails (one_more self.old.calls) }
        ensures takes { IfOk result (λ n.
            Takes (Some self.old.left) (Some self.new.left) into.new n) }
        ensures exact { IfOk result (λ n.
            n ≡ min self.old.piece (min (length into.old) (length self.old.left))) }
        ensures kept { OnErr result (self.new.left ≡ self.old.left) }
        ensures faults { self.new.faults ≡ faults_after result self.old.faults }
        ensures end { self.new.end ≡ end_after (is_last result) self.old.end }
        ensures count { self.old.faults ≤ self.new.faults }
        ensures same { (self.new.piece ≡ self.old.piece) × (self.new.fails ≡ self.old.fails) }
    {
        self.calls = self.calls.saturating_add(1);
        if self.fails.contains(&self.calls) {
            self.faults = self.faults.saturating_add(1);
            self.end = self.end.after(true);
            return Err(Failed);
        }
        let n = self.source.read(into)?;
        self.end = self.end.after(n == 0);
        Ok(n)
    }
}
