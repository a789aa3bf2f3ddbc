ghost use Rattle.std.specs.Prelude.{◌≡◌, ◌<◌, ◌≤◌, length, None, IfOk};
ghost use Rattle.std.specs.Io.KnownBytes.{ReadConsumes};
ghost use Rattle.sig_base.specs.declared.end.End.TheVariants.{Ahead};
ghost use Rattle.sig_base.specs.Flow.{end_after, faults_after, is_last};

use crate::end::End;
use crate::source::{Failed, Source};
use std::io::Read;
use std::marker::Model;

/// A reader of std as a source. It tells no bytes.
#[derive(Drop)]
pub struct StdSource<R: Read> {
    /// Where the bytes come from.
    reader: R,
    /// How many reads failed, those that were interrupted too.
    faults: u64,
    /// How the reads stand to the end.
    end: End,
}

impl<R: Read> Model for StdSource<R> {
    ghost use Rattle.sig_base.specs.Served.{ReaderServed};

    ghost Value = { ReaderServed };

    ghost view = { λ s. record { remaining = R.remaining s.reader; faults = s.faults; end = s.end } };
}

impl<R: Read> StdSource<R> {
    /// A source of what the reader gives.
    pub fn new(reader: R) -> StdSource<R>
        ensures { result ≡ record { remaining = R.remaining reader; faults = 0; end = Ahead } }
    {
        StdSource {
            reader,
            faults: 0,
            end: End::Ahead,
        }
    }
}

impl<R: Read> Source for StdSource<R> {
    ghost left = { λ _. None };

    ghost faults = { λ s. s.faults };

    ghost end = { λ s. s.end };

    // One read of the reader. Each of its errors is a fault, an interrupted read too.
    fn read(&mut self, into: &mut [u8]) -> Result<usize, Failed>
        requires { 0 < length into.old }
        ensures within { IfOk result (λ n. n ≤ length into.old) }
        ensures bytes { ReadConsumes self.old.remaining self.new.remaining result into.new }
        ensures faults { self.new.faults ≡ faults_after result self.old.faults }
        ensures end { self.new.end ≡ end_after (is_last result) self.old.end }
        ensures count { self.old.faults ≤ self.new.faults }
    {
        match self.reader.read(into) {
            Ok(n) => {
                self.end = self.end.after(n == 0);
                Ok(n)
            }
            Err(_) => {
                self.faults = self.faults.saturating_add(1);
                self.end = self.end.after(true);
                Err(Failed)
            }
        }
    }
}
