//! What is told while a search goes on.

ghost use Rattle.std.specs.Prelude.{◌≡◌, ◌++◌, false, codes, decimal};
ghost use Rattle.sig_base.specs.Flow.{Rose};
ghost use Rattle.sig_edge.specs.Streams.{writing};
ghost use Rattle.sig_edge.specs.Told.{AddsBeginning, IsTold};
ghost use Rattle.sig_view.specs.Told.{IsProgressTold, progress_text};

use crate::telling::PROGRAM;
use itoa::Buffer;
use sig_base::Sink;
use sig_edge::{Untold, tell_pieces};
use sig_search::Teller;
use std::time::{Clock, Duration, Instant};

/// Between two looks at the clock lie so many visits.
const VISITS: usize = 256;

/// Between two lines lie so many seconds, or more.
const SECONDS: u64 = 1;

/// Tells how far a search is, in a line about once a second, where somebody may look.
#[derive(Drop)]
pub struct Progress<C: Clock, E: Sink> {
    /// By which the time is measured. While it can't be read nothing is told.
    pub clock: C,
    /// What the lines are written to. A fault there changes nothing.
    pub err: E,
    /// Whether lines are written.
    pub shown: bool,
    /// When the last line was due; before the first line, when the search began.
    last: Option<Instant>,
}

/// Whether a second has gone since the last line was due, or the search began: then one is due now.
/// With no such time it begins now.
fn is_due(clock: &impl Clock, last: &mut Option<Instant>) -> bool {
    let Ok(now) = Instant::now(clock) else {
        return false;
    };
    let pause = Duration::from_secs(SECONDS);
    match *last {
        Some(before) if now.duration_since(before) < pause => false,
        before => {
            *last = Some(now);
            before.is_some()
        }
    }
}

/// Writes how far a search is.
fn tell_progress<E: Sink>(err: &mut E, visited: u64, met: u64) -> Result<(), Untold>
    ensures { IsTold (writing (E.held err.old) (E.held err.new) (E.faults err.old) (E.faults err.new))
        (progress_text visited met) result }
{
    let mut visits = Buffer::new();
    let mut all = Buffer::new();
    let visits = visits.format(visited).as_bytes();
    let all = all.format(met).as_bytes();
    tell_pieces(
        err,
        &[
            PROGRAM.as_bytes(),
            b": ",
            visits,
            b" states visited of ",
            all,
            b" met\n",
        ],
    )
}

impl<C: Clock, E: Sink> Progress<C, E> {
    /// Of a search that begins. Lines are written where `shown` says so.
    pub fn new(clock: C, err: E, shown: bool) -> Progress<C, E>
        ensures clock { result.clock ≡ clock }
        ensures err { result.err ≡ err }
        ensures shown { result.shown ≡ shown }
    {
        Progress {
            clock,
            err,
            shown,
            last: None,
        }
    }
}

impl<C: Clock, E: Sink> Teller for Progress<C, E> {
    fn tell(&mut self, visited: usize, met: usize)
        ensures hidden { self.old.shown ≡ false → E.held self.new.err ≡ E.held self.old.err }
        ensures shown { self.new.shown ≡ self.old.shown }
        ensures line { (Rose (E.faults self.old.err) (E.faults self.new.err) → ⊥)
            → IsProgressTold (E.held self.old.err) (E.held self.new.err) visited met }
        ensures beginning { AddsBeginning (E.held self.old.err) (E.held self.new.err) (progress_text visited met) }
    {
        if self.shown && visited % VISITS == 0 && is_due(&self.clock, &mut self.last) {
            let _ = tell_progress(&mut self.err, visited as u64, met as u64);
        }
    }
}
