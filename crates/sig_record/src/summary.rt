//! What a record comes to, in numbers.

ghost use Rattle.std.specs.Prelude.{◌≡◌, map, sum};
ghost use Rattle.std.specs.List.{count_by};
ghost use Rattle.sig_record.specs.SettledRecord.{is_cut};
ghost use Rattle.sig_record.specs.Summarizing.{is_kept, is_ended, is_waiting, kept_in, events_in, shown, summary_of};

use crate::record::Record;
use crate::report::Report;
use sig_model::{Event, Outcome, State};

/// How many there are in a record. A sum over the processes that 64 bits can't hold is told as the
/// greatest number of 64 bits; each event takes more than a byte of memory, so no record comes to that.
#[derive(Clone, Copy, PartialEq, Eq)]
pub struct Summary {
    /// The processes.
    pub processes: u64,
    /// The events of all processes.
    pub events: u64,
    /// The events at which a message was appended to a process's messages.
    pub kept: u64,
    /// The processes that have ended.
    pub ended: u64,
    /// The processes that wait.
    pub waiting: u64,
    /// The processes that were cut.
    pub cut: u64,
}

fn is_kept(event: &Event) -> bool
    ensures { result ≡ is_kept event.now }
{
    matches!(event.outcome, Outcome::Kept { .. })
}

fn kept_in(events: &[Event]) -> usize
    ensures { result ≡ count_by is_kept events.now }
{
    let mut kept = 0;
    for event in events {
        if is_kept(event) {
            kept += 1;
        }
    }
    kept
}

fn events_of(reports: &[Report]) -> u64
    ensures { result ≡ shown (sum (map events_in reports.now)) }
{
    let mut events = 0u64;
    for report in reports {
        events = events.saturating_add(report.events.len() as u64);
    }
    events
}

fn kept_of(reports: &[Report]) -> u64
    ensures { result ≡ shown (sum (map kept_in reports.now)) }
{
    let mut kept = 0u64;
    for report in reports {
        kept = kept.saturating_add(kept_in(report.events.as_slice()) as u64);
    }
    kept
}

/// How many of the processes stand in each way.
#[derive(Clone, Copy)]
struct Standing {
    ended: usize,
    waiting: usize,
    cut: usize,
}

fn standing_of(reports: &[Report]) -> Standing
    ensures ended { result.ended ≡ count_by (λ r. is_ended r.state) reports.now }
    ensures waiting { result.waiting ≡ count_by (λ r. is_waiting r.state) reports.now }
    ensures cut { result.cut ≡ count_by (λ r. is_cut r.state) reports.now }
{
    let mut standing = Standing {
        ended: 0,
        waiting: 0,
        cut: 0,
    };
    for report in reports {
        match report.state {
            State::Ended { .. } => standing.ended += 1,
            State::Waiting => standing.waiting += 1,
            State::Cut => standing.cut += 1,
        }
    }
    standing
}

/// Counts the processes, how they stand, and their events. It takes no memory.
pub fn summarize(given: &Record) -> Summary
    ensures { result ≡ summary_of given.now }
{
    let reports = given.reports();
    let standing = standing_of(reports);
    Summary {
        processes: reports.len() as u64,
        events: events_of(reports),
        kept: kept_of(reports),
        ended: standing.ended as u64,
        waiting: standing.waiting as u64,
        cut: standing.cut as u64,
    }
}
