//! The order of a record's events.

ghost use Rattle.std.specs.Prelude.{◌≡◌, ◌<◌, ◌↔◌, true, IsTrue, IfSome, IfOk, OnOk, length, replicate};
ghost use Rattle.sig_record.specs.Merging.{event_at};
ghost use Rattle.sig_order.specs.Happening.{is_there, stamp_of, HappenedBefore, IsTraced};
ghost use Rattle.sig_order.specs.Counting.{no_rows, IsCounted, AddsCounts};
ghost use Rattle.sig_order.specs.Concurrent.{IsRange};

use crate::at::At;
use crate::counts::{Rows, add_event, count};
use crate::searching::span;
use crate::senders::{SignalKey, index_of, sender};
use crate::span::Span;
use sig_model::{Origin, Origins};
use sig_record::{MergedAt, Record, Report};
use std::alloc::{AllocError, Global};
use std::collections::BTreeMap;
use std::marker::Model;
use std::snapshot::Snapshot;

/// The order of the events of a record: for each event it has the counts of the events of each
/// process that are at it or before it. Contracts see the record and the origins of its signals.
#[derive(Drop)]
pub struct Happened {
    /// The counts of each process's events, by pid.
    rows: Vec<Rows>,
    /// The record, as contracts see it.
    given: Snapshot<Record>,
    /// The origins of its signals, as contracts see them.
    origins: Snapshot<Origins>,
}

impl Model for Happened {
    ghost use Rattle.std.specs.Coded.{codes};
    ghost use Rattle.sig_terms.specs.contracts.term.Term as term;
    ghost use Rattle.sig_order.specs.Told.{Told};
    ghost use Rattle.sig_order.specs.Counting.{IsCounted};

    ghost Value = { Told };

    ghost coded = { Prim.hlevel (codes, term.the_row.coded) };

    ghost view = { λ h. record { reports = h.given.value; origins = h.origins.value } };

    ghost invariant = { λ h. IsCounted h.given.value h.origins.value h.rows.items };
}

/// No counts, for so many processes. The error is want of memory.
fn none_counted(alloc: Global, n: usize) -> Result<Vec<Rows>, AllocError>
    ensures { IfOk result (λ rows. rows.items ≡ replicate n no_rows) }
{
    let mut rows = Vec::with_capacity(alloc, n)?;
    for _ in 0..n {
        rows.push(Rows::new(alloc))?;
    }
    Ok(rows)
}

/// Adds the counts of the event at this place. The error is want of memory.
fn count_event(
    alloc: Global,
    rows: &mut Vec<Rows>,
    reports: &[Report],
    index: &BTreeMap<SignalKey, u64>,
    at: MergedAt,
) -> Result<(), AllocError>
    requires { at.pid.0 < length rows.old.items }
    ensures { OnOk result (IfSome (event_at reports.now at) (λ e. AddsCounts rows.old.items index.now.entries at e.did rows.new.items)) }
{
    let Some(report) = reports.get(at.pid.0 as usize) else {
        return Ok(());
    };
    let events = report.events.as_slice();
    let Some(event) = events.get(at.place as usize) else {
        return Ok(());
    };
    // For the proof alone, which takes from it how many events there may be.
    let _count = events.len();
    let from = sender(index, at.pid.0, &event.did);
    let of = At {
        pid: at.pid.0,
        event: at.place + 1,
    };
    add_event(alloc, rows, of, from)
}

/// The counts of all events. The error is want of memory.
fn count_all(alloc: Global, given: &Record, origins: &[Origin]) -> Result<Vec<Rows>, AllocError>
    requires { IsTraced given.now origins.now }
    ensures { IfOk result (λ rows. IsCounted given.now origins.now rows.items) }
{
    let index = index_of(alloc, origins)?;
    let order = given.merge(alloc)?;
    let reports = given.reports();
    let mut rows = none_counted(alloc, reports.len())?;
    for at in order.as_slice() {
        count_event(alloc, &mut rows, reports, &index, *at)?;
    }
    Ok(rows)
}

impl Happened {
    /// The order of the events of this record, with these origins of its signals. The error is want of
    /// memory. It takes memory in proportion to the events and the signals, and for each event that
    /// handled a signal of another process in proportion to the processes. It takes so much time too,
    /// and the events and the signals are sorted, which takes n log n of each.
    ///
    /// Asks that at most one event sent each signal, and that each step leads to a higher stamp. So it
    /// is with the record of a run and the origins of its signals: `origins_of_a_run_are_traced`.
    pub fn build(alloc: Global, given: &Record, origins: &Origins) -> Result<Happened, AllocError>
        requires { IsTraced given.now origins.now }
        ensures { IfOk result (λ h. (h.reports ≡ given.now) × (h.origins ≡ origins.now)) }
    {
        let rows = count_all(alloc, given, origins.as_slice())?;
        Ok(Happened {
            rows,
            given: Snapshot::of(given),
            origins: Snapshot::of(origins),
        })
    }

    /// Whether the record has the event.
    pub fn has(&self, at: At) -> bool
        ensures { result ≡ is_there self.now.reports at }
    {
        if at.event == 0 {
            return false;
        }
        match self.rows.get(at.pid as usize) {
            Some(rows) => at.event <= rows.known.len() as u64,
            None => false,
        }
    }

    /// Whether the first event happened before the second: a chain of one or more steps leads from it
    /// to the second, each from an event to the next one of its process, or from the event that sent
    /// a signal to the one that handled it (Lamport's relation). Then its stamp is lower, so no event
    /// happened before itself. It takes no memory, and constant time.
    ///
    /// Asks that the record has both events, as `has` tells.
    pub fn before(&self, first: At, second: At) -> bool
        requires first { is_there self.now.reports first ≡ true }
        requires second { is_there self.now.reports second ≡ true }
        ensures chain { IsTrue result ↔ HappenedBefore self.now.reports self.now.origins first second }
        ensures stamps { IsTrue result → stamp_of self.now.reports first < stamp_of self.now.reports second }
    {
        let before = count(self.rows.as_slice(), second, first.pid as usize);
        if first == second {
            false
        } else {
            first.event <= before
        }
    }

    /// The events of this process that are concurrent with the event: neither of the two happened
    /// before the other. They follow on one another, so they are a range of the process's events; or
    /// there is none, as for the event's own process. It takes no memory, and time in proportion to
    /// the logarithm of the count of that process's events.
    ///
    /// Asks that the record has the event, as `has` tells.
    pub fn concurrent(&self, at: At, pid: u32) -> Option<Span>
        requires { is_there self.now.reports at ≡ true }
        ensures { IsRange self.now.reports self.now.origins at pid result }
    {
        span(self.rows.as_slice(), at, pid)
    }
}
