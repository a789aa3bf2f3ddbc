//! From a record to the shapes of its chart.

ghost use Rattle.std.specs.Prelude.{◌≡◌, ◌≤◌, ◌<◌, ◌++◌, length, map, IfOk, OnOk};
ghost use Rattle.std.specs.List.{flat_map};
ghost use Rattle.sig_chart.specs.Finding.{sent_by};
ghost use Rattle.sig_chart.specs.Shapes.{
  lane_of,
  is_handling,
  mark_at,
  ground_of,
  arrow_from,
  arrow_at,
  stub_of,
  stub_in,
  stubs_of,
  by_rows,
  chart_of,
};

use crate::finding::{event_of, row_of, sent_by};
use crate::sorting::{sort_of_kind, told_sort};
use crate::sources::Sources;
use crate::window::{MOST_EVENTS, Window};
use crate::words::{event_words, kind_words, standing};
use sig_kinds::Signal;
use sig_lists::Sequence;
use sig_model::{Did, Event, Origin};
use sig_record::{MergedAt, Report, event_at};
use sig_svg::{Arrow, Chart, Lane, Mark, Stub};
use std::alloc::{AllocError, Global};

/// The lane of a process. The error is want of memory.
fn lane_of(alloc: Global, report: &Report) -> Result<Lane, AllocError>
    ensures { IfOk result (λ lane. lane ≡ lane_of report.now) }
{
    let name = Vec::from_slice(alloc, report.name.bytes())?;
    let state = standing(alloc, &report.state)?;
    Ok(Lane {
        pid: report.pid.0,
        name: Sequence::from_vec(name),
        state,
    })
}

/// The lanes of the processes. The error is want of memory.
fn lanes_of(alloc: Global, reports: &[Report]) -> Result<Sequence<Lane>, AllocError>
    ensures { IfOk result (λ lanes. lanes ≡ map lane_of reports.now) }
{
    let mut lanes = Sequence::new(alloc);
    for report in reports {
        let lane = lane_of(alloc, report)?;
        lanes.add(lane)?;
    }
    Ok(lanes)
}

fn is_handling(did: &Did) -> bool
    ensures { result ≡ is_handling did.now }
{
    matches!(did, Did::From { .. })
}

/// Adds the mark of the event in this row. The error is want of memory.
fn add_mark(
    alloc: Global,
    reports: &[Report],
    row: u32,
    at: MergedAt,
    marks: &mut Sequence<Mark>,
) -> Result<(), AllocError>
    ensures { OnOk result (marks.new ≡ marks.old ++ mark_at reports.now row at) }
{
    let Some(event) = event_at(reports, at) else {
        return Ok(());
    };
    let text = event_words(alloc, event)?;
    marks.add(Mark {
        pid: at.pid.0,
        row,
        stamp: event.stamp,
        handled: is_handling(&event.did),
        text,
    })
}

/// The marks of the events that are shown. The error is want of memory.
fn marks_of(
    alloc: Global,
    reports: &[Report],
    shown: &[MergedAt],
) -> Result<Sequence<Mark>, AllocError>
    requires { length shown.now ≤ MOST_EVENTS }
    ensures { IfOk result (λ marks. marks ≡ by_rows (mark_at reports.now) 0 shown.now) }
{
    let mut marks = Sequence::new(alloc);
    for (row, at) in shown.iter().enumerate() {
        add_mark(alloc, reports, row as u32, *at, &mut marks)?;
    }
    Ok(marks)
}

/// The arrow of the signal with this number of `from`, which the event of the process `pid` in this
/// row handled.
fn arrow_from(
    sources: Sources<'_>,
    row: u32,
    pid: u32,
    event: &Event,
    from: u32,
    number: u64,
) -> Arrow
    requires { length sources.shown.now ≤ MOST_EVENTS }
    ensures { result ≡ arrow_from (ground_of sources.entry) row pid event.now from number
        (sent_by sources.entry.origins.now from pid number) }
{
    let sent = sent_by(sources.origins, from, pid, number);
    let sender = event_of(sources.reports, from, sent);
    Arrow {
        sort: told_sort(sources.script, from, sender, &event.outcome),
        number,
        from,
        start: row_of(sources.shown, from, sent),
        to: pid,
        end: row,
    }
}

/// Adds the arrow of the signal that the event in this row handled, if it did. The error is want of
/// memory.
fn add_arrow(
    sources: Sources<'_>,
    row: u32,
    at: MergedAt,
    arrows: &mut Sequence<Arrow>,
) -> Result<(), AllocError>
    requires { length sources.shown.now ≤ MOST_EVENTS }
    ensures { OnOk result (arrows.new ≡ arrows.old ++ arrow_at (ground_of sources.entry) row at) }
{
    let Some(event) = event_at(sources.reports, at) else {
        return Ok(());
    };
    match &event.did {
        Did::Exec { .. } => Ok(()),
        Did::From { from, number } => {
            arrows.add(arrow_from(sources, row, at.pid.0, event, from.0, *number))
        }
    }
}

/// The arrows of the signals that the events in these rows handled. The error is want of memory.
fn arrows_of(alloc: Global, sources: Sources<'_>) -> Result<Sequence<Arrow>, AllocError>
    requires { length sources.shown.now ≤ MOST_EVENTS }
    ensures { IfOk result (λ arrows. arrows ≡ by_rows (arrow_at (ground_of sources.entry)) 0 sources.entry.shown.now) }
{
    let mut arrows = Sequence::new(alloc);
    for (row, at) in sources.shown.iter().enumerate() {
        add_arrow(sources, row as u32, *at, &mut arrows)?;
    }
    Ok(arrows)
}

/// Adds the arrow of a signal that is queued, where the event that sent it is shown. The error is want
/// of memory.
fn add_stub(
    alloc: Global,
    origins: &[Origin],
    shown: &[MergedAt],
    signal: &Signal,
    stubs: &mut Sequence<Stub>,
) -> Result<(), AllocError>
    requires { length shown.now ≤ MOST_EVENTS }
    ensures { OnOk result (stubs.new ≡ stubs.old ++ stub_of origins.now shown.now signal.now) }
{
    let sent = sent_by(origins, signal.from.0, signal.to.0, signal.number);
    let Some(start) = row_of(shown, signal.from.0, sent) else {
        return Ok(());
    };
    let text = kind_words(alloc, &signal.kind)?;
    stubs.add(Stub {
        sort: sort_of_kind(&signal.kind),
        from: signal.from.0,
        start,
        to: signal.to.0,
        text,
    })
}

/// Adds the arrows of these signals, those of the window. The error is want of memory.
fn add_stubs(
    alloc: Global,
    window: Window,
    origins: &[Origin],
    shown: &[MergedAt],
    queued: &[Signal],
    stubs: &mut Sequence<Stub>,
) -> Result<(), AllocError>
    requires { length shown.now ≤ MOST_EVENTS }
    ensures { OnOk result (stubs.new ≡ stubs.old ++ flat_map (stub_in window origins.now shown.now) queued.now) }
{
    for signal in queued {
        if window.has(signal.stamp) {
            add_stub(alloc, origins, shown, signal, stubs)?;
        }
    }
    Ok(())
}

/// The arrows of the signals that are queued. The error is want of memory.
fn stubs_of(
    alloc: Global,
    window: Window,
    sources: Sources<'_>,
) -> Result<Sequence<Stub>, AllocError>
    requires { length sources.shown.now ≤ MOST_EVENTS }
    ensures { IfOk result (λ stubs. stubs
        ≡ flat_map (stubs_of window sources.entry.origins.now sources.entry.shown.now) sources.entry.reports.now) }
{
    let mut stubs = Sequence::new(alloc);
    for report in sources.reports {
        add_stubs(
            alloc,
            window,
            sources.origins,
            sources.shown,
            report.queued.as_slice(),
            &mut stubs,
        )?;
    }
    Ok(stubs)
}

/// The shapes of the chart. The error is want of memory.
pub(crate) fn chart_of(
    alloc: Global,
    window: Window,
    sources: Sources<'_>,
) -> Result<Chart, AllocError>
    requires { length sources.shown.now ≤ MOST_EVENTS }
    ensures { IfOk result (λ shapes. shapes ≡ chart_of window (ground_of sources.entry)) }
{
    let lanes = lanes_of(alloc, sources.reports)?;
    let marks = marks_of(alloc, sources.reports, sources.shown)?;
    let arrows = arrows_of(alloc, sources)?;
    let stubs = stubs_of(alloc, window, sources)?;
    Ok(Chart {
        count: sources.script.count(),
        rows: sources.shown.len() as u32,
        lanes,
        marks,
        arrows,
        stubs,
    })
}
