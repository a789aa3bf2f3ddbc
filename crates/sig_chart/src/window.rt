//! The events that are drawn.

ghost use Rattle.std.specs.Prelude.{◌≡◌, IfOk};
ghost use Rattle.std.specs.List.{filter};
ghost use Rattle.sig_chart.specs.Shown.{is_within, is_shown};

use sig_record::{MergedAt, Report, event_at};
use std::alloc::{AllocError, Global};

/// The most events of a chart.
pub const MOST_EVENTS: usize = 2000;

/// The stamps whose events are drawn, both ends included.
#[derive(Clone, Copy, PartialEq, Eq)]
pub struct Window {
    /// The first.
    pub from: u64,
    /// The last.
    pub to: u64,
}

impl Window {
    /// Whether the stamp is one of these.
    pub fn has(self, stamp: u64) -> bool
        ensures { result ≡ is_within self stamp }
    {
        self.from <= stamp && stamp <= self.to
    }
}

/// Whether the event is one of the window; one that isn't there counts as of the stamp 0.
fn is_shown(reports: &[Report], window: Window, at: MergedAt) -> bool
    ensures { result ≡ is_shown reports.now window at }
{
    match event_at(reports, at) {
        Some(event) => window.has(event.stamp),
        None => window.has(0),
    }
}

/// Those of the events that are of the window, in their order. The error is want of memory.
pub(crate) fn shown_of(
    alloc: Global,
    reports: &[Report],
    window: Window,
    order: &[MergedAt],
) -> Result<Vec<MergedAt>, AllocError>
    ensures { IfOk result (λ shown. shown.items ≡ filter (is_shown reports.now window) order.now) }
{
    let mut shown = Vec::new(alloc);
    for at in order {
        if is_shown(reports, window, *at) {
            shown.push(*at)?;
        }
    }
    Ok(shown)
}
