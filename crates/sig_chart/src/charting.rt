//! The chart of a record.

ghost use Rattle.std.specs.Prelude.{◌≡◌, ◌≤◌, length, IfOk, MatchResult};
ghost use Rattle.sig_chart.specs.Drawn.{AreShown, IsChart, IsRefused};
ghost use Rattle.sig_chart.specs.Shapes.{ground, chart_of};
ghost use Rattle.sig_svg.specs.Svg.{chart_text};

use crate::error::ChartError;
use crate::laying::chart_of;
use crate::sources::Sources;
use crate::window::{MOST_EVENTS, Window, shown_of};
use sig_model::Origins;
use sig_program::Script;
use sig_record::{MergedAt, Record};
use sig_svg::draw;
use std::alloc::{AllocError, Global};

/// The events of the window, in the order of the record's events. The error is want of memory.
fn events_of(alloc: Global, told: &Record, window: Window) -> Result<Vec<MergedAt>, AllocError>
    ensures { IfOk result (λ shown. AreShown told.now window shown.items) }
{
    let order = told.merge(alloc)?;
    shown_of(alloc, told.reports(), window, order.as_slice())
}

/// The chart of the record as one SVG text: a lane for each process; a mark for each event whose stamp
/// is in the window, in the order of the record's events, by stamp and then pid; an arrow for each
/// signal that one of these events handled, from the event that sent it, which its origin names, or from
/// above where that isn't in the window; and one without an end for each signal that one of them sent
/// and that is still queued.
///
/// `TooManyEvents` exactly where the window has more than [`MOST_EVENTS`] events; `Memory` is want of
/// memory. The arrows are those of the run where the origins are, as `replay` of sig_check gives them.
/// It takes time in proportion to the events of the record, and for each event of the window in
/// proportion to the origins.
pub fn chart(
    alloc: Global,
    script: &Script,
    told: &Record,
    origins: &Origins,
    window: Window,
) -> Result<Vec<u8>, ChartError>
    ensures { MatchResult result (λ text. IsChart script.now told.now origins.now window text.items) (IsRefused told.now window) }
{
    let shown = events_of(alloc, told, window)?;
    if shown.len() > MOST_EVENTS {
        return Err(ChartError::TooManyEvents);
    }
    let sources = Sources {
        script,
        reports: told.reports(),
        origins: origins.as_slice(),
        shown: shown.as_slice(),
    };
    let shapes = chart_of(alloc, window, sources)?;
    let text = draw(alloc, &shapes)?;
    Ok(text)
}
