ghost use Rattle.std.specs.Prelude.{◌≡◌};
ghost use Rattle.std.specs.List.{list_any};
ghost use Rattle.sig_model.specs.PrintedState.{is_late_signal};
ghost use Rattle.sig_record.specs.SettledRecord.{is_cut, ends_late, has_none_or_late, is_settled_report, is_settled};

use crate::report::{Queued, Report};
use sig_kinds::Signal;
use sig_model::{Event, LAST_STAMP, State};

pub(crate) fn is_cut(state: &State) -> bool
    ensures { result ≡ is_cut state.now }
{
    matches!(state, State::Cut)
}

fn ends_late(events: &[Event]) -> bool
    ensures { result ≡ ends_late events.now }
{
    match events.last() {
        Some(event) => LAST_STAMP <= event.stamp,
        None => false,
    }
}

fn is_late(signal: &Signal) -> bool
    ensures { result ≡ is_late_signal signal.now }
{
    LAST_STAMP <= signal.stamp
}

fn any_late(signals: &[Signal]) -> bool
    ensures { result ≡ list_any is_late_signal signals.now }
{
    signals.iter().any(|signal| is_late(signal))
}

fn has_none_or_late(queued: &Queued) -> bool
    ensures { result ≡ has_none_or_late queued.now }
{
    queued.is_empty() || any_late(queued.as_slice())
}

fn is_settled_report(report: &Report) -> bool
    ensures { result ≡ is_settled_report report.now }
{
    is_cut(&report.state) || ends_late(report.events.as_slice()) || has_none_or_late(&report.queued)
}

/// Whether each of the processes is cut, or has no signal to handle or one that it never handles, as its report tells. What
/// its next instruction is no report tells.
pub(crate) fn are_settled(reports: &[Report]) -> bool
    ensures { result ≡ is_settled reports.now }
{
    reports.iter().all(|report| is_settled_report(report))
}
