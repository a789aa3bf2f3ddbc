//! What is looked up of a record, a script and origins.

ghost use Rattle.std.specs.Prelude.{◌≡◌, ◌≤◌, length, option_copied};
ghost use Rattle.sig_chart.specs.Finding.{event_of, instr_at, is_of, sent_by, is_event, row_of};

use crate::window::MOST_EVENTS;
use sig_model::{Did, Event, Origin};
use sig_program::{Instr, Script};
use sig_record::{MergedAt, Report, event_at};
use sig_terms::Pid;

/// The event of a process with this number, from 1, if there is one.
pub(crate) fn event_of(reports: &[Report], pid: u32, event: u64) -> Option<&Event>
    ensures { option_copied result ≡ event_of reports.now pid event }
{
    if event == 0 {
        return None;
    }
    let at = MergedAt {
        pid: Pid(pid),
        place: event - 1,
    };
    event_at(reports, at)
}

/// The instruction that was executed, where the script has one at that place.
pub(crate) fn instr_at<'a>(script: &'a Script, pid: u32, did: &Did) -> Option<&'a Instr>
    ensures { option_copied result ≡ instr_at script.now pid did.now }
{
    match did {
        Did::Exec { place } => {
            let process = script.proc(pid)?;
            process.instrs.get(place.saturating_sub(1) as usize)
        }
        Did::From { .. } => None,
    }
}

/// Whether this is the origin of that signal.
fn is_of(origin: &Origin, from: u32, to: u32, number: u64) -> bool
    ensures { result ≡ is_of origin.now from to number }
{
    origin.from.0 == from && origin.to.0 == to && origin.number == number
}

/// The number of the event that sent this signal, among its sender's events, from 1: 0 where no origin
/// is that of the signal.
pub(crate) fn sent_by(origins: &[Origin], from: u32, to: u32, number: u64) -> u64
    ensures { result ≡ sent_by origins.now from to number }
{
    for origin in origins {
        if is_of(origin, from, to, number) {
            return origin.event;
        }
    }
    0
}

/// Whether it is the event of this process with that number, from 1.
fn is_event(at: MergedAt, pid: u32, event: u64) -> bool
    ensures { result ≡ is_event pid event at }
{
    at.pid.0 == pid && event != 0 && at.place == event - 1
}

/// The row of the event of this process with that number, from 1, where it is one of those that are shown.
pub(crate) fn row_of(shown: &[MergedAt], pid: u32, event: u64) -> Option<u32>
    requires { length shown.now ≤ MOST_EVENTS }
    ensures { result ≡ row_of 0 shown.now pid event }
{
    for (row, at) in shown.iter().enumerate() {
        if is_event(*at, pid, event) {
            return Some(row as u32);
        }
    }
    None
}
