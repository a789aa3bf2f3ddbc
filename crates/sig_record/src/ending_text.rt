//! The text of how the processes of a record ended: of the record's text what stands below their events,
//! without stamps and numbers.

ghost use Rattle.std.specs.Prelude.{◌≡◌, ◌++◌, ℕ, List, All, OnOk, OnErr};
ghost use Rattle.std.specs.List.{flat_map};
ghost use Rattle.sig_terms.specs.Putting.{IsPut};
ghost use Rattle.sig_record.specs.RecordText.{head_text};
ghost use Rattle.sig_record.specs.EndText.{left_end, queued_end, end_text, ends_text};
ghost use Rattle.sig_record.specs.Phrases.{IsNarrow};
ghost use Rattle.sig_record.specs.StoredEnds.{IsStoredMessage, IsStoredWaiting, IsStoredEnd, AreStoredEnds};

use crate::kinds::put_spaced_kind;
use crate::printing::{put_byte, put_head, put_pid, put_state, put_term};
use crate::report::{Left, Report};
use sig_kinds::Signal;
use std::alloc::AllocError;

/// What is told of an end: messages, signals, processes.
trait Ending {
    ghost text: { Self → List ℕ };

    ghost IsStored: { Self → Type 0 };

    fn put_ending(&self, into: &mut Vec<u8>) -> Result<(), AllocError>
        ensures text { IsPut into.old.items into.new.items (text self.now) result }
        ensures stored { OnOk result (IsStored self.now) };
}

#[tactic(auto, using(crate::proofs::Fronts::kept_front))]
fn put_endings<E: Ending>(into: &mut Vec<u8>, endings: &[E]) -> Result<(), AllocError>
    ensures text { IsPut into.old.items into.new.items (flat_map E.text endings.now) result }
    ensures stored { OnOk result (All E.IsStored endings.now) }
{
    for ending in endings {
        ending.put_ending(into)?;
    }
    Ok(())
}

impl Ending for Left {
    ghost text = { left_end };

    ghost IsStored = { IsStoredMessage };

    #[tactic(auto, unfolding(crate::specs::EndText::message_text))]
    fn put_ending(&self, into: &mut Vec<u8>) -> Result<(), AllocError> {
        put_term(into, b"left ", &self.message)?;
        put_byte(into, b'\n')
    }
}

impl Ending for Signal {
    ghost text = { queued_end };

    ghost IsStored = { IsStoredWaiting };

    #[tactic(auto, unfolding(crate::specs::EndText::waiting_text))]
    fn put_ending(&self, into: &mut Vec<u8>) -> Result<(), AllocError> {
        put_pid(into, b"queued ", self.from)?;
        put_spaced_kind(into, &self.kind)?;
        put_byte(into, b'\n')
    }
}

/// Which process it is, and the messages that are left.
fn put_left(into: &mut Vec<u8>, report: &Report) -> Result<(), AllocError>
    ensures text { IsPut into.old.items into.new.items
        (head_text report.now.pid.0 report.now.name ++ flat_map left_end report.now.left) result }
    ensures pid { OnOk result (IsNarrow report.now.pid.0) }
    ensures stored { OnOk result (All IsStoredMessage report.now.left) }
{
    put_head(into, report.pid, &report.name)?;
    put_endings(into, report.left.as_slice())
}

/// The same, and the signals that it has not handled.
fn put_waiting(into: &mut Vec<u8>, report: &Report) -> Result<(), AllocError>
    ensures text { IsPut into.old.items into.new.items
        (head_text report.now.pid.0 report.now.name ++ flat_map left_end report.now.left ++
        flat_map queued_end report.now.queued) result }
    ensures pid { OnOk result (IsNarrow report.now.pid.0) }
    ensures left { OnOk result (All IsStoredMessage report.now.left) }
    ensures queued { OnOk result (All IsStoredWaiting report.now.queued) }
{
    put_left(into, report)?;
    put_endings(into, report.queued.as_slice())
}

impl Ending for Report {
    ghost text = { end_text };

    ghost IsStored = { IsStoredEnd };

    #[tactic(auto, unfolding(crate::specs::EndText::end_text))]
    fn put_ending(&self, into: &mut Vec<u8>) -> Result<(), AllocError> {
        put_waiting(into, self)?;
        put_state(into, &self.state)
    }
}

/// Appends the text of how these processes ended: for each its `process` line, a line `left TERM` for
/// each message that is left, a line `queued SENDER KIND` for each signal that it has not handled, and
/// its state line, as they stand in a record's text but without arrival numbers, numbers and stamps.
/// Where it is appended, contracts know besides that pids have their 32 bits and that the terms lie in
/// memory (`stored`). Where memory is refused, `into` is as before.
pub fn print_ends(reports: &[Report], into: &mut Vec<u8>) -> Result<(), AllocError>
    ensures text { OnOk result (into.new.items ≡ into.old.items ++ ends_text reports.now) }
    ensures err { OnErr result (into.new.items ≡ into.old.items) }
    ensures stored { OnOk result (AreStoredEnds reports.now) }
{
    let before = into.len();
    let appended = put_endings(into, reports);
    if appended.is_err() {
        into.truncate(before);
    }
    appended
}
