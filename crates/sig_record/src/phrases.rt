//! What a record says of an event and of a kind of signal, without stamps, for those who print no
//! whole record.

ghost use Rattle.std.specs.Prelude.{◌≡◌, ◌++◌, OnOk, OnErr};
ghost use Rattle.sig_terms.specs.Putting.{IsPut};
ghost use Rattle.sig_record.specs.EventRows.{did_text};
ghost use Rattle.sig_record.specs.KindRows.{kind_text};
ghost use Rattle.sig_record.specs.RecordText.{event_words};

use crate::kinds::put_kind;
use crate::printing::{put_numbered, put_pid, put_spaced_number, put_spaced_outcome};
use sig_kinds::Kind;
use sig_model::{Did, Event};
use std::alloc::AllocError;

fn put_did(into: &mut Vec<u8>, did: &Did) -> Result<(), AllocError>
    ensures { IsPut into.old.items into.new.items (did_text did.now) result }
{
    match did {
        Did::Exec { place } => put_numbered(into, b"exec ", u64::from(*place)),
        Did::From { from, number } => {
            put_pid(into, b"from ", *from)?;
            put_spaced_number(into, *number)
        }
    }
}

fn put_event_words(into: &mut Vec<u8>, event: &Event) -> Result<(), AllocError>
    ensures { IsPut into.old.items into.new.items (event_words event.now) result }
{
    put_did(into, &event.did)?;
    put_spaced_outcome(into, &event.outcome)
}

/// Appends what a record's line says of an event behind its stamp: what the process did, and what came
/// of it. Where memory is refused, `into` is as before.
pub fn print_event_words(event: &Event, into: &mut Vec<u8>) -> Result<(), AllocError>
    ensures text { OnOk result (into.new.items ≡ into.old.items ++ event_words event.now) }
    ensures err { OnErr result (into.new.items ≡ into.old.items) }
{
    let before = into.len();
    let appended = put_event_words(into, event);
    if appended.is_err() {
        into.truncate(before);
    }
    appended
}

/// Appends what a record says of a kind of signal: its word, and what the signal carries. Where memory is
/// refused, `into` is as before.
pub fn print_kind(kind: &Kind, into: &mut Vec<u8>) -> Result<(), AllocError>
    ensures text { OnOk result (into.new.items ≡ into.old.items ++ kind_text kind.now) }
    ensures err { OnErr result (into.new.items ≡ into.old.items) }
{
    let before = into.len();
    let appended = put_kind(into, kind);
    if appended.is_err() {
        into.truncate(before);
    }
    appended
}
