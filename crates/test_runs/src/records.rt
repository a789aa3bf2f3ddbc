//! Records as values: merged, sorted, and read back.

use crate::workers::count;
use sig_process::Crew;
use sig_record::{MergedAt, Record, RecordError, print_record, read_record, reread};
use sig_script::{ScriptError, read_script};
use sig_workers::run_one;
use std::alloc::{AllocError, Global};
use test_shared::{ONE_MESSAGE, ONE_MESSAGE_RECORD};

/// The record of the script's run of one worker.
fn record_of(alloc: Global, text: &[u8]) -> Result<Record, ScriptError> {
    let script = read_script(alloc, text)?;
    let crew = run_one(Crew::open(alloc, &script)?)?;
    Ok(Record::gather(alloc, crew)?)
}

/// A script in which process 1 is cut before it has handled one signal of each of the others, and one of
/// its own. That of process 0 comes last.
const SENDERS: &[u8] = b"sigscript 1\nturns 3\n\
    process b\nreceive\non go\nend\nsend @hub b1\nsend @hub b2\n\
    process hub\nsend @hub h1\nsend @hub h2\nsend @hub h3\n\
    process c\nsend @b go\nset X 1\nsend @hub c1\n\
    process d0\nset X 1\nset X 2\nsend @hub d\n\
    process d1\nset X 1\nset X 2\nsend @hub d\n\
    process d2\nset X 1\nset X 2\nsend @hub d\n\
    process d3\nset X 1\nset X 2\nsend @hub d\n\
    process d4\nset X 1\nset X 2\nsend @hub d\n\
    process d5\nset X 1\nset X 2\nsend @hub d\n\
    process d6\nset X 1\nset X 2\nsend @hub d\n\
    process d7\nset X 1\nset X 2\nsend @hub d\n\
    process d8\nset X 1\nset X 2\nsend @hub d\n\
    process d9\nset X 1\nset X 2\nsend @hub d\n\
    process d10\nset X 1\nset X 2\nsend @hub d\n\
    process d11\nset X 1\nset X 2\nsend @hub d\n\
    process d12\nset X 1\nset X 2\nsend @hub d\n\
    process d13\nset X 1\nset X 2\nsend @hub d\n\
    process d14\nset X 1\nset X 2\nsend @hub d\n\
    process d15\nset X 1\nset X 2\nsend @hub d\n\
    process d16\nset X 1\nset X 2\nsend @hub d\n\
    process d17\nset X 1\nset X 2\nsend @hub d\n\
    process d18\nset X 1\nset X 2\nsend @hub d\n\
    process d19\nset X 1\nset X 2\nsend @hub d\n\
    process d20\nset X 1\nset X 2\nsend @hub d\n\
    process d21\nset X 1\nset X 2\nsend @hub d\n\
    process d22\nset X 1\nset X 2\nsend @hub d\n\
    process d23\nset X 1\nset X 2\nsend @hub d\n";

/// The pid, the place and the stamp of the events of one message, in their merged order.
const ONE_MESSAGE_EVENTS: [(u32, u64, Option<u64>); 5] = [
    (0, 0, Some(1)),
    (0, 1, Some(2)),
    (1, 0, Some(2)),
    (1, 1, Some(3)),
    (1, 2, Some(4)),
];

/// The stamp of an event of the record.
fn stamp_of(record: &Record, at: &MergedAt) -> Option<u64> {
    let report = record.reports().get(at.pid.0 as usize)?;
    let event = report.events.as_slice().get(at.place as usize)?;
    Some(event.stamp)
}

/// The text of the record.
fn printed(alloc: Global, record: &Record) -> Result<Vec<u8>, AllocError> {
    let mut text = Vec::new(alloc);
    print_record(record, &mut text)?;
    Ok(text)
}

/// Whether this is the record's text.
fn prints(alloc: Global, record: &Record, expected: &[u8]) -> Result<bool, AllocError> {
    let text = printed(alloc, record)?;
    let is_so = text.as_slice() == expected;
    drop(text);
    Ok(is_so)
}

/// Whether the order is that of the events of one message.
fn is_of_one_message(record: &Record, order: &[MergedAt]) -> bool {
    for (at, event) in order.iter().zip(ONE_MESSAGE_EVENTS) {
        if (at.pid.0, at.place, stamp_of(record, at)) != event {
            return false;
        }
    }
    order.len() == ONE_MESSAGE_EVENTS.len()
}

/// Whether the events of one message are merged so.
fn is_merged(alloc: Global, record: &Record) -> Result<bool, AllocError> {
    let order = record.merge(alloc)?;
    let merged = is_of_one_message(record, order.as_slice());
    drop(order);
    Ok(merged)
}

/// Whether they are, and their record is settled and printed so.
fn is_one_message(alloc: Global, record: &Record) -> Result<bool, AllocError> {
    let merged = is_merged(alloc, record)?;
    Ok(merged && record.settled() && prints(alloc, record, ONE_MESSAGE_RECORD)?)
}

/// The same of a run of it.
fn one_message_is_merged(alloc: Global) -> Result<bool, ScriptError> {
    let record = record_of(alloc, ONE_MESSAGE)?;
    let merged = is_one_message(alloc, &record);
    drop(record);
    Ok(merged?)
}

/// The place of the first signal in the queue of process 1 that isn't the only one of the sender of
/// that number, but for those of the first two senders. Where all are, it is how many there are.
fn first_other_queued(record: &Record) -> Option<usize> {
    let queued = &record.reports().get(1)?.queued;
    for (place, signal) in queued.as_slice().iter().enumerate() {
        let number = match place {
            0 => 2,
            1 => 3,
            _ => 1,
        };
        if signal.from.0 as usize != place || signal.number != number {
            return Some(place);
        }
    }
    Some(queued.as_slice().len())
}

/// The same of the script of these senders.
fn first_other_of_many(alloc: Global) -> Result<Option<usize>, ScriptError> {
    let record = record_of(alloc, SENDERS)?;
    let place = first_other_queued(&record);
    drop(record);
    Ok(place)
}

#[test]
fn records_are_merged_and_sorted(rt: HostRuntime) {
    let merges = one_message_is_merged(rt.alloc());
    assert!(rt; matches!(merges, Ok(true)), "{merges:?}");
    let place = first_other_of_many(rt.alloc());
    assert!(rt; matches!(place, Ok(Some(27))), "{place:?}");
}

/// Whether the record is printed so, and so is the one that is read of its text.
fn both_print(alloc: Global, record: &Record, bytes: &[u8]) -> Result<bool, RecordError> {
    let again = reread(alloc, record)?;
    let printed = prints(alloc, &again, bytes);
    drop(again);
    Ok(printed? && prints(alloc, record, bytes)?)
}

/// The same of a record and its text.
fn is_printed_again(alloc: Global, bytes: &[u8]) -> Result<bool, RecordError> {
    let record = read_record(alloc, bytes)?;
    let print = both_print(alloc, &record, bytes);
    drop(record);
    print
}

#[test]
fn a_record_is_read_again(rt: HostRuntime) {
    let printed = is_printed_again(rt.alloc(), ONE_MESSAGE_RECORD);
    assert!(rt; matches!(printed, Ok(true)), "{printed:?}");
}

/// Whether the front of the record of one message that has this length is told as it is: as the text of a
/// record, where that is of no process or of the first one, or as none at the line behind those that are whole.
fn front_is_told(alloc: Global, length: usize) -> bool {
    let Some(front) = ONE_MESSAGE_RECORD.get(..length) else {
        return false;
    };
    match read_record(alloc, front) {
        Ok(_) => length == 12 || length == 86,
        Err(RecordError::BadRecord { line }) => {
            length != 12 && length != 86 && line == (count(front, b"\n") as u64).saturating_add(1)
        }
        Err(RecordError::Memory) => false,
    }
}

#[test]
fn fronts_of_a_record_are_told(rt: HostRuntime) {
    for length in 0..ONE_MESSAGE_RECORD.len() {
        let told = front_is_told(rt.alloc(), length);
        assert!(rt; told, "{length}");
    }
}
