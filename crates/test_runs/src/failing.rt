//! Reads and writes that fail, each in turn.

use crate::whole::Ran;
use sig_base::OpenGate;
use sig_host::Status;
use std::alloc::{AllocError, Global};
use std::sync::Wait;
use std::thread::Threads;
use test_shared::{ONE_MESSAGE, ONE_MESSAGE_RECORD, PLAIN, Setting};

/// Whether a run of one message with these streams answers and writes so.
fn ends_so<R: Threads + Wait + Sync>(
    rt: &R,
    alloc: Global,
    setting: &Setting,
    status: Status,
    written: &[u8],
) -> Result<bool, AllocError> {
    let ran = Ran::of(rt, alloc, setting, &[(ONE_MESSAGE, 1)], &OpenGate)?;
    let is_so = ran.status == status && ran.out.held() == written;
    drop(ran);
    Ok(is_so)
}

/// Whether the run whose read of this number fails says so. Each read but the last gives a byte; behind the
/// last it is done.
fn fails_at_read<R: Threads + Wait + Sync>(
    rt: &R,
    alloc: Global,
    read: usize,
) -> Result<bool, AllocError> {
    let setting = Setting {
        piece: 1,
        failing_reads: &[read as u64],
        failing_writes: &[],
        ..PLAIN
    };
    if read <= ONE_MESSAGE.len().saturating_add(1) {
        ends_so(rt, alloc, &setting, Status::ReadFault, b"")
    } else {
        ends_so(rt, alloc, &setting, Status::Done, ONE_MESSAGE_RECORD)
    }
}

/// Whether the run whose write of this number fails says so and has written the bytes before, one at each
/// write; behind the last it is done.
fn fails_at_write<R: Threads + Wait + Sync>(
    rt: &R,
    alloc: Global,
    write: usize,
) -> Result<bool, AllocError> {
    let setting = Setting {
        taken: 1,
        failing_reads: &[],
        failing_writes: &[write as u64],
        ..PLAIN
    };
    match ONE_MESSAGE_RECORD.get(..write.saturating_sub(1)) {
        Some(front) if front.len() < ONE_MESSAGE_RECORD.len() => {
            ends_so(rt, alloc, &setting, Status::WriteFault, front)
        }
        _ => ends_so(rt, alloc, &setting, Status::Done, ONE_MESSAGE_RECORD),
    }
}

/// Whether a run of these words whose `err` fails at its first call is refused for its words.
fn is_usage_untold<R: Threads + Wait + Sync>(rt: &R, alloc: Global) -> Result<bool, AllocError> {
    let setting = Setting {
        words: &["--workers", "0"],
        room: 0,
        ..PLAIN
    };
    ends_so(rt, alloc, &setting, Status::Usage, b"")
}

#[test]
fn each_failing_call_ends_the_run(rt: HostRuntime) {
    for call in 1..=ONE_MESSAGE_RECORD.len().saturating_add(1) {
        let read = fails_at_read(&rt, rt.alloc(), call);
        assert!(rt; read == Ok(true), "{call}");
        let written = fails_at_write(&rt, rt.alloc(), call);
        assert!(rt; written == Ok(true), "{call}");
    }
    let untold = is_usage_untold(&rt, rt.alloc());
    assert!(rt; untold == Ok(true));
}

/// Whether a run of one message with these streams answers, prints and tells so.
fn tells<R: Threads + Wait + Sync>(
    rt: &R,
    alloc: Global,
    setting: &Setting,
    ending: (Status, &[u8], &[u8]),
) -> Result<bool, AllocError> {
    let (status, record, told) = ending;
    let ran = Ran::of(rt, alloc, setting, &[(ONE_MESSAGE, 1)], &OpenGate)?;
    let is_so = ran.status == status && ran.out.held() == record && ran.err.held() == told;
    drop(ran);
    Ok(is_so)
}

/// The numbers of the reads and of the writes that fail in a run of one message, and what it answers,
/// writes and tells.
const FAULTS: [(&[u64], &[u64], Status, &[u8], &[u8]); 2] = [
    (&[2], &[], Status::ReadFault, b"", b"sigrun: read fault\n"),
    (
        &[],
        &[2],
        Status::WriteFault,
        b"sigrecord ",
        b"sigrun: write fault\n",
    ),
];

#[test]
fn faults_end_a_run(rt: HostRuntime) {
    for (failing_reads, failing_writes, status, record, told) in FAULTS {
        let setting = Setting {
            piece: 10,
            failing_reads,
            failing_writes,
            ..PLAIN
        };
        let ends = tells(&rt, rt.alloc(), &setting, (status, record, told));
        assert!(rt; ends == Ok(true), "{status:?}");
    }
    assert!(rt; Status::ReadFault.number() == 3 && Status::WriteFault.number() == 4);
    assert_eq!(rt; Status::Memory.number(), 5);
}
