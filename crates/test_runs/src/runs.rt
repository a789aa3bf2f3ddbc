//! Worked examples of exits, through the top call.

use crate::exits::{EXIT_SIGNALS, EXITS};
use crate::whole::Ran;
use sig_base::OpenGate;
use sig_host::Status;
use std::alloc::{AllocError, Global};
use std::sync::Wait;
use std::thread::Threads;
use test_shared::PLAIN;

/// Whether a run of the script of these lines prints the record of those, each without its first line.
fn prints<R: Threads + Wait + Sync>(
    rt: &R,
    alloc: Global,
    lines: &[u8],
    record: &[u8],
) -> Result<bool, AllocError> {
    let pieces: &[(&[u8], usize)] = &[(b"sigscript 1\n", 1), (lines, 1)];
    let ran = Ran::of(rt, alloc, &PLAIN, pieces, &OpenGate)?;
    let printed = ran.out.held().strip_prefix(b"sigrecord 1\n") == Some(record);
    let prints = printed && ran.status == Status::Done && ran.err.held().is_empty();
    drop(ran);
    Ok(prints)
}

/// The first of these scripts whose run doesn't.
fn first_other<'a, R: Threads + Wait + Sync>(
    rt: &R,
    alloc: Global,
    rows: &[(&'a [u8], &'a [u8])],
) -> Result<Option<&'a [u8]>, AllocError> {
    for (lines, record) in rows {
        if !prints(rt, alloc, lines, record)? {
            return Ok(Some(*lines));
        }
    }
    Ok(None)
}

#[test]
fn exits_give_their_records(rt: HostRuntime) {
    let tables: [&[(&[u8], &[u8])]; 2] = [&EXITS, &EXIT_SIGNALS];
    for rows in tables {
        let other = first_other(&rt, rt.alloc(), rows);
        assert!(rt; matches!(other, Ok(None)), "{other:?}");
    }
}
