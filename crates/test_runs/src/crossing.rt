//! Signals of a link that cross, with several workers: the two processes agree at the end, whatever the order in
//! which they were handled.

use crate::whole::Ran;
use sig_base::OpenGate;
use sig_host::Status;
use std::alloc::{AllocError, Global};
use std::sync::Wait;
use std::thread::Threads;
use test_shared::{CHECK, Called, PLAIN, Program, Setting, Tool};

/// Each of two linked processes ends the link, and one of them then sets it up again.
const CROSSING: &[u8] =
    b"sigscript 1\nprocess a\nlink @b\nsend @b go\nunlink @b\nlink @b\nreceive\non never\nend\n\
      process b\nreceive\non go\nend\nunlink @a\nreceive\non never\nend\n";

const FOUR_WORKERS: Setting<'static, 'static> = Setting {
    words: &["--workers", "4"],
    ..PLAIN
};

/// The command `links` of the tool.
const LINKS: Setting<'static, 'static> = Setting {
    words: &["links"],
    ..CHECK
};

/// Whether these are the links of a record of the script.
fn has_links(alloc: Global, record: &[u8], links: &[u8]) -> Result<bool, AllocError> {
    Called::<Tool>::ends_so(alloc, &LINKS, CROSSING, record, (Tool::DONE, links, b""))
}

/// Whether the run comes to rest with the link or without it.
fn is_alike(alloc: Global, ran: &Ran) -> Result<bool, AllocError> {
    let record = ran.out.held();
    let alike = has_links(alloc, record, b"")? || has_links(alloc, record, b"link 0 1\n")?;
    Ok(ran.status == Status::Done && alike)
}

/// The same of a run with four workers.
fn ends_alike<R: Threads + Wait + Sync>(rt: &R, alloc: Global) -> Result<bool, AllocError> {
    let ran = Ran::of(rt, alloc, &FOUR_WORKERS, &[(CROSSING, 1)], &OpenGate)?;
    let alike = is_alike(alloc, &ran);
    drop(ran);
    alike
}

#[test]
fn processes_agree_where_signals_cross(rt: HostRuntime) {
    let alike = ends_alike(&rt, rt.alloc());
    assert!(rt; alike == Ok(true));
}
