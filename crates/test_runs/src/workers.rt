//! Workers that run at the same time, through the top call.

use crate::whole::Ran;
use sig_base::{Gate, Point};
use sig_host::Status;
use std::alloc::{AllocError, Global};
use std::sync::Wait;
use std::sync::atomic::{AtomicBool, Ordering};
use std::thread;
use std::thread::Threads;
use test_shared::{PLAIN, Setting};

/// How often a gate looks before it gives up. It lets other threads run behind each look.
pub(crate) const LOOKS: u64 = 10_000_000;

/// How often the piece stands in the text.
pub(crate) fn count(text: &[u8], piece: &[u8]) -> usize {
    let mut found = 0usize;
    for at in 0..text.len() {
        if text[at..].starts_with(piece) {
            found = found.saturating_add(1);
        }
    }
    found
}

/// Looks until the flag is up. Whether it was, before the gate gave up.
pub(crate) fn look(flag: &AtomicBool) -> bool {
    for _ in 0..LOOKS {
        if flag.load(Ordering::SeqCst) {
            return true;
        }
        thread::yield_now();
    }
    false
}

/// Whether a run of this text with these arguments and this gate, ends well.
pub(crate) fn ends_well<R: Threads + Wait + Sync, G: Gate>(
    rt: &R,
    alloc: Global,
    words: &[&str],
    text: &[u8],
    gate: &G,
) -> Result<bool, AllocError> {
    let setting = Setting { words, ..PLAIN };
    let ran = Ran::of(rt, alloc, &setting, &[(text, 1)], gate)?;
    let ended = ran.status == Status::Done;
    drop(ran);
    Ok(ended)
}

/// A gate that holds process 1 at its first instruction until process 0 has executed one, and
/// process 0 at that one until process 1 has handled a signal.
#[derive(Drop)]
struct HoldBoth {
    /// Process 0 has executed an instruction.
    executed: AtomicBool,
    /// Process 1 has handled a signal.
    handled: AtomicBool,
    /// Process 0 was held.
    held_first: AtomicBool,
    /// Process 1 was held.
    held_second: AtomicBool,
    /// A hold was given up.
    gave_up: AtomicBool,
}

impl HoldBoth {
    fn new() -> HoldBoth {
        HoldBoth {
            executed: AtomicBool::new(false),
            handled: AtomicBool::new(false),
            held_first: AtomicBool::new(false),
            held_second: AtomicBool::new(false),
            gave_up: AtomicBool::new(false),
        }
    }

    /// Holds, the first time, until the flag is up.
    fn hold(&self, held: &AtomicBool, flag: &AtomicBool) {
        if !held.swap(true, Ordering::SeqCst) && !look(flag) {
            self.gave_up.store(true, Ordering::SeqCst);
        }
    }
}

impl Gate for HoldBoth {
    fn at(&self, _worker: u32, pid: u32, point: Point) {
        match (pid, point) {
            (0, Point::Executed) => {
                self.executed.store(true, Ordering::SeqCst);
                self.hold(&self.held_first, &self.handled);
            }
            (1, Point::Executed) => self.hold(&self.held_second, &self.executed),
            (1, Point::Handled) => self.handled.store(true, Ordering::SeqCst),
            _ => (),
        }
    }
}

const OVERLAP: &[u8] =
    b"sigscript 1\nprocess a\nsend @b go\nprocess b\nset X 1\nreceive\non go\nend\n";

#[test]
fn workers_overlap(rt: HostRuntime) {
    let gate = HoldBoth::new();
    let words: &[&str] = &["--workers", "2"];
    assert!(rt; ends_well(&rt, rt.alloc(), words, OVERLAP, &gate) == Ok(true));
    assert!(rt; gate.held_first.load(Ordering::SeqCst));
    assert!(rt; gate.held_second.load(Ordering::SeqCst));
    assert!(rt; !gate.gave_up.load(Ordering::SeqCst));
}
