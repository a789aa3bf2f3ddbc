//! What a gate sees of rounds: which workers worked, how many events a round gave them, and which way
//! their signals went.

use crate::workers::{LOOKS, ends_well, look};
use sig_base::{Gate, Point};
use std::alloc::Global;
use std::sync::atomic::{AtomicBool, AtomicU64, Ordering};
use std::sync::{OnceLock, Wait};
use std::thread;
use std::thread::Threads;
use test_shared::ONE_MESSAGE;

/// A gate that keeps which workers executed an instruction: bit w is worker w's.
#[derive(Drop)]
struct Workers {
    bits: AtomicU64,
}

impl Gate for Workers {
    fn at(&self, worker: u32, _pid: u32, point: Point) {
        if point == Point::Executed && worker < 64 {
            self.bits.fetch_or(1 << worker, Ordering::SeqCst);
        }
    }
}

/// Sixteen processes, each of which executes one instruction.
const SIXTEEN: &[u8] = b"sigscript 1\nprocess a\nset X 1\nprocess b\nset X 1\nprocess c\nset X 1\n\
    process d\nset X 1\nprocess e\nset X 1\nprocess f\nset X 1\nprocess g\nset X 1\nprocess h\nset X 1\n\
    process i\nset X 1\nprocess j\nset X 1\nprocess k\nset X 1\nprocess l\nset X 1\nprocess m\nset X 1\n\
    process n\nset X 1\nprocess o\nset X 1\nprocess p\nset X 1\n";

/// How many workers are asked for, and the bits of all of them.
const CREWS: [(&str, u64); 4] = [("2", 0x3), ("3", 0x7), ("5", 0x1f), ("16", 0xffff)];

/// The bits of the workers that worked at sixteen processes, or `None` where the run ends otherwise.
fn workers_of<R: Threads + Wait + Sync>(rt: &R, alloc: Global, workers: &str) -> Option<u64> {
    let gate = Workers {
        bits: AtomicU64::new(0),
    };
    let words = ["--workers", workers];
    let ended = ends_well(rt, alloc, words.as_slice(), SIXTEEN, &gate) == Ok(true);
    ended.then(|| gate.bits.load(Ordering::SeqCst))
}

#[test]
fn as_many_workers_work_as_are_asked_for(rt: HostRuntime) {
    for (workers, bits) in CREWS {
        assert_eq!(rt;
            workers_of(&rt, rt.alloc(), workers),
            Some(bits),
            "{workers}"
        );
    }
}

/// How many instructions each process of [`TWO_LOOPS`] executes.
const INSTRUCTIONS: u64 = 200;

/// Of a process that executes an instruction more in each pass, the round in which it executes the one
/// after so many: how many it had executed when that round began, and how many it has when it ends.
/// The first round gives as many as the quota says, and each later one twice as many as the one before.
fn round_of(quota: u64, before: u64) -> (u64, u64) {
    let mut begin = 0u64;
    let mut end = quota;
    for _round in 0..64 {
        if before < end {
            return (begin, end);
        }
        let length = end.saturating_sub(begin).saturating_mul(2);
        begin = end;
        end = begin.saturating_add(length);
    }
    (begin, end)
}

/// Whether the count comes to so many, before the looking is given up.
fn comes_to(count: &AtomicU64, least: u64) -> bool {
    for _look in 0..LOOKS {
        if count.load(Ordering::SeqCst) >= least {
            return true;
        }
        thread::yield_now();
    }
    false
}

/// A gate that holds process 0 at its first instruction of each round until process 1 has executed as
/// many as the quota of that round says, and that sees whether one of the two was ever in a round
/// before the other had executed all of the rounds before.
#[derive(Drop)]
struct Ahead {
    /// The quota of the first round.
    quota: u64,
    /// How many instructions each has executed.
    executed: [AtomicU64; 2],
    /// A hold was given up.
    gave_up: AtomicBool,
    /// One was in a round too early.
    too_far: AtomicBool,
}

impl Ahead {
    fn new(quota: u64) -> Ahead {
        Ahead {
            quota,
            executed: [AtomicU64::new(0), AtomicU64::new(0)],
            gave_up: AtomicBool::new(false),
            too_far: AtomicBool::new(false),
        }
    }

    /// Counts an instruction of the first one, and looks whether the other has executed all of the
    /// rounds before. Gives how many it has at the round's end, where the instruction was its first.
    fn count(&self, own: &AtomicU64, other: &AtomicU64) -> Option<u64> {
        let before = own.fetch_add(1, Ordering::SeqCst);
        let (begin, end) = round_of(self.quota, before);
        if other.load(Ordering::SeqCst) < begin {
            self.too_far.store(true, Ordering::SeqCst);
        }
        (before == begin).then_some(end.min(INSTRUCTIONS))
    }

    /// Whether both executed all, none too early, and the rounds gave process 1 their quotas.
    fn is_right(&self) -> bool {
        let [first, second] = &self.executed;
        first.load(Ordering::SeqCst) == INSTRUCTIONS
            && second.load(Ordering::SeqCst) == INSTRUCTIONS
            && !self.gave_up.load(Ordering::SeqCst)
            && !self.too_far.load(Ordering::SeqCst)
    }
}

impl Gate for Ahead {
    fn at(&self, _worker: u32, pid: u32, point: Point) {
        let [first, second] = &self.executed;
        match (pid, point) {
            (0, Point::Executed) => {
                if let Some(end) = self.count(first, second)
                    && !comes_to(second, end)
                {
                    self.gave_up.store(true, Ordering::SeqCst);
                }
            }
            (1, Point::Executed) => {
                self.count(second, first);
            }
            _ => (),
        }
    }
}

/// Two processes that execute 200 instructions each, and send nothing.
const TWO_LOOPS: &[u8] =
    b"sigscript 1\nturns 200\nprocess a\nlabel l\ngoto l\nprocess b\nlabel l\ngoto l\n";

/// Whether rounds of two workers give each as many events as the quotas say: in the first round that
/// which is given, and in each later one twice as many as in the one before.
fn keeps_quota<R: Threads + Wait + Sync>(
    rt: &R,
    alloc: Global,
    quota: u32,
    words: &[&str],
) -> bool {
    let gate = Ahead::new(quota as u64);
    let ended = ends_well(rt, alloc, words, TWO_LOOPS, &gate) == Ok(true);
    ended && gate.is_right()
}

/// The quota that is asked for, with the one that stands where none is.
const QUOTAS: [(&[&str], u32); 5] = [
    (&["--workers", "2", "--quota", "1"], 1),
    (&["--workers", "2", "--quota", "3"], 3),
    (&["--workers", "2", "--quota", "10"], 10),
    (&["--workers", "2"], 64),
    (&["--workers", "2", "--quota", "200"], 200),
];

#[test]
fn rounds_give_quotas_that_double(rt: HostRuntime) {
    for (words, quota) in QUOTAS {
        assert!(rt; keeps_quota(&rt, rt.alloc(), quota, words), "{words:?}");
    }
}

/// A gate that keeps the first three puts, and holds process 1 at its first instruction until so many
/// have been made.
#[derive(Drop)]
struct Puts {
    /// The sender of each, and the buffer that its signal went to.
    made: [OnceLock<(u32, Option<u8>)>; 3],
    wanted: u64,
    count: AtomicU64,
    /// As many have been made.
    all: AtomicBool,
    /// The hold was given up.
    gave_up: AtomicBool,
}

impl Puts {
    fn new(wanted: u64) -> Puts {
        Puts {
            made: [OnceLock::new(), OnceLock::new(), OnceLock::new()],
            wanted,
            count: AtomicU64::new(0),
            all: AtomicBool::new(false),
            gave_up: AtomicBool::new(false),
        }
    }

    /// Whether process 0 made these puts and no others, into these buffers.
    fn are(&self, buffers: &[Option<u8>]) -> bool {
        let mut right = self.count.load(Ordering::SeqCst) == buffers.len() as u64;
        for (put, buffer) in self.made.iter().zip(buffers) {
            right &= put.get().copied() == Some((0, *buffer));
        }
        right && !self.gave_up.load(Ordering::SeqCst)
    }
}

impl Gate for Puts {
    fn at(&self, _worker: u32, pid: u32, point: Point) {
        match point {
            Point::Put { buffer } => {
                let at = self.count.fetch_add(1, Ordering::SeqCst);
                if let Some(put) = self.made.get(at as usize) {
                    let _ = put.try_set((pid, buffer));
                }
                self.all
                    .store(at.saturating_add(1) >= self.wanted, Ordering::SeqCst);
            }
            Point::Executed if pid == 1 && !look(&self.all) => {
                self.gave_up.store(true, Ordering::SeqCst);
            }
            _ => (),
        }
    }
}

/// A process sends three messages to one that executes an instruction of its own meanwhile.
const THREE_MESSAGES: &[u8] =
    b"sigscript 1\nprocess a\nsend @b x\nsend @b y\nsend @b z\nprocess b\nset X 1\nstop\n";

/// The script, the policy, and where the puts of process 0 go: into its buffer, or into the outer queue.
const POLICIES: [(&[u8], &str, &[Option<u8>]); 7] = [
    (ONE_MESSAGE, "never", &[None]),
    (ONE_MESSAGE, "always", &[Some(0)]),
    (THREE_MESSAGES, "never", &[None, None, None]),
    (THREE_MESSAGES, "auto", &[None, None, None]),
    (THREE_MESSAGES, "always", &[Some(0), Some(0), Some(0)]),
    (THREE_MESSAGES, "churn:1", &[None, Some(0), Some(0)]),
    (THREE_MESSAGES, "churn:2", &[None, None, Some(0)]),
];

/// Whether with this policy the puts of the script go so.
fn put_into<R: Threads + Wait + Sync>(
    rt: &R,
    alloc: Global,
    script: &[u8],
    policy: &str,
    buffers: &[Option<u8>],
) -> bool {
    let gate = Puts::new(buffers.len() as u64);
    let words = ["--workers", "2", "--buffers", policy];
    let ended = ends_well(rt, alloc, words.as_slice(), script, &gate) == Ok(true);
    ended && gate.are(buffers)
}

#[test]
fn workers_put_as_the_policy_says(rt: HostRuntime) {
    for (script, policy, buffers) in POLICIES {
        assert!(rt;
            put_into(&rt, rt.alloc(), script, policy, buffers),
            "{policy}"
        );
    }
}

/// A gate that counts the puts of process 1, and keeps how many it was told of when that process had
/// handled its second signal.
#[derive(Drop)]
struct PutsBefore {
    count: AtomicU64,
    handled: AtomicU64,
    before: AtomicU64,
}

impl Gate for PutsBefore {
    fn at(&self, _worker: u32, pid: u32, point: Point) {
        match (pid, point) {
            (1, Point::Put { buffer: _ }) => {
                self.count.fetch_add(1, Ordering::SeqCst);
            }
            (1, Point::Handled) => {
                if self.handled.fetch_add(1, Ordering::SeqCst) == 1 {
                    let count = self.count.load(Ordering::SeqCst);
                    self.before.store(count, Ordering::SeqCst);
                }
            }
            _ => (),
        }
    }
}

/// Process 1 handles a link, and then an unlink, which it acknowledges.
const ACKNOWLEDGED: &[u8] =
    b"sigscript 1\nprocess a\nlink @b\nunlink @b\nprocess b\nreceive\non never\nend\n";

#[test]
fn workers_put_before_they_tell_of_the_handling(rt: HostRuntime) {
    let gate = PutsBefore {
        count: AtomicU64::new(0),
        handled: AtomicU64::new(0),
        before: AtomicU64::new(0),
    };
    let words: &[&str] = &["--workers", "2"];
    assert!(rt; ends_well(&rt, rt.alloc(), words, ACKNOWLEDGED, &gate) == Ok(true));
    assert_eq!(rt; gate.handled.load(Ordering::SeqCst), 2);
    assert_eq!(rt; gate.before.load(Ordering::SeqCst), 1);
}
