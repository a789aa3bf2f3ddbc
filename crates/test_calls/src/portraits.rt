//! What tells processes apart: the last processes of two scripts, each after its first instruction.

ghost use Rattle.std.specs.Prelude.{◌≡◌, ◌<◌};

use crate::processes::{execute, opened};
use crate::shared::{Row, each_row_holds};
use sig_base::Steps;
use sig_process::{Portrait, Process};
use sig_script::ScriptError;
use std::alloc::{AllocError, Global};
use std::hash::{FoldHasher, Hasher};
use std::marker::Brand;
use std::mem::drop;
use std::sync::ledger::{Blank, Ledger};

/// The instructions of the two, and whether they are the same then.
struct Pair {
    one: &'static [u8],
    other: &'static [u8],
    same: bool,
}

const PAIRS: [Pair; 9] = [
    Pair {
        one: b"process b\nprocess a\nset X 1\n",
        other: b"process b\nprocess a\nset X 1\nstop\n",
        same: true,
    },
    // What it sent to others doesn't count.
    Pair {
        one: b"process b\nprocess a\nsend @b 1\n",
        other: b"process b\nprocess a\nsend @b 2\n",
        same: true,
    },
    Pair {
        one: b"process b\nprocess a\nset X 1\n",
        other: b"process b\nprocess a\nset X 2\n",
        same: false,
    },
    Pair {
        one: b"process b\nprocess a\ntrap on\n",
        other: b"process b\nprocess a\ntrap off\n",
        same: false,
    },
    Pair {
        one: b"process b\nprocess a\nsend @a 1\n",
        other: b"process b\nprocess a\nsend @a 2\n",
        same: false,
    },
    Pair {
        one: b"process b\nprocess a\nlink @b\n",
        other: b"process b\nprocess a\nunlink @b\n",
        same: false,
    },
    Pair {
        one: b"process b\nprocess a\nmonitor X @b\n",
        other: b"process b\nprocess a\nmake_ref X\n",
        same: false,
    },
    Pair {
        one: b"process b\nprocess a\nexit one\n",
        other: b"process b\nprocess a\nexit two\n",
        same: false,
    },
    Pair {
        one: b"process b\nprocess a\ngoto l\nset X 1\nlabel l\n",
        other: b"process b\nprocess a\ngoto l\nlabel l\n",
        same: false,
    },
];

/// The portrait of the process after its next instruction, and whether that was executed.
fn after_one<L: Ledger>(mut process: Process, steps: &mut Steps<L>) -> (Portrait, bool) {
    let went = execute(&mut process, steps) == Ok(true);
    (process.into_portrait(), went)
}

/// The same of the last process of the script of these lines. `None` where it has none.
fn portrait_of<L: Ledger>(
    alloc: Global,
    lines: &[u8],
    steps: &mut Steps<L>,
) -> Result<Option<(Portrait, bool)>, ScriptError> {
    let mut crew = opened(alloc, lines)?;
    let last = crew.procs.pop();
    drop(crew);
    match last {
        Some(process) => Ok(Some(after_one(process, steps))),
        None => Ok(None),
    }
}

/// The number that a hasher makes of it.
fn mark_of(portrait: &Portrait) -> u64 {
    let mut hasher = FoldHasher::default();
    portrait.hash(&mut hasher);
    hasher.finish()
}

/// Whether the two are the same, and found by the same number.
fn is_found(one: &Portrait, other: &Portrait) -> bool {
    one.same(other) && mark_of(one) == mark_of(other)
}

/// Whether both are there after an instruction, and are found by each other or not, as is said.
fn agree(one: &Option<(Portrait, bool)>, other: &Option<(Portrait, bool)>, same: bool) -> bool {
    match (one, other) {
        (Some(one), Some(other)) => one.1 && other.1 && is_found(&one.0, &other.0) == same,
        _ => false,
    }
}

impl Pair {
    /// Whether the other is told apart from this one where it should be, and is found by the same number where it isn't.
    fn agrees<L: Ledger>(
        &self,
        alloc: Global,
        one: &Option<(Portrait, bool)>,
        steps: &mut Steps<L>,
    ) -> Result<bool, ScriptError> {
        let other = portrait_of(alloc, self.other, steps)?;
        let agreed = agree(one, &other, self.same);
        drop(other);
        Ok(agreed)
    }

    /// The same of both.
    fn compares<L: Ledger>(&self, alloc: Global, blank: Blank) -> Result<bool, ScriptError>
        requires name { blank.name ≡ L.name }
        requires parts { blank.parts ≡ L.parts }
        requires some { 0 < blank.parts }
    {
        let mut steps: Steps<L> = Steps::open(blank);
        let one = portrait_of(alloc, self.one, &mut steps)?;
        let agreed = self.agrees(alloc, &one, &mut steps);
        drop(one);
        agreed
    }
}

impl Row for Pair {
    fn holds(&self, alloc: Global) -> Result<bool, AllocError> {
        let compared = self.compares::<Brand>(alloc, Blank::new(1));
        Ok(compared == Ok(true))
    }
}

#[test]
fn processes_are_told_apart_by_what_counts(rt: HostRuntime) {
    each_row_holds(&rt, rt.alloc(), &PAIRS);
}
