//! The events of a process that are concurrent with a given one, found by the counts.

ghost use Rattle.std.specs.Prelude.{◌≡◌};
ghost use Rattle.sig_order.specs.Counting.{counted_of};
ghost use Rattle.sig_order.specs.Searching.{IsLastWithout, IsSpan};

use crate::at::At;
use crate::counts::{Rows, count};
use crate::span::Span;

/// How many events of the process have counts.
fn counted(rows: &[Rows], pid: u32) -> u64
    ensures { result ≡ counted_of rows.now pid }
{
    match rows.get(pid as usize) {
        Some(rows) => rows.known.len() as u64,
        None => 0,
    }
}

/// The number of the last event of the process that doesn't count this event, 0 where there is none.
/// Where one counts it, so does the next: it is found by halving.
fn last_without(rows: &[Rows], at: At, pid: u32) -> u64
    ensures { IsLastWithout rows.now at pid result }
{
    let mut low = 0;
    let mut high = counted(rows, pid);
    while low < high {
        let event = high - (high - low) / 2;
        if count(rows, At { pid, event }, at.pid as usize) < at.event {
            low = event;
        } else {
            high = event - 1;
        }
    }
    low
}

/// The events of the process that this event doesn't count, and that don't count it.
pub(crate) fn span(rows: &[Rows], at: At, pid: u32) -> Option<Span>
    ensures { IsSpan rows.now at pid result }
{
    let before = count(rows, at, pid as usize);
    let last = last_without(rows, at, pid);
    if before < last {
        Some(Span {
            first: before + 1,
            last,
        })
    } else {
        None
    }
}
