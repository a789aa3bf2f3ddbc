//! Readers of a process's part of a record.

ghost use Rattle.std.specs.Prelude.{◌≡◌, ℕ, List, [], codes, length};
ghost use Rattle.sig_record.specs.Refusing.{Yields};
ghost use Rattle.sig_record.specs.RecordFronts.{begins_by};
ghost use Rattle.sig_record.specs.RecordLines.{headed, parts_lines, report_lines};

use crate::items::{Item, read_all};
use crate::lines::{begins_by, head_line, state_line};
use crate::refusal::Refusal;
use crate::report::{Lefts, Queued, Report};
use sig_lists::Sequence;
use sig_model::{Events, State};
use sig_terms::Pid;
use std::alloc::Global;

/// Reads what stands behind the first line of a process's part into the empty lists.
fn read_lists<'a>(
    alloc: Global,
    pid: u32,
    events: &mut Events,
    left: &mut Lefts,
    queued: &mut Queued,
    bytes: &'a [u8],
) -> Result<(State, &'a [u8]), Refusal>
    requires events { events.old ≡ [] }
    requires left { left.old ≡ [] }
    requires queued { queued.old ≡ [] }
    ensures { (head : ℕ × List ℕ) → Yields (λ x. (((((head, events.new), left.new), queued.new), x.0), x.1.now)) result
        (parts_lines pid (headed head) bytes.now) }
{
    let rest = read_all(alloc, pid, events, bytes)?;
    let rest = read_all(alloc, pid, left, rest)?;
    let rest = read_all(alloc, pid, queued, rest)?;
    state_line(alloc, rest)
}

/// The part of this process.
#[tactic(auto, unfolding(crate::specs::RecordLines::report_lines))]
fn report(alloc: Global, pid: u32, bytes: &[u8]) -> Result<(Report, &[u8]), Refusal>
    ensures { Yields (λ x. (x.0, x.1.now)) result (report_lines pid bytes.now) }
{
    let ((n, name), rest) = head_line(alloc, pid, bytes)?;
    let mut events = Sequence::new(alloc);
    let mut left = Sequence::new(alloc);
    let mut queued = Sequence::new(alloc);
    let (state, rest) = read_lists(alloc, pid, &mut events, &mut left, &mut queued, rest)?;
    let report = Report {
        pid: Pid(n),
        name,
        events,
        left,
        queued,
        state,
    };
    Ok((report, rest))
}

/// The part of the process of this number.
#[tactic(auto, using(crate::proofs::WidePids::wide_is_err))]
fn report_at(alloc: Global, place: usize, bytes: &[u8]) -> Result<(Report, &[u8]), Refusal>
    ensures { Yields (λ x. (x.0, x.1.now)) result (report_lines place bytes.now) }
{
    if place < 1 << 32 {
        report(alloc, place as u32, bytes)
    } else {
        Err(Refusal::Bad { left: bytes.len() })
    }
}

/// The parts of the processes, each of the process whose number is that of the parts before it.
impl Item for Report {
    ghost begins = { begins_by (codes "process ") };

    ghost front = { λ pid before. report_lines (length before) };

    fn begins(bytes: &[u8]) -> bool {
        begins_by(b"process ", bytes)
    }

    fn read<'a>(
        alloc: Global,
        _pid: u32,
        before: &[Report],
        bytes: &'a [u8],
    ) -> Result<(Report, &'a [u8]), Refusal> {
        report_at(alloc, before.len(), bytes)
    }
}
