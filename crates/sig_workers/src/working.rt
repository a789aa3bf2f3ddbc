//! The work of one worker in a round.
ghost use Rattle.std.specs.Prelude.{◌≡◌, ◌<◌, ◌≤◌, [], length, IfOk, OnOk, vec_len};
ghost use Rattle.sig_workers.specs.Acting.{HasActedAt, ActBelow};
ghost use Rattle.sig_workers.specs.Parts.{procs_of, IsPart, IsSamePart, HasVisited, Grow, HavePassed, HasWorked};
ghost use Rattle.sig_workers.specs.declared.working.TheConstants.{PATIENCE};

use crate::part::{Part, Worked};
use crate::putting::Me;
use crate::shared::Shared;
use crate::stepping::visit;
use sig_base::{Gate, Steps};
use sig_kinds::Signals;
use sig_queue::SigQueue;
use std::alloc::{AllocError, Global};
use std::marker::Brand;
use std::sync::Wait;
use std::sync::ledger::{Blank, Ledger};
use std::thread;

/// How many passes in a row may have no event, after the first, before a worker ends its part.
const PATIENCE: u32 = 1000;

/// Visits the process at this place of the part. Tells whether it had an event, and adds its events
/// to `made`. What it takes in lies in the list on its way, which is empty before and after. The
/// error is want of memory.
fn visit_at<R: Wait, G: Gate, L: Ledger>(
    shared: &Shared<'_, R, G>,
    part: &mut Part,
    at: usize,
    fetched: &mut Signals,
    made: &mut usize,
    steps: &mut Steps<L>,
) -> Result<bool, AllocError>
    requires part { IsPart shared.now.queues.now part.old }
    requires within { at < vec_len part.old.procs }
    requires empty { fetched.old.items ≡ [] }
    ensures part { OnOk result (IsPart shared.now.queues.now part.new) }
    ensures same { OnOk result (IsSamePart part.old part.new) }
    ensures visited { IfOk result (HasVisited at (procs_of part.old) (procs_of part.new)) }
    ensures acted { OnOk result (HasActedAt at part.old.procs.items part.new.procs.items) }
    ensures empty { OnOk result (fetched.new.items ≡ []) }
{
    let me = Me {
        worker: part.worker,
        pid: part.first + at as u32,
    };
    let process = &mut part.procs[at];
    let before = process.events().len();
    let moved = visit(shared, me, process, &mut part.seats, fetched, steps)?;
    *made = made.saturating_add(process.events().len().saturating_sub(before));
    Ok(moved)
}

/// One pass over the part's processes, by ascending pid. Tells whether it had an event, and adds the
/// events to `made`. The error is want of memory.
fn pass<R: Wait, G: Gate, L: Ledger>(
    shared: &Shared<'_, R, G>,
    part: &mut Part,
    fetched: &mut Signals,
    made: &mut usize,
    steps: &mut Steps<L>,
) -> Result<bool, AllocError>
    requires part { IsPart shared.now.queues.now part.old }
    requires empty { fetched.old.items ≡ [] }
    ensures part { OnOk result (IsPart shared.now.queues.now part.new) }
    ensures same { OnOk result (IsSamePart part.old part.new) }
    ensures grow { OnOk result (Grow (procs_of part.old) (procs_of part.new)) }
    ensures passed { IfOk result (HavePassed (procs_of part.old) (procs_of part.new)) }
    ensures acted { OnOk result (ActBelow (length part.new.procs.items) part.old.procs.items part.new.procs.items) }
    ensures empty { OnOk result (fetched.new.items ≡ []) }
{
    let mut moved = false;
    for at in 0..part.procs.len() {
        let here = visit_at(shared, part, at, fetched, made, steps)?;
        moved |= here;
    }
    Ok(moved)
}

/// How many passes a worker makes in vain after the first: none where no signal of another worker can
/// come, since it has all processes.
fn patience(queues: &[SigQueue], part: &Part) -> u32
    ensures most { result ≤ PATIENCE }
    ensures alone { vec_len part.now.procs ≡ length queues.now → result ≡ 0 }
{
    if part.procs.len() == queues.len() {
        return 0;
    }
    PATIENCE
}

/// Passes until one has an event, at most so often in a row after the first, and gives the processor
/// away in between: a signal of another worker may be on its way. Tells whether there was an event, and
/// adds the events to `made`. The error is want of memory.
fn pass_patiently<R: Wait, G: Gate, L: Ledger>(
    shared: &Shared<'_, R, G>,
    part: &mut Part,
    fetched: &mut Signals,
    made: &mut usize,
    steps: &mut Steps<L>,
) -> Result<bool, AllocError>
    requires part { IsPart shared.now.queues.now part.old }
    requires empty { fetched.old.items ≡ [] }
    ensures part { OnOk result (IsPart shared.now.queues.now part.new) }
    ensures same { OnOk result (IsSamePart part.old part.new) }
    ensures grow { OnOk result (Grow (procs_of part.old) (procs_of part.new)) }
    ensures passed { IfOk result (HavePassed (procs_of part.old) (procs_of part.new)) }
    ensures acted { OnOk result (ActBelow (length part.new.procs.items) part.old.procs.items part.new.procs.items) }
    ensures empty { OnOk result (fetched.new.items ≡ []) }
{
    let mut moved = pass(shared, part, fetched, made, steps)?;
    for _again in 0..patience(shared.queues, part) {
        if moved {
            return Ok(true);
        }
        thread::yield_now();
        moved = pass(shared, part, fetched, made, steps)?;
    }
    Ok(moved)
}

/// Passes until so many in a row have no event, or until there are at least as many events as the quota
/// says. Tells whether there was one. The error is want of memory.
fn work_with<R: Wait, G: Gate, L: Ledger>(
    shared: &Shared<'_, R, G>,
    alloc: Global,
    quota: u32,
    part: &mut Part,
    blank: Blank,
) -> Result<bool, AllocError>
    requires name { blank.name ≡ L.name }
    requires parts { blank.parts ≡ L.parts }
    requires some { 0 < blank.parts }
    requires quota { 1 ≤ quota }
    requires part { IsPart shared.now.queues.now part.old }
    ensures part { OnOk result (IsPart shared.now.queues.now part.new) }
    ensures same { OnOk result (IsSamePart part.old part.new) }
    ensures passed { IfOk result (HavePassed (procs_of part.old) (procs_of part.new)) }
    ensures acted { OnOk result (ActBelow (length part.new.procs.items) part.old.procs.items part.new.procs.items) }
{
    let mut steps: Steps<L> = Steps::open(blank);
    let mut fetched = Signals::new(alloc);
    let mut moved = false;
    let mut made = 0;
    for _pass in 0..quota {
        let here = pass_patiently(shared, part, &mut fetched, &mut made, &mut steps)?;
        moved |= here;
        if !here || made >= quota as usize {
            return Ok(moved);
        }
    }
    Ok(moved)
}

/// One worker's work in a round: passes over its processes until it finds nothing to do, however often
/// it looks again, or until it has made at least as many events as the quota says. The error is want of
/// memory.
pub(crate) fn work<R: Wait, G: Gate>(
    shared: &Shared<'_, R, G>,
    alloc: Global,
    quota: u32,
    mut part: Part,
) -> Result<Worked, AllocError>
    requires quota { 1 ≤ quota }
    requires part { IsPart shared.now.queues.now part }
    ensures { IfOk result (HasWorked shared.now.queues.now part) }
{
    let blank = Blank::new(1);
    let moved = work_with::<R, G, Brand>(shared, alloc, quota, &mut part, blank)?;
    Ok(Worked { part, moved })
}
