//! A crew and its seats are cut into the workers' parts.
ghost use Rattle.std.specs.Prelude.{◌≡◌, ◌≤◌, ◌<◌, ◌+◌, ◌-◌, ℕ, length, take, drop, vec_len, Some, All, IfOk, OnOk};
ghost use Rattle.sig_layout.specs.Sets.{has};
ghost use Rattle.sig_workers.specs.Parts.{is_in};
ghost use Rattle.sig_workers.specs.Opening.{IsFreshSeat, AreFresh};
ghost use Rattle.sig_workers.specs.Rows.{FreshRow};

use crate::opening::{senders_but, senders_of};
use crate::part::{Base, Part};
use sig_layout::Senders;
use sig_process::Process;
use sig_queue::{QSeat, SigQueue};
use std::alloc::{AllocError, Global};
use std::collections::VecDeque;
use std::snapshot::Snapshot;

/// Whether the process is one of these: of so many from the first one on.
#[tactic(auto, unfolding(crate::specs::Parts::is_in))]
fn has_process(first: u32, count: u32, pid: u32) -> bool
    requires { first + count ≤ 256 }
    ensures { result ≡ is_in first count pid }
{
    (first <= pid) & (pid < first + count)
}

/// Splits the processes from this one on off from a seat that has all. The set has their pids.
fn cut_one(
    queue: &SigQueue,
    seat: &mut QSeat,
    part: Senders,
    first: u32,
    count: u32,
    at: u32,
) -> QSeat
    requires few { first + count ≤ 256 }
    requires part { (s : ℕ) → has part s ≡ is_in first count s }
    requires within { at < 256 }
    requires fresh { IsFreshSeat queue.now 0 (first + count) at seat.old }
    ensures left { IsFreshSeat queue.now 0 first at seat.new }
    ensures right { IsFreshSeat queue.now first count at result }
{
    let receiver = has_process(first, count, at);
    queue.split(seat, senders_but(part, at), receiver)
}

/// Splits the processes from this one on off from the seats that have all. The error is want of
/// memory.
pub(crate) fn cut_seats(
    alloc: Global,
    queues: &[SigQueue],
    seats: &mut Vec<QSeat>,
    first: u32,
    count: u32,
) -> Result<Vec<QSeat>, AllocError>
    requires few { first + count ≤ 256 }
    requires queues { length queues.now ≤ 256 }
    requires fresh { AreFresh queues.now 0 (first + count) seats.old.items }
    ensures left { OnOk result (AreFresh queues.now 0 first seats.new.items) }
    ensures right { IfOk result (λ others. AreFresh queues.now first count others.items) }
{
    let part = senders_of(first, count);
    let mut others = Vec::new(alloc);
    for at in 0..queues.len() {
        let other = cut_one(&queues[at], &mut seats[at], part, first, count, at as u32);
        others.push(other)?;
    }
    Ok(others)
}

/// What the crew is, so often. The error is want of memory.
fn bases(alloc: Global, procs: &Vec<Process>, count: u32) -> Result<Vec<Base>, AllocError>
    ensures many { IfOk result (λ bs. vec_len bs ≡ count) }
    ensures all { IfOk result (λ bs. All (λ b. b.crew.value.items ≡ procs.now.items) bs.items) }
{
    let mut all = Vec::new(alloc);
    for _at in 0..count {
        all.push(keep_base(procs))?;
    }
    Ok(all)
}

/// Cuts off the processes from this one on, with their seats, as a worker's part. The error is want
/// of memory.
fn cut_part(
    alloc: Global,
    queues: &[SigQueue],
    seats: &mut Vec<QSeat>,
    procs: &mut Vec<Process>,
    first: u32,
    worker: u32,
    base: Base,
) -> Result<Part, AllocError>
    requires first { first ≤ vec_len procs.old }
    requires few { vec_len procs.old ≤ 256 }
    requires queues { length queues.now ≤ 256 }
    requires fresh { AreFresh queues.now 0 (length procs.old.items) seats.old.items }
    ensures left { OnOk result (AreFresh queues.now 0 first seats.new.items) }
    ensures procs { OnOk result (procs.new.items ≡ take first procs.old.items) }
    ensures part { IfOk result (λ p. (p.first ≡ first) × (p.base ≡ base) × (p.procs.items ≡ drop first procs.old.items)) }
    ensures right { IfOk result (λ p. AreFresh queues.now first (length procs.old.items - first) p.seats.items) }
{
    let count = procs.len() as u32 - first;
    let seats = cut_seats(alloc, queues, seats, first, count)?;
    let procs = procs.split_off(first as usize)?;
    Ok(Part {
        worker,
        first,
        procs,
        seats,
        base,
    })
}

/// The workers' parts, one after another. Of n processes worker w, from 0, has those from w * n /
/// workers to below (w + 1) * n / workers. One that would have none gets no part, but for the first
/// worker of no processes at all. The error is want of memory.
pub(crate) fn make_parts(
    alloc: Global,
    queues: &[SigQueue],
    mut seats: Vec<QSeat>,
    mut procs: Vec<Process>,
    workers: u32,
) -> Result<Vec<Part>, AllocError>
    requires workers { (1 ≤ workers) × (workers ≤ 16) }
    requires few { vec_len procs ≤ 256 }
    requires queues { length queues.now ≤ 256 }
    requires fresh { AreFresh queues.now 0 (length procs.items) seats.items }
    ensures some { IfOk result (λ ps. 0 < vec_len ps) }
    ensures row { IfOk result (λ ps. FreshRow queues.now procs.items 0 (length procs.items) ps.items) }
{
    let count = procs.len() as u32;
    let mut bases = bases(alloc, &procs, workers)?;
    let mut parts = VecDeque::new(alloc);
    while let Some(base) = bases.pop() {
        let worker = bases.len() as u32;
        let first = (worker * count / workers).min(procs.len() as u32);
        if worker > 0 && first == procs.len() as u32 {
            continue;
        }
        let part = cut_part(alloc, queues, &mut seats, &mut procs, first, worker, base)?;
        parts.push_front(part)?;
    }
    Ok(parts.into_vec())
}

/// What the crew is.
pub(crate) fn keep_base(procs: &Vec<Process>) -> Base
    ensures { result.crew.value.items ≡ procs.now.items }
{
    Base {
        size: 0,
        crew: Snapshot::of(procs),
    }
}
