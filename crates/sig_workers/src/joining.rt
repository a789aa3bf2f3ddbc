//! The workers' parts are joined at the end of their work.
ghost use Rattle.std.specs.Prelude.{◌≡◌, ◌+◌, ◌<◌, ℕ, length, vec_len, slice_get, Some, OnOk, IfOk};
ghost use Rattle.sig_queue.specs.Seats.{Seated};
ghost use Rattle.sig_workers.specs.Parts.{procs_of, crew_of, IsPart, IsOwn, AreJoined, HasJoined};
ghost use Rattle.sig_workers.specs.Rows.{DoneRow, IsWhole};

use crate::first::take_first;
use crate::part::{Base, Part, Worked};
use sig_queue::{QSeat, SigQueue};
use std::alloc::AllocError;
use std::collections::VecDeque;

/// Joins the seats at each queue.
fn join_seats(queues: &[SigQueue], seats: &mut Vec<QSeat>, mut others: Vec<QSeat>)
    requires many { (vec_len seats.old ≡ length queues.now) × (vec_len others ≡ length queues.now) }
    requires own { (p : ℕ) (v : Seated) → slice_get seats.old.items p ≡ Some v → IsOwn queues.now p v }
    requires other { (p : ℕ) (v : Seated) → slice_get others.items p ≡ Some v → IsOwn queues.now p v }
    ensures { AreJoined seats.old.items others.items seats.new.items }
{
    while let Some(other) = others.pop() {
        let at = others.len();
        queues[at].join(&mut seats[at], other);
    }
}

/// The first part has the processes and seats of both then. The error is want of memory.
fn join_parts(queues: &[SigQueue], part: &mut Part, other: Part) -> Result<(), AllocError>
    requires part { IsPart queues.now part.old }
    requires other { IsPart queues.now other }
    requires next { other.first ≡ part.old.first + length (procs_of part.old) }
    requires base { crew_of other ≡ crew_of part.old }
    ensures part { OnOk result (IsPart queues.now part.new) }
    ensures joined { OnOk result (HasJoined part.old other part.new) }
{
    let Part {
        worker: _,
        first: _,
        mut procs,
        seats,
        base: _,
    } = other;
    join_seats(queues, &mut part.seats, seats);
    part.procs.append(&mut procs)
}

/// The parts at the end of their work, joined, and whether one of them had an event. The error is
/// want of memory, here or in a part.
pub(crate) fn join_all(
    queues: &[SigQueue],
    base: &Base,
    done: Vec<Result<Worked, AllocError>>,
) -> Result<Worked, AllocError>
    requires some { 0 < vec_len done }
    requires row { DoneRow queues.now base.now.crew.value.items 0 (length base.now.crew.value.items) done.items }
    ensures { IfOk result (IsWhole queues.now base.now.crew.value.items (length base.now.crew.value.items)) }
{
    let mut done = VecDeque::from_vec(done);
    let mut whole = take_first(&mut done)?;
    while !done.is_empty() {
        let Worked { part, moved } = take_first(&mut done)?;
        join_parts(queues, &mut whole.part, part)?;
        whole.moved |= moved;
    }
    Ok(whole)
}
