//! The queues of a round are opened.
ghost use Rattle.std.specs.Prelude.{◌≡◌, ◌≤◌, ◌<◌, ◌+◌, ◌==◌, ◌&&◌, not, ℕ, length, IfOk, vec_len};
ghost use Rattle.sig_model.specs.Keeping.{IsPlaced};
ghost use Rattle.sig_process.specs.Standing.{runnings_of};
ghost use Rattle.sig_layout.specs.Policies.{IsPolicy};
ghost use Rattle.sig_layout.specs.Sets.{has};
ghost use Rattle.sig_workers.specs.Parts.{is_in};
ghost use Rattle.sig_workers.specs.Opening.{numbers_to, AreNumbered, first_seated, IsQueueOf, AreOpened};

use crate::columns::all_columns;
use crate::first::take_first;
use sig_layout::{Numbers, Opening, Policy, Senders};
use sig_process::Process;
use sig_queue::{QSeat, SigQueue};
use sig_terms::Pid;
use std::alloc::{AllocError, Global};
use std::collections::VecDeque;

/// These processes, as a set of senders: so many from the first one on.
pub(crate) fn senders_of(first: u32, count: u32) -> Senders
    requires { first + count ≤ 256 }
    ensures { (s : ℕ) → has result s ≡ is_in first count s }
{
    let mut senders = Senders::none();
    for at in 0..count {
        senders = senders.with(Pid(first + at));
    }
    senders
}

/// The set without this process.
pub(crate) fn senders_but(senders: Senders, but: u32) -> Senders
    requires { but < 256 }
    ensures { (s : ℕ) → has result s ≡ (has senders s && not (s == but)) }
{
    let one = Senders::none().with(Pid(but));
    senders.minus(one)
}

/// Opens the queue of one process, which keeps its messages where the process does, with the seat
/// that has all senders and the role. The set has the pids of all processes, and the list the
/// numbers of their next signals to this one. The error is want of memory.
fn open_one(
    alloc: Global,
    policy: Policy,
    procs: &[Process],
    everyone: Senders,
    first: Numbers,
    at: u32,
) -> Result<(SigQueue, QSeat), AllocError>
    requires policy { IsPolicy policy }
    requires few { length procs.now ≤ 256 }
    requires placed { IsPlaced (runnings_of procs.now) }
    requires numbered { AreNumbered (runnings_of procs.now) }
    requires everyone { (s : ℕ) → has everyone s ≡ is_in 0 (length procs.now) s }
    requires first { first ≡ numbers_to at (runnings_of procs.now) }
    requires within { at < length procs.now }
    ensures { IfOk result (λ r. IsQueueOf policy (runnings_of procs.now) at r.0 × (r.1 ≡ first_seated r.0)) }
{
    let count = procs.len() as u32;
    let senders = senders_but(everyone, at);
    let opening = Opening {
        receiver: Pid(at),
        count,
        first,
    };
    let place = at as usize;
    SigQueue::open(alloc, policy, procs[place].queue_data(), senders, &opening)
}

/// Opens the queue of each process, by pid. The error is want of memory.
pub(crate) fn open_all(
    alloc: Global,
    policy: Policy,
    procs: &[Process],
) -> Result<(Vec<SigQueue>, Vec<QSeat>), AllocError>
    requires policy { IsPolicy policy }
    requires few { length procs.now ≤ 256 }
    requires placed { IsPlaced (runnings_of procs.now) }
    requires numbered { AreNumbered (runnings_of procs.now) }
    ensures many { IfOk result (λ r. vec_len r.0 ≡ length procs.now) }
    ensures opened { IfOk result (λ r. AreOpened policy (runnings_of procs.now) r.0.items r.1.items) }
{
    let everyone = senders_of(0, procs.len() as u32);
    let mut columns = VecDeque::from_vec(all_columns(alloc, procs)?);
    let mut queues = Vec::new(alloc);
    let mut seats = Vec::new(alloc);
    for at in 0..procs.len() {
        let mut first = take_first(&mut columns);
        first.pad(procs.len());
        let (queue, seat) = open_one(alloc, policy, procs, everyone, first, at as u32)?;
        queues.push(queue)?;
        seats.push(seat)?;
    }
    Ok((queues, seats))
}
