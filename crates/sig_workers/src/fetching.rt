//! What was put for a process is taken in.
ghost use Rattle.std.specs.Prelude.{◌≡◌, ◌<◌, [], true, OnOk, vec_len};
ghost use Rattle.sig_workers.specs.Gone.{IsReady, Goes};
ghost use Rattle.sig_workers.specs.Visits.{IsRemoved, IsFetched};

use crate::bells::Bells;
use crate::putting::Me;
use crate::shared::Shared;
use sig_base::Gate;
use sig_kinds::Signals;
use sig_process::Process;
use sig_queue::{Fetch, QSeat, SigQueue};
use std::alloc::AllocError;
use std::sync::Wait;

/// Makes a removal where one is due. The error is want of memory.
fn remove_due<R: Wait>(rt: &R, queue: &SigQueue, seat: &mut QSeat) -> Result<(), AllocError>
    requires own { seat.old.queue ≡ queue.now.id }
    requires role { seat.old.knows.role ≡ true }
    ensures { OnOk result (IsRemoved seat.old seat.new) }
{
    if SigQueue::removal_due(seat) {
        queue.remove(rt, seat)?;
    }
    Ok(())
}

/// Whether a fetch may have left what was put.
fn leaves_some(fetch: &Fetch) -> bool {
    match fetch {
        Fetch::Took { skipped, .. } => *skipped != 0,
        Fetch::Busy { .. } | Fetch::Memory => true,
    }
}

/// Makes a removal where one is due, and tries a fetch. The bell of the queue rings again where the
/// fetch may have left something. The error is want of memory.
fn fetch_at<R: Wait>(
    rt: &R,
    queue: &SigQueue,
    bells: &Bells,
    pid: u32,
    seat: &mut QSeat,
    into: &mut Signals,
) -> Result<(), AllocError>
    requires own { seat.old.queue ≡ queue.now.id }
    requires role { seat.old.knows.role ≡ true }
    requires empty { into.old.items ≡ [] }
    ensures { OnOk result (IsFetched queue.now seat.old into.new.items seat.new) }
{
    remove_due(rt, queue, seat)?;
    let got = queue.try_fetch(seat, into);
    bells.ring_if(pid, leaves_some(&got));
    match got {
        Fetch::Took { .. } | Fetch::Busy { .. } => Ok(()),
        Fetch::Memory => Err(AllocError),
    }
}

/// Takes in what was put for the process, if another worker doesn't hold its queue. It lies in the
/// empty list on its way. The error is want of memory.
fn fetch<R: Wait, G: Gate>(
    shared: &Shared<'_, R, G>,
    me: Me,
    process: &mut Process,
    seats: &mut Vec<QSeat>,
    fetched: &mut Signals,
) -> Result<(), AllocError>
    requires ready { IsReady shared.now.queues.now me.pid process.old.running seats.old.items }
    requires within { me.pid < vec_len seats.old }
    requires empty { fetched.old.items ≡ [] }
    ensures goes { OnOk result (Goes shared.now.queues.now me.pid process.old.running seats.old.items process.new.running seats.new.items) }
    ensures outbox { OnOk result (process.new.running.outbox ≡ process.old.running.outbox) }
    ensures events { OnOk result (process.new.running.events ≡ process.old.running.events) }
    ensures saved { OnOk result (process.new.saved ≡ process.old.saved) }
    ensures empty { OnOk result (fetched.new.items ≡ []) }
{
    let at = me.pid as usize;
    let (queues, bells) = (shared.queues, shared.bells);
    fetch_at(
        shared.rt,
        &queues[at],
        bells,
        me.pid,
        &mut seats[at],
        fetched,
    )?;
    process.take_in(fetched)
}

/// Takes in what was put for the process, where its bell rings: it is hushed first, so that what is
/// put from then on rings again. Where the bell is quiet there is nothing that a fetch would have to
/// take now. What it takes lies in the empty list on its way. The error is want of memory.
pub(crate) fn fetch_rung<R: Wait, G: Gate>(
    shared: &Shared<'_, R, G>,
    me: Me,
    process: &mut Process,
    seats: &mut Vec<QSeat>,
    fetched: &mut Signals,
) -> Result<(), AllocError>
    requires ready { IsReady shared.now.queues.now me.pid process.old.running seats.old.items }
    requires within { me.pid < vec_len seats.old }
    requires empty { fetched.old.items ≡ [] }
    ensures goes { OnOk result (Goes shared.now.queues.now me.pid process.old.running seats.old.items process.new.running seats.new.items) }
    ensures outbox { OnOk result (process.new.running.outbox ≡ process.old.running.outbox) }
    ensures events { OnOk result (process.new.running.events ≡ process.old.running.events) }
    ensures saved { OnOk result (process.new.saved ≡ process.old.saved) }
    ensures empty { OnOk result (fetched.new.items ≡ []) }
{
    if !shared.bells.rings(me.pid) {
        return Ok(());
    }
    shared.bells.hush(me.pid);
    fetch(shared, me, process, seats, fetched)
}
