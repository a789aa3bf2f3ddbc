//! What a process sends is put into the queues of its receivers.
ghost use Rattle.std.specs.Prelude.{◌≡◌, ◌<◌, [], length, true, IfOk, OnOk, vec_len, slice_get, Some};
ghost use Rattle.sig_layout.specs.Openings.{IsNext};
ghost use Rattle.sig_layout.specs.Sets.{has};
ghost use Rattle.sig_queue.specs.Seats.{Seated};
ghost use Rattle.sig_workers.specs.Gone.{IsReady, Goes};
ghost use Rattle.sig_workers.specs.Visits.{MayPut, HasPut, WasPut};

use crate::bells::Bells;
use crate::shared::Shared;
use sig_base::{Gate, Point};
use sig_kinds::Signal;
use sig_layout::Via;
use sig_process::Process;
use sig_queue::{QSeat, Sent, SigQueue};
use std::alloc::AllocError;
use std::mem::drop;
use std::sync::Wait;

/// Who works: the worker's number, and the pid of the process.
#[derive(Clone, Copy, Drop)]
pub(crate) struct Me {
    pub(crate) worker: u32,
    pub(crate) pid: u32,
}

/// Puts a signal into this queue. The error is want of memory.
fn put_at<R: Wait>(
    rt: &R,
    queue: &SigQueue,
    seat: &mut QSeat,
    signal: Signal,
) -> Result<Via, AllocError>
    requires own { seat.old.queue ≡ queue.now.id }
    requires from { has seat.old.knows.senders signal.from.0 ≡ true }
    requires next { IsNext queue.now.setup seat.old.knows.put signal }
    ensures { IfOk result (λ via. HasPut seat.old signal via seat.new) }
{
    match queue.send(rt, seat, signal) {
        Sent::Put { via } => Ok(via),
        Sent::Memory { signal } => {
            drop(signal);
            Err(AllocError)
        }
    }
}

/// Puts a signal into its receiver's queue, and rings the bell. The error is want of memory.
fn put_one<R: Wait>(
    rt: &R,
    queues: &[SigQueue],
    bells: &Bells,
    seats: &mut Vec<QSeat>,
    signal: Signal,
) -> Result<Via, AllocError>
    requires within { signal.to.0 < vec_len seats.old }
    requires many { length queues.now ≡ vec_len seats.old }
    requires may { (v : Seated) → slice_get seats.old.items signal.to.0 ≡ Some v → MayPut queues.now v signal }
    ensures { IfOk result (λ via. WasPut seats.old.items signal via seats.new.items) }
{
    let pid = signal.to.0;
    let to = pid as usize;
    let put = put_at(rt, &queues[to], &mut seats[to], signal);
    bells.ring(pid);
    put
}

/// The number of the buffer, where the way is one.
fn buffer_of(via: Via) -> Option<u8> {
    match via {
        Via::Outer => None,
        Via::Buffer(number) => Some(number),
    }
}

/// Puts all that lies in the process's outbox, the oldest signal first, rings the bell of each
/// receiver, and tells the gate of each put. The error is want of memory.
pub(crate) fn put_all<R: Wait, G: Gate>(
    shared: &Shared<'_, R, G>,
    me: Me,
    process: &mut Process,
    seats: &mut Vec<QSeat>,
) -> Result<(), AllocError>
    requires { IsReady shared.now.queues.now me.pid process.old.running seats.old.items }
    ensures goes { OnOk result (Goes shared.now.queues.now me.pid process.old.running seats.old.items process.new.running seats.new.items) }
    ensures process { OnOk result (process.new.running ≡ record process.old.running { outbox = [] }) }
{
    while let Some(signal) = process.next_out() {
        let via = put_one(shared.rt, shared.queues, shared.bells, seats, signal)?;
        shared.gate.at(
            me.worker,
            me.pid,
            Point::Put {
                buffer: buffer_of(via),
            },
        );
    }
    Ok(())
}
